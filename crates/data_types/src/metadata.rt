//! The metadata of a trace: what a reader knows of it.

ghost use Rattle.std.specs.Prelude.{◌≡◌, IfOk};

use crate::{ByteOrder, ClockType, EnvironmentEntry, StructType};
use plain_lists::{Duplicate, ListOf, Text, both};
use std::alloc::{AllocError, Global};
use uuid::Uuid;

/// The metadata of a trace (CTF 1.8.3, section 7). Dynamic arrays name the members that hold their lengths.
#[derive(Drop)]
pub struct Metadata {
    pub order: ByteOrder,
    pub uuid: Option<Uuid>,
    pub environment: ListOf<EnvironmentEntry>,
    pub clocks: ListOf<ClockType>,
    /// The structure of packet headers.
    pub header: StructType,
    pub streams: ListOf<Stream>,
}

/// The streams of one number.
#[derive(Drop)]
pub struct Stream {
    pub id: u64,
    /// The structure of packet contexts.
    pub context: StructType,
    /// The structure of event record headers.
    pub event_header: StructType,
    /// The structure of the context that all event records of the stream have.
    pub common: StructType,
    pub events: ListOf<Event>,
}

/// The event records of one number in a stream.
#[derive(Drop)]
pub struct Event {
    pub id: u64,
    pub name: Text,
    pub log_level: Option<u64>,
    /// The structure of the context that only these event records have.
    pub specific: StructType,
    pub fields: StructType,
}

impl Duplicate for Metadata {
    fn copy(&self, alloc: Global) -> Result<Metadata, AllocError> {
        let described = both(self.environment.copy(alloc), self.clocks.copy(alloc));
        let recorded = both(self.header.copy(alloc), self.streams.copy(alloc));
        let ((environment, clocks), (header, streams)) = both(described, recorded)?;
        Ok(Metadata {
            order: self.order,
            uuid: self.uuid,
            environment,
            clocks,
            header,
            streams,
        })
    }
}

impl Duplicate for Stream {
    fn copy(&self, alloc: Global) -> Result<Stream, AllocError> {
        let headers = both(self.context.copy(alloc), self.event_header.copy(alloc));
        let records = both(self.common.copy(alloc), self.events.copy(alloc));
        let ((context, event_header), (common, events)) = both(headers, records)?;
        Ok(Stream {
            id: self.id,
            context,
            event_header,
            common,
            events,
        })
    }
}

impl Duplicate for Event {
    fn copy(&self, alloc: Global) -> Result<Event, AllocError> {
        let structures = both(self.specific.copy(alloc), self.fields.copy(alloc));
        let (name, (specific, fields)) = both(self.name.copy(alloc), structures)?;
        Ok(Event {
            id: self.id,
            name,
            log_level: self.log_level,
            specific,
            fields,
        })
    }
}
