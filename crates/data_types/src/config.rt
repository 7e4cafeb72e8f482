//! The configuration of a tracer.

ghost use Rattle.std.specs.Prelude.{◌≡◌, IfOk};

use crate::{
    ByteOrder, ClockType, ContextFeatures, EnvironmentEntry, EventFeatures, HeaderFeatures,
    StructType,
};
use plain_lists::{Duplicate, ListOf, Text, both, copy_text};
use std::alloc::{AllocError, Global};
use uuid::Uuid;

/// What a tracer is made from (barectf 3.1, "Configuration object"). Dynamic arrays have automatic lengths.
/// Stream types and event record types are numbered from 0 in their order.
#[derive(Drop)]
pub struct Config {
    pub order: ByteOrder,
    pub uuid: Option<Uuid>,
    pub environment: ListOf<EnvironmentEntry>,
    pub clocks: ListOf<ClockType>,
    pub header: HeaderFeatures,
    pub streams: ListOf<StreamType>,
}

/// A data stream type (barectf 3.1, "Data stream type object").
#[derive(Drop)]
pub struct StreamType {
    pub name: Text,
    /// The name of the clock type whose values its timestamps are.
    pub default_clock: Option<Text>,
    pub context: ContextFeatures,
    /// The members of the packet context that stand after the tracer's own: a structure whose minimum alignment is 1.
    pub extras: StructType,
    pub event_header: EventFeatures,
    pub common: StructType,
    pub events: ListOf<EventType>,
}

/// An event record type (barectf 3.1, "Event record type object").
#[derive(Drop)]
pub struct EventType {
    pub name: Text,
    pub log_level: Option<u64>,
    pub specific: StructType,
    pub payload: StructType,
}

impl Duplicate for Config {
    fn copy(&self, alloc: Global) -> Result<Config, AllocError> {
        let described = both(self.environment.copy(alloc), self.clocks.copy(alloc));
        let recorded = both(self.header.copy(alloc), self.streams.copy(alloc));
        let ((environment, clocks), (header, streams)) = both(described, recorded)?;
        Ok(Config {
            order: self.order,
            uuid: self.uuid,
            environment,
            clocks,
            header,
            streams,
        })
    }
}

impl Duplicate for StreamType {
    fn copy(&self, alloc: Global) -> Result<StreamType, AllocError> {
        let names = both(self.name.copy(alloc), copy_text(&self.default_clock, alloc));
        let features = both(self.context.copy(alloc), self.event_header.copy(alloc));
        let structures = both(self.extras.copy(alloc), self.common.copy(alloc));
        let recorded = both(structures, self.events.copy(alloc));
        let ((names, features), (structures, events)) = both(both(names, features), recorded)?;
        let (name, default_clock) = names;
        let (context, event_header) = features;
        let (extras, common) = structures;
        Ok(StreamType {
            name,
            default_clock,
            context,
            extras,
            event_header,
            common,
            events,
        })
    }
}

impl Duplicate for EventType {
    fn copy(&self, alloc: Global) -> Result<EventType, AllocError> {
        let structures = both(self.specific.copy(alloc), self.payload.copy(alloc));
        let (name, (specific, payload)) = both(self.name.copy(alloc), structures)?;
        Ok(EventType {
            name,
            log_level: self.log_level,
            specific,
            payload,
        })
    }
}
