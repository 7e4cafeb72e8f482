//! The fields that the tracer itself fills, where their features are on.

ghost use Rattle.std.specs.Prelude.{◌≡◌, IfOk};

use crate::IntType;
use plain_lists::{Duplicate, both};
use std::alloc::{AllocError, Global};

/// The fields of the packet header (CTF 1.8.3, section 5.1; barectf 3.1, "Trace type object", `$features`). None: the feature is off.
#[derive(Debug, Drop)]
pub struct HeaderFeatures {
    /// `magic`: unsigned, 32 bits.
    pub magic: Option<IntType>,
    /// `uuid`: the type of each of its 16 elements, unsigned, 8 bits, alignment 8.
    pub uuid: Option<IntType>,
    /// `stream_id`: the number of the data stream type.
    pub stream_id: Option<IntType>,
}

/// The fields of the packet context before its extra members (CTF 1.8.3, section 5.2; barectf 3.1, "Data stream type object", `$features/packet`).
#[derive(Debug, Drop)]
pub struct ContextFeatures {
    /// `packet_size`: the packet's length in bits, padding included.
    pub packet_size: IntType,
    /// `content_size`: the packet's length in bits up to its last record's end.
    pub content_size: IntType,
    pub timestamp_begin: Option<IntType>,
    pub timestamp_end: Option<IntType>,
    /// `events_discarded`: how many event records were discarded since the stream began.
    pub events_discarded: Option<IntType>,
    /// `packet_seq_num`: how many packets of the stream stand before this one.
    pub packet_seq_num: Option<IntType>,
}

/// The fields of an event record's header (CTF 1.8.3, section 6.1; barectf 3.1, "Data stream type object", `$features/event-record`).
#[derive(Debug, Drop)]
pub struct EventFeatures {
    /// `id`: the number of the event record type.
    pub id: Option<IntType>,
    pub timestamp: Option<IntType>,
}

fn copy_feature(feature: &Option<IntType>, alloc: Global) -> Result<Option<IntType>, AllocError>
    ensures { IfOk result (λ copied. copied ≡ feature.now) }
{
    match feature {
        None => Ok(None),
        Some(int) => Ok(Some(int.copy(alloc)?)),
    }
}

impl Duplicate for HeaderFeatures {
    fn copy(&self, alloc: Global) -> Result<HeaderFeatures, AllocError> {
        let trace = both(
            copy_feature(&self.magic, alloc),
            copy_feature(&self.uuid, alloc),
        );
        let ((magic, uuid), stream_id) = both(trace, copy_feature(&self.stream_id, alloc))?;
        Ok(HeaderFeatures {
            magic,
            uuid,
            stream_id,
        })
    }
}

impl Duplicate for ContextFeatures {
    fn copy(&self, alloc: Global) -> Result<ContextFeatures, AllocError> {
        let sizes = both(self.packet_size.copy(alloc), self.content_size.copy(alloc));
        let times = both(
            copy_feature(&self.timestamp_begin, alloc),
            copy_feature(&self.timestamp_end, alloc),
        );
        let counts = both(
            copy_feature(&self.events_discarded, alloc),
            copy_feature(&self.packet_seq_num, alloc),
        );
        let (
            ((packet_size, content_size), (timestamp_begin, timestamp_end)),
            (events_discarded, packet_seq_num),
        ) = both(both(sizes, times), counts)?;
        Ok(ContextFeatures {
            packet_size,
            content_size,
            timestamp_begin,
            timestamp_end,
            events_discarded,
            packet_seq_num,
        })
    }
}

impl Duplicate for EventFeatures {
    fn copy(&self, alloc: Global) -> Result<EventFeatures, AllocError> {
        Ok(EventFeatures {
            id: copy_feature(&self.id, alloc)?,
            timestamp: copy_feature(&self.timestamp, alloc)?,
        })
    }
}
