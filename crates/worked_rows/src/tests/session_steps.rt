//! What streams of a session are made from, and which streams events are of.

ghost use Rattle.std.specs.Prelude.{◌≡◌, [], IfOk, nat_lt};
ghost use Rattle.std.specs.List.{list_all};

use std::alloc::Global;
use std::test::Fail;
use trace_platform::{ListBackEnd, ListClock, MemorySink, Script, ScriptedSink, Turn};
use trace_stack::{Event, Session};

/// Two data stream types: `plain` without a clock and with an extra member, and `timed` with a clock.
pub const TWO_TYPES: &str =
    r#"{"trace":{"type":{"trace-byte-order":"le","clock-types":{"clk":{}},"$features":{"data-stream-type-id-field-type":"u8"},"data-stream-types":{"plain":{"$features":{"packet":{"total-size-field-type":"u32","content-size-field-type":"u32","discarded-event-records-counter-snapshot-field-type":"u8"},"event-record":{"type-id-field-type":false}},"packet-context-field-type-extra-members":[{"cpu":{"field-type":"u8"}}],"event-record-types":{"e":{"payload-field-type":{"class":"struct","members":[{"v":{"field-type":"u8"}}]}}}},"timed":{"$default-clock-type-name":"clk","$features":{"packet":{"total-size-field-type":"u32","content-size-field-type":"u32","discarded-event-records-counter-snapshot-field-type":"u8","sequence-number-field-type":"u8"},"event-record":{"type-id-field-type":"u8"}},"event-record-types":{"a":{"payload-field-type":{"class":"struct","members":[{"n":{"field-type":{"class":"sint","size":16}}}]}},"b":{"payload-field-type":{"class":"struct","members":[{"s":{"field-type":{"class":"str"}}}]}}}}},"$field-type-aliases":{"u8":{"class":"uint","size":8},"u32":{"class":"uint","size":32}}}}}"#;

/// A session over lists, of which a sink can fault.
pub type Listed = Session<ListClock, ListBackEnd, ScriptedSink>;

pub fn clock(alloc: Global, readings: &[u64]) -> Result<ListClock, Fail> {
    let readings = Vec::from_slice(alloc, readings)?;
    Ok(ListClock::new(readings).ok_or("readings that fall")?)
}

pub fn back_end(alloc: Global, buffers: usize, bytes: usize) -> Result<ListBackEnd, Fail>
    ensures { IfOk result (λ b. b.waiting ≡ []) }
{
    if buffers == 0 || buffers > 1024 || bytes == 0 || bytes > 1 << 20 {
        return Err("no such back end".into());
    }
    Ok(ListBackEnd::new(alloc, buffers, bytes)?)
}

/// A sink with room for 64 bytes, which faults at its first packet where it is to fault, and takes none of its bytes.
pub fn sink(alloc: Global, faults: bool) -> Result<ScriptedSink, Fail> {
    let turn = if faults { Turn::Fails } else { Turn::Works };
    let script = Script::new(Vec::from_slice(alloc, &[turn])?);
    let sink = MemorySink::with_capacity(alloc, 64)?;
    Ok(ScriptedSink::new(sink, script, 0))
}

/// Whether each event is of one of so many streams.
pub fn are_below(events: &[Event], streams: usize) -> bool
    ensures { result ≡ list_all (λ e. nat_lt e.stream streams) events.now }
{
    for event in events {
        if event.stream >= streams {
            return false;
        }
    }
    true
}
