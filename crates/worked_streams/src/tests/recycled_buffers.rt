//! Buffers that go round between a stream and a collector over a ring.

use crate::tests::expected::same;
use crate::tests::rings::{RingStream, makes_empty, ring_stream};
use packet_collector::{Collected, collect_into};
use packet_ring::RingEnd;
use std::process::Abort;
use std::test::Fail;
use thread_stream::PacketAnswer;
use trace_platform::{MemorySink, Script, ScriptedSink, Turn};

/// The buffer of the packet at which the sink faults goes back, and no packet is taken afterwards: two more are closed, of which one is held.
#[test]
fn gives_back_the_buffer_at_a_fault_of_the_sink(rt: HostRuntime) -> Result<(), Fail> {
    let script = Script::new(vec![in rt.alloc(); Turn::Fails]?);
    let mut sink = ScriptedSink::new(MemorySink::new(rt.alloc()), script, 0);
    let (mut stream, mut ring_end) = ring_stream(rt.alloc())?;
    gives_back(&rt, &mut stream, &mut ring_end, &mut sink);
    Ok(())
}

fn gives_back(
    rt: &impl Abort,
    stream: &mut RingStream,
    ring_end: &mut RingEnd,
    sink: &mut ScriptedSink,
) {
    let mut faulted = false;
    same(rt, makes_empty(stream), true, "a packet");
    let answer = collect_into(sink, &mut faulted, ring_end);
    same(rt, answer, Collected::Faulted, "collected");
    same(rt, makes_empty(stream), true, "a second packet");
    same(rt, makes_empty(stream), true, "a third packet");
    for _ in 0..2 {
        same(rt, stream.open_packet(), PacketAnswer::Full, "full");
        let answer = collect_into(sink, &mut faulted, ring_end);
        same(rt, answer, Collected::Faulted, "collected again");
    }
}
