//! What a collector gathers where a writer stops, and what is read of that; and by the end of a stream, where that end is given and where it is declined.

use crate::tests::expected::same;
use crate::tests::rings::packet;
use number_packets::read_bytes;
use packet_collector::{Collected, FinishAnswer, collect_into, finish_into};
use std::alloc::Global;
use std::process::Abort;
use std::test::Fail;
use thread_stream::StreamEnd;
use trace_platform::{
    BackEnd, ListBackEnd, MemorySink, ScriptedSource, StoppingWriter, WriterSink,
};
use worked_fixtures::granted;

/// A source in which two packets of the numbers 1 and 2 wait, or the first alone.
fn source(alloc: Global, both: bool) -> Result<ScriptedSource, Fail> {
    let first = packet(alloc, 0, &[1, 2])?;
    let second = packet(alloc, 1, &[1, 2])?;
    let mut back_end = ListBackEnd::new(alloc, 2, 16)?;
    let is_full = back_end.hand_over(first).is_err();
    if is_full || both && back_end.hand_over(second).is_err() {
        return Err("a list that is full".into());
    }
    Ok(ScriptedSource::new(back_end))
}

/// Whether the end is given, what is answered then, and which packets the sink has.
static ENDS: &[(bool, FinishAnswer, &str)] = &[
    (
        true,
        FinishAnswer::Settled,
        "c11ffcc1800000007000000001020000c11ffcc1800000006800000003000000",
    ),
    (
        false,
        FinishAnswer::Unsettled,
        "c11ffcc1800000007000000001020000",
    ),
];

/// A packet waits in the source, and another, of the number 3, was left behind.
#[test]
fn lets_the_last_packet_go_where_the_end_is_declined(rt: HostRuntime) -> Result<(), Fail> {
    for (given, want, digits) in ENDS {
        let (answer, faulted, found) = ended(rt.alloc(), *given)?;
        same(&rt, (answer, faulted), (*want, false), *given);
        same(&rt, found.as_str(), *digits, *given);
    }
    Ok(())
}

/// What is answered at the end of a stream that left a packet behind, whether the sink faulted, and which packets it has.
fn ended(alloc: Global, given: bool) -> Result<(FinishAnswer, bool, String), Fail> {
    let left = packet(alloc, 1, &[3])?;
    let mut source = source(alloc, false)?;
    let mut sink = MemorySink::new(alloc);
    let mut faulted = false;
    let end = StreamEnd {
        left: Some(left),
        done: given,
    };
    let answer = finish_into(&mut sink, &mut faulted, &mut source, end);
    Ok((answer, faulted, hex::encode(alloc, sink.bytes())?))
}

/// How many bytes a writer takes, which of the two packets' these are, how many packets a reader finds in them, and how they end.
static STOPPED: &[(usize, &str)] = &[
    (
        20,
        "c11ffcc1800000007000000001020000c11ffcc1: packets 1, end Torn(16)",
    ),
    (16, "c11ffcc1800000007000000001020000: packets 1, end Whole"),
];

#[test]
fn has_a_front_of_the_packets_where_a_writer_stops(rt: HostRuntime) -> Result<(), Fail> {
    for (room, digits) in STOPPED {
        let found = front(&rt, rt.alloc(), *room)?;
        same(&rt, found.as_str(), *digits, *room);
    }
    Ok(())
}

/// What a writer has of both packets that takes 5 bytes at a time, and no more than there is room for, and what is read of that. Its sink takes the first packet
/// and faults at the second.
fn front(rt: &impl Abort, alloc: Global, room: usize) -> Result<String, Fail> {
    let mut source = source(alloc, true)?;
    let mut sink = WriterSink::new(StoppingWriter::new(alloc, room, 5));
    let mut faulted = false;
    for want in [Collected::Took(0), Collected::Faulted, Collected::Faulted] {
        let answer = collect_into(&mut sink, &mut faulted, &mut source);
        same(rt, answer, want, "collected");
    }
    read_back(alloc, sink.into_writer().bytes.as_slice())
}

fn read_back(alloc: Global, bytes: &[u8]) -> Result<String, Fail> {
    let digits = hex::encode(alloc, bytes)?;
    let read = read_bytes(alloc, bytes)?;
    let packets = read.packets.len();
    granted(format!(in alloc; "{digits}: packets {packets}, end {:?}", read.end))
}
