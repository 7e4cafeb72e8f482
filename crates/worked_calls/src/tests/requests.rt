//! Tracing and collecting take no memory: two tests make the same streams, arguments, extra members and sinks, and one of them then calls each row of
//! each call's table. The script beside the gate counts the requests for memory of both: they make equally many.

ghost use Rattle.std.specs.Prelude.{IfOk, ◌≡◌, ◌<◌, length};

use crate::tests::expected::{holds, same};
use crate::tests::fixtures::{Datum, values};
use crate::tests::traced::{Traced, Turns, WORKS, parts_of, traced};
use ctf_types::{ArgFault, Args, Values};
use packet_collector::{Collected, Collector, FinishAnswer, collect_into};
use std::alloc::Global;
use std::process::Abort;
use std::test::Fail;
use thread_stream::{PacketAnswer, StreamEnd, StreamFault, Verdict, Why};
use trace_platform::{ScriptedBackEnd, StoppingWriter, Turn, WriterSink};

type Sink = WriterSink<StoppingWriter>;

/// A call, and what it answers.
#[derive(Clone, Copy)]
enum Call {
    /// The numbers of the event record type and of the payload among `PAYLOADS`.
    Trace(usize, usize, Verdict),
    Open(PacketAnswer),
    Close(PacketAnswer),
    Enable(bool),
    /// The next of the extra members, and their fault.
    Extras(Option<StreamFault>),
    /// Whether a packet is open, whether it has no event record, and whether no packet is in hand.
    Tells(bool, bool, bool),
    Collect(Collected),
}

const FITS: usize = 0;

const LARGE: usize = 1;

const OUT_OF_RANGE: usize = 2;

const WITH_A_ZERO_BYTE: usize = 3;

/// The payloads of calls: two records of the first fit a packet, and none of the second.
static PAYLOADS: &[&[Datum]] = &[
    &[Datum::Text(b"abc")],
    &[Datum::Text(b"0123456789012345678901234567890")],
    &[Datum::Signed(40000)],
    &[Datum::Text(b"a\0b")],
];

/// Extra members, the next ones last: a text that has room, one that has none, and a number out of range.
static EXTRAS: &[&[Datum]] = &[
    &[Datum::Unsigned(2), Datum::Text(b"yz")],
    &[
        Datum::Unsigned(2),
        Datum::Text(b"0123456789012345678901234567890123456789"),
    ],
    &[Datum::Unsigned(256), Datum::Text(b"x")],
];

const TURNS: Turns = Turns {
    reading: &[
        Turn::Fails,
        Turn::Fails,
        Turn::Works,
        Turn::Works,
        Turn::Works,
        Turn::Works,
        Turn::Works,
        Turn::Works,
        Turn::Works,
        Turn::Works,
        Turn::Works,
        Turn::Works,
        Turn::Fails,
    ],
    looking: &[
        Turn::Fails,
        Turn::Fails,
        Turn::Works,
        Turn::Works,
        Turn::Fails,
    ],
    handing: &[
        Turn::Fails,
        Turn::Fails,
        Turn::Works,
        Turn::Fails,
        Turn::Works,
    ],
};

/// The last packet comes back, and the clock refuses the reading at the end.
const LEAVES: Turns = Turns {
    reading: &[Turn::Works, Turn::Fails],
    looking: &[],
    handing: &[Turn::Fails],
};

/// Each row of each table: misuse, disabled, out of turn, no reading, too large, full, opened, full within a packet, handed back, and so on.
static CALLS: &[Call] = &[
    Call::Tells(false, false, true),
    Call::Trace(7, FITS, Verdict::Misuse(ArgFault::NoSuchEvent)),
    Call::Trace(0, OUT_OF_RANGE, Verdict::Misuse(ArgFault::Range)),
    Call::Trace(1, WITH_A_ZERO_BYTE, Verdict::Misuse(ArgFault::ZeroByte)),
    Call::Enable(false),
    Call::Trace(1, FITS, Verdict::Disabled),
    Call::Open(PacketAnswer::Disabled),
    Call::Close(PacketAnswer::Disabled),
    Call::Enable(true),
    Call::Close(PacketAnswer::NotOpen),
    Call::Trace(1, FITS, Verdict::Discarded(Why::ClockSpent)),
    Call::Open(PacketAnswer::ClockSpent),
    Call::Trace(1, LARGE, Verdict::Discarded(Why::TooLarge)),
    Call::Trace(1, FITS, Verdict::Discarded(Why::BackEndFull)),
    Call::Open(PacketAnswer::Full),
    Call::Open(PacketAnswer::Done),
    Call::Open(PacketAnswer::AlreadyOpen),
    Call::Tells(true, true, false),
    Call::Trace(1, FITS, Verdict::Accepted(Some(5))),
    Call::Trace(1, FITS, Verdict::Accepted(Some(6))),
    Call::Trace(1, LARGE, Verdict::Discarded(Why::TooLarge)),
    Call::Trace(1, FITS, Verdict::Discarded(Why::BackEndFull)),
    Call::Tells(false, false, false),
    Call::Open(PacketAnswer::Full),
    Call::Trace(1, FITS, Verdict::Accepted(Some(10))),
    Call::Close(PacketAnswer::ClockSpent),
    Call::Close(PacketAnswer::Done),
    Call::Trace(1, FITS, Verdict::Discarded(Why::BackEndFull)),
    Call::Open(PacketAnswer::Done),
    Call::Close(PacketAnswer::Done),
    Call::Trace(1, FITS, Verdict::Discarded(Why::BackEndFull)),
    Call::Extras(Some(StreamFault::BadExtras(ArgFault::Range))),
    Call::Extras(Some(StreamFault::BufferTooSmall)),
    Call::Extras(None),
    Call::Collect(Collected::Took(0)),
    Call::Collect(Collected::Took(1)),
    Call::Collect(Collected::Took(2)),
    Call::Collect(Collected::Nothing),
    Call::Trace(1, FITS, Verdict::Accepted(Some(16))),
    Call::Close(PacketAnswer::Done),
    Call::Collect(Collected::Faulted),
    Call::Collect(Collected::Faulted),
];

/// What the calls of the table need beside their stream.
#[derive(Drop)]
struct Needs {
    payloads: Vec<Args>,
    extras: Vec<Values>,
    /// It stops within the fourth packet.
    sink: Sink,
    faulted: bool,
}

/// How the platforms of four streams answer: the first is called for each row, one ends with its packet left, one ends whole, and one is taken apart.
static ALL_TURNS: &[Turns] = &[TURNS, LEAVES, WORKS, WORKS];

/// What all calls need: all of it is made before them.
#[derive(Drop)]
struct Made {
    needs: Needs,
    streams: Vec<Traced>,
    collector: Collector<Sink>,
}

/// A sink over a writer that has memory for all bytes that it has room for.
fn sink(alloc: Global, room: usize) -> Result<Sink, Fail> {
    let bytes = Vec::with_capacity(alloc, room)?;
    Ok(WriterSink::new(StoppingWriter {
        bytes,
        room,
        piece: 48,
    }))
}

fn payloads(alloc: Global) -> Result<Vec<Args>, Fail> {
    let mut payloads = Vec::new(alloc);
    for payload in PAYLOADS {
        payloads.push(Args {
            common: Values::new(alloc),
            specific: Values::new(alloc),
            payload: values(alloc, payload)?,
        })?;
    }
    Ok(payloads)
}

fn extras(alloc: Global) -> Result<Vec<Values>, Fail> {
    let mut extras = Vec::new(alloc);
    for members in EXTRAS {
        extras.push(values(alloc, members)?)?;
    }
    Ok(extras)
}

fn all_needed(alloc: Global) -> Result<Needs, Fail> {
    let sink = sink(alloc, 224)?;
    let payloads = payloads(alloc)?;
    let extras = extras(alloc)?;
    Ok(Needs {
        payloads,
        extras,
        sink,
        faulted: false,
    })
}

fn streams(alloc: Global) -> Result<Vec<Traced>, Fail> {
    let mut streams = Vec::new(alloc);
    for turns in ALL_TURNS {
        streams.push(traced(alloc, turns)?)?;
    }
    Ok(streams)
}

fn collector(alloc: Global) -> Result<Collector<Sink>, Fail>
    ensures { IfOk result (λ c. 0 < length c) }
{
    let sink = sink(alloc, 64)?;
    let mut collector = Collector::new(alloc);
    if collector.add(sink).is_err() {
        return Err(Fail::new("out of memory"));
    }
    Ok(collector)
}

fn all_made(alloc: Global) -> Result<Made, Fail>
    ensures { IfOk result (λ m. 0 < length m.collector) }
{
    let collector = collector(alloc)?;
    let needs = all_needed(alloc)?;
    let streams = streams(alloc)?;
    Ok(Made {
        needs,
        streams,
        collector,
    })
}

/// The stream's answer alone, of which no more is said.
fn open(stream: &mut Traced) -> PacketAnswer {
    stream.open_packet()
}

fn close(stream: &mut Traced) -> PacketAnswer {
    stream.close_packet()
}

fn traces(stream: &mut Traced, payloads: &[Args], event: usize, payload: usize) -> Option<Verdict> {
    let args = payloads.get(payload)?;
    Some(stream.trace(event, args))
}

fn enables(stream: &mut Traced, enabled: bool) -> bool {
    stream.set_enabled(enabled);
    stream.is_enabled() == enabled
}

/// The fault that the last of these members are refused with, where there is one.
fn extras_fault(stream: &mut Traced, extras: &mut Vec<Values>) -> Option<Option<StreamFault>> {
    let last = extras.pop()?;
    Some(stream.set_extras(last).err().map(|refused| refused.fault))
}

fn tells_of_its_packet(stream: &Traced, open: bool, empty: bool, idle: bool) -> bool {
    stream.packet_is_open() == open
        && stream.packet_is_empty() == empty
        && stream.is_idle() == idle
        && !stream.packet_is_full()
}

fn tells_of_itself(stream: &Traced) -> bool {
    stream.packet_bits() == 512 && stream.sequence_number() <= 1 && stream.discarded_count() <= 5
}

fn collected(needs: &mut Needs, stream: &mut Traced) -> Collected {
    collect_into(&mut needs.sink, &mut needs.faulted, stream)
}

/// Whether a call answers what it says. A stream tells of its packet in hand, which is not full, and of itself.
fn answers(needs: &mut Needs, stream: &mut Traced, call: &Call) -> bool {
    match call {
        Call::Trace(event, payload, want) => {
            traces(stream, needs.payloads.as_slice(), *event, *payload) == Some(*want)
        }
        Call::Open(want) => open(stream) == *want,
        Call::Close(want) => close(stream) == *want,
        Call::Enable(enabled) => enables(stream, *enabled),
        Call::Extras(want) => extras_fault(stream, &mut needs.extras) == Some(*want),
        Call::Tells(open, empty, idle) => {
            tells_of_its_packet(stream, *open, *empty, *idle) && tells_of_itself(stream)
        }
        Call::Collect(want) => collected(needs, stream) == *want,
    }
}

fn calls_each_row(rt: &impl Abort, needs: &mut Needs, stream: &mut Traced) {
    for (number, call) in CALLS.iter().enumerate() {
        answers_row(rt, answers(needs, stream, call), number);
    }
}

fn answers_row(rt: &impl Abort, answers: bool, number: usize) {
    assert!(rt; answers, "call {number}");
}

/// The first stream is called for each row. Whether there is one.
fn first_calls_each_row(rt: &impl Abort, needs: &mut Needs, streams: &mut [Traced]) -> bool {
    if streams.is_empty() {
        return false;
    }
    calls_each_row(rt, needs, &mut streams[0]);
    true
}

/// The end of a stream, whose clock is let go.
fn end_of(stream: Traced) -> StreamEnd<ScriptedBackEnd> {
    let (end, clock) = stream.finish();
    drop(clock);
    end
}

/// A stream opens a packet and ends: whether it is left behind.
fn leaves_its_packet(stream: Traced) -> bool {
    let mut stream = stream;
    let opened = open(&mut stream);
    let is_left = end_of(stream).left.is_some();
    opened == PacketAnswer::Done && is_left
}

fn collect(collector: &mut Collector<Sink>, stream: &mut Traced) -> Collected
    requires { 0 < length collector.old }
    ensures { length collector.new ≡ length collector.old }
{
    collector.collect(0, stream)
}

fn finish(collector: Collector<Sink>, end: StreamEnd<ScriptedBackEnd>) -> FinishAnswer
    requires { 0 < length collector }
{
    let mut collector = collector;
    collector.finish_own(0, end)
}

/// What opening, closing and opening again answer, and what the collector takes in between, twice.
fn collects(
    collector: &mut Collector<Sink>,
    stream: &mut Traced,
) -> ([PacketAnswer; 3], [Collected; 2])
    requires { 0 < length collector.old }
    ensures { length collector.new ≡ length collector.old }
{
    let opened = open(stream);
    let closed = close(stream);
    let first = collect(collector, stream);
    let second = collect(collector, stream);
    ([opened, closed, open(stream)], [first, second])
}

/// Whether the end has no packet left, and how the collector finishes with it.
fn finishes(collector: Collector<Sink>, stream: Traced) -> (bool, FinishAnswer)
    requires { 0 < length collector }
{
    let end = end_of(stream);
    let leaves_none = end.left.is_none();
    (leaves_none, finish(collector, end))
}

/// A stream closes a packet, which a collector takes, and ends with the next one open, which the collector has no room for.
fn ends(rt: &impl Abort, stream: Traced, collector: Collector<Sink>)
    requires { 0 < length collector }
{
    let mut stream = stream;
    let mut collector = collector;
    let (answers, collected) = collects(&mut collector, &mut stream);
    same(rt, answers, [PacketAnswer::Done; 3], "packets");
    let want = [Collected::Took(0), Collected::Nothing];
    same(rt, collected, want, "what is collected");
    let finished = finishes(collector, stream);
    same(rt, finished, (true, FinishAnswer::Faulted), "the end");
}

/// Whether the last stream ends so. The collector is used up.
fn last_ends(rt: &impl Abort, streams: &mut Vec<Traced>, collector: Collector<Sink>) -> bool
    requires { 0 < length collector }
{
    match streams.pop() {
        Some(stream) => {
            ends(rt, stream, collector);
            true
        }
        None => false,
    }
}

fn last_gives_its_parts_back(streams: &mut Vec<Traced>) -> bool {
    match streams.pop() {
        Some(stream) => parts_of(stream).is_some(),
        None => false,
    }
}

fn last_leaves_its_packet(streams: &mut Vec<Traced>) -> bool {
    match streams.pop() {
        Some(stream) => leaves_its_packet(stream),
        None => false,
    }
}

#[test]
fn makes_streams(rt: HostRuntime) -> Result<(), Fail> {
    drop(all_made(rt.alloc())?);
    Ok(())
}

#[test]
fn makes_streams_and_calls_each_row(rt: HostRuntime) -> Result<(), Fail> {
    let Made {
        needs,
        streams,
        collector,
    } = all_made(rt.alloc())?;
    let mut needs = needs;
    let mut streams = streams;
    let called = first_calls_each_row(&rt, &mut needs, &mut streams);
    holds(&rt, called, "a stream for each row");
    let given_back = last_gives_its_parts_back(&mut streams);
    holds(&rt, given_back, "an idle stream");
    let ended = last_ends(&rt, &mut streams, collector);
    holds(&rt, ended, "a stream that ends whole");
    let left = last_leaves_its_packet(&mut streams);
    holds(&rt, left, "a packet is left");
    Ok(())
}
