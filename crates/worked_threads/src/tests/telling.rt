//! Two streams over rings at one clock, of which the second is told what the first traced: in one thread, and in two.

ghost use Rattle.std.specs.Prelude.{◌≡◌, IfSome};
ghost use Rattle.ctf_types.specs.AllowedConfig.{IsConfig};
ghost use Rattle.thread_stream.specs.Telling.{HasHistory};
ghost use Rattle.trace_clock.specs.Seats.{clock_of};

use crate::tests::clocked_streams::read_back;
use crate::tests::expected::same;
use crate::tests::thread_steps::two_seats;
use ctf_types::{Args, Config, Values};
use packet_collector::collect_into;
use packet_ring::{RingBackEnd, RingEnd, ring};
use rtrb::{Consumer, Producer, RingBuffer};
use std::alloc::Global;
use std::marker::Brand;
use std::process::Abort;
use std::test::Fail;
use std::thread;
use std::thread::Threads;
use std::time::{Clock, Duration};
use thread_stream::{Stream, Verdict, calls_are_walks, packets_in_turn, seats_stay_at_their_clock};
use trace_clock::{Clocked, Message, TickSeat};
use trace_platform::{BackEnd, MemorySink};
use trace_stack::{ReadTrace, position};
use worked_fixtures::{CLOCKED, Datum, config_of, payload};

type Seated = Stream<TickSeat, RingBackEnd>;

/// A stream over a ring, and the other end of that ring.
#[derive(Drop)]
struct OverRing {
    stream: Seated,
    ring_end: RingEnd,
}

fn begun(alloc: Global, seat: TickSeat) -> Option<OverRing>
    ensures history { IfSome result (λ a. HasHistory ⟦<RingBackEnd as BackEnd>⟧ a.stream) }
    ensures clock { IfSome result (λ a. clock_of a.stream.clock ≡ clock_of seat) }
{
    let config = config_of(alloc, CLOCKED)?;
    begun_by(alloc, &config, seat)
}

fn begun_by(alloc: Global, config: &Config, seat: TickSeat) -> Option<OverRing>
    requires { IsConfig config.now }
    ensures history { IfSome result (λ a. HasHistory ⟦<RingBackEnd as BackEnd>⟧ a.stream) }
    ensures clock { IfSome result (λ a. clock_of a.stream.clock ≡ clock_of seat) }
{
    let (back_end, ring_end) = ring(alloc, 1, 64).ok()?;
    match Stream::new(alloc, config, "s", seat, back_end, Values::new(alloc)) {
        Ok(stream) => Some(OverRing { stream, ring_end }),
        Err(_) => None,
    }
}

/// Traces: the stream stays at its clock.
fn traced<B: BackEnd>(stream: &mut Stream<TickSeat, B>, args: &Args) -> Verdict
    requires { HasHistory B.BackEnd stream.old }
    ensures { clock_of stream.new.clock ≡ clock_of stream.old.clock }
{
    packets_in_turn::<TickSeat, B>();
    calls_are_walks::<TickSeat, B>();
    seats_stay_at_their_clock::<B>();
    stream.trace(0, args)
}

/// The bytes of the stream's only packet.
fn collected(alloc: Global, over: OverRing) -> Vec<u8> {
    let OverRing { stream, ring_end } = over;
    let (end, _seat) = stream.finish();
    let mut sink = MemorySink::new(alloc);
    let mut faulted = false;
    let mut source = ring_end;
    collect_into(&mut sink, &mut faulted, &mut source);
    drop(end);
    sink.into_bytes()
}

/// The first traces 5 and tells, the second traces 6 after that, and then the first traces 7: what each was answered.
fn in_turn(alloc: Global, first: &mut Seated, second: &mut Seated) -> Option<[Verdict; 3]>
    requires history { HasHistory ⟦<RingBackEnd as BackEnd>⟧ first.old }
    requires clock { clock_of first.old.clock ≡ clock_of second.old.clock }
{
    let before = traced(first, &payload(alloc, &[Datum::Signed(5)]).ok()?);
    let six = payload(alloc, &[Datum::Signed(6)]).ok()?;
    let told = first.tell(alloc).ok()?;
    let after = second.trace_after(told, 0, &six);
    let last = first.trace(0, &payload(alloc, &[Datum::Signed(7)]).ok()?);
    Some([before, after, last])
}

/// What both are answered, and the bytes of both.
fn in_one_thread(alloc: Global) -> Option<([Verdict; 3], Vec<u8>, Vec<u8>)> {
    let (first, second) = two_seats(alloc).ok()?;
    let mut first = begun(alloc, first)?;
    let mut second = begun(alloc, second)?;
    let answers = in_turn(alloc, &mut first.stream, &mut second.stream);
    let first = collected(alloc, first);
    let second = collected(alloc, second);
    Some((answers?, first, second))
}

const ANSWERS: [Verdict; 3] = [
    Verdict::Accepted(Some(0)),
    Verdict::Accepted(Some(1)),
    Verdict::Accepted(Some(2)),
];

/// A stream, a reading, and the index of its record in the order.
static PLACES: &[(usize, u64, Option<usize>)] = &[
    (0, 0, Some(0)),
    (1, 1, Some(1)),
    (0, 2, Some(2)),
    (1, 2, None),
];

#[test]
fn stands_between_what_was_told_and_what_came_after(rt: HostRuntime) -> Result<(), Fail> {
    let (answers, first, second) = in_one_thread(rt.alloc()).ok_or("a stream failed")?;
    same(&rt, answers, ANSWERS, "the answers");
    let files = [("t0", first.as_slice()), ("t1", second.as_slice())];
    let trace = read_back(rt.alloc(), &files)?;
    has_places(&rt, &trace);
    Ok(())
}

fn has_places(rt: &impl Abort, trace: &ReadTrace) {
    same(rt, trace.order.len(), 3, "how many records");
    for (stream, value, want) in PLACES {
        let place = position(trace, *stream, *value);
        same(rt, place, *want, "the place of a record");
    }
}

/// Traces, tells through the channel, and traces again.
fn tells<J: Clocked>(
    alloc: Global,
    seat: TickSeat,
    channel: Producer<Message<J>>,
) -> Option<Vec<u8>>
    requires { clock_of seat ≡ J.clock }
{
    let mut over = begun(alloc, seat)?;
    let told = tells_between(alloc, &mut over.stream, channel);
    let bytes = collected(alloc, over);
    told?;
    Some(bytes)
}

fn tells_between<J: Clocked>(
    alloc: Global,
    stream: &mut Seated,
    channel: Producer<Message<J>>,
) -> Option<()>
    requires history { HasHistory ⟦<RingBackEnd as BackEnd>⟧ stream.old }
    requires clock { clock_of stream.old.clock ≡ J.clock }
{
    let mut channel = channel;
    traced(stream, &payload(alloc, &[Datum::Signed(5)]).ok()?);
    channel.push(Message::new(stream.tell(alloc).ok()?)).ok()?;
    stream.trace(0, &payload(alloc, &[Datum::Signed(7)]).ok()?);
    Some(())
}

/// The next message, within 2,000 turns of one millisecond's sleep.
fn received<J: Clocked, C: Clock>(clock: &C, channel: Consumer<Message<J>>) -> Option<Message<J>> {
    let mut channel = channel;
    for _turn in 0..2000 {
        if let Ok(message) = channel.pop() {
            return Some(message);
        }
        thread::sleep(clock, Duration::from_millis(1));
    }
    None
}

/// Traces after what comes through the channel.
fn listens<J: Clocked, C: Clock>(
    clock: &C,
    alloc: Global,
    seat: TickSeat,
    channel: Consumer<Message<J>>,
) -> Option<(Verdict, Vec<u8>)>
    requires { clock_of seat ≡ J.clock }
{
    let mut over = begun(alloc, seat)?;
    let answer = traced_after(clock, alloc, &mut over.stream, channel);
    let bytes = collected(alloc, over);
    Some((answer?, bytes))
}

fn traced_after<J: Clocked, C: Clock>(
    clock: &C,
    alloc: Global,
    stream: &mut Seated,
    channel: Consumer<Message<J>>,
) -> Option<Verdict>
    requires { clock_of stream.old.clock ≡ J.clock }
{
    let six = payload(alloc, &[Datum::Signed(6)]).ok()?;
    let message = received(clock, channel)?;
    Some(stream.trace_after(message.into_told(), 0, &six))
}

/// Both streams, each in a thread of its own: the second one's answer, and the bytes of both.
fn in_two_threads<J: Clocked + Send, R: Threads + Clock>(
    rt: &R,
    alloc: Global,
    first: TickSeat,
    second: TickSeat,
) -> Option<(Verdict, Vec<u8>, Vec<u8>)>
    requires first { clock_of first ≡ J.clock }
    requires second { clock_of second ≡ J.clock }
{
    let (producer, consumer) = RingBuffer::new(alloc, 1).ok()?;
    let (told, heard) = thread::join(
        rt,
        move || -> Option<Vec<u8>>
            requires { clock_of first ≡ J.clock }
        { tells::<J>(alloc, first, producer) },
        move || -> Option<(Verdict, Vec<u8>)>
            requires { clock_of second ≡ J.clock }
        { listens::<J, R>(rt, alloc, second, consumer) },
    );
    let first_bytes = told?;
    let (answer, second_bytes) = heard?;
    Some((answer, first_bytes, second_bytes))
}

/// One run, in which the second stream's record stands behind what it was told.
fn run_once<R: Threads + Clock + Abort>(rt: &R, alloc: Global) -> Result<(), Fail> {
    let (first, second) = two_seats(alloc)?;
    let run = in_two_threads::<Brand, R>(rt, alloc, first, second);
    let (answer, first, second) = run.ok_or("a stream failed")?;
    let Verdict::Accepted(Some(reading)) = answer else {
        return Err("the second stream's call was not accepted".into());
    };
    let files = [("t0", first.as_slice()), ("t1", second.as_slice())];
    let trace = read_back(alloc, &files)?;
    is_behind(rt, &trace, reading)
}

#[test]
fn stands_behind_what_another_thread_told(rt: HostRuntime) -> Result<(), Fail> {
    for _run in 0..100 {
        run_once(&rt, rt.alloc())?;
    }
    Ok(())
}

/// The record with this reading stands behind what was told.
fn is_behind(rt: &impl Abort, trace: &ReadTrace, reading: u64) -> Result<(), Fail> {
    let told = position(trace, 0, 0).ok_or("nothing was told")?;
    let after = position(trace, 1, reading).ok_or("nothing was traced after that")?;
    assert!(rt; told < after);
    assert_eq!(rt; trace.order.len(), 3);
    Ok(())
}
