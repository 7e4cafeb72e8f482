//! Workers in threads of their own, over rings and one clock, while the calling thread collects.

ghost use Rattle.std.specs.Prelude.{◌≡◌, None, IfOk};
ghost use Rattle.std.specs.List.{All};
ghost use Rattle.ctf_types.specs.AllowedConfig.{IsConfig};
ghost use Rattle.trace_clock.specs.Seats.{clock_of};
ghost use Rattle.trace_stack.specs.Workers.{IsWorker, OfOneClock};

use crate::tests::clocked_streams::{clocked, read_back};
use crate::tests::expected::same;
use crate::tests::thread_gates::{Collecting, Flag, FlaggingSink, Meeting, Shutting};
use crate::tests::thread_steps::{Task, two_seats, worker};
use ctf_types::{Config, Metadata};
use packet_collector::FinishAnswer;
use packet_reader::ReadStream;
use std::alloc::{AllocError, Global};
use std::process::Abort;
use std::sync::Wait;
use std::test::Fail;
use std::thread::Threads;
use std::time::Clock;
use thread_stream::{PacketAnswer, StreamFault, Verdict, Why};
use trace_clock::{TickClock, TickSeat};
use trace_platform::MemorySink;
use trace_stack::{
    Answer, Gate, NotRun, OpenGate, ReadTrace, ThreadsFault, ThreadsRun, Worker, run_threads,
};
use worked_fixtures::{bytes_of, shown_streams, small};

/// Two event records in one packet of 64 bytes, and one more for which the clock has no reading left.
pub const TWO_RECORDS: Task = Task {
    type_name: "s",
    bytes: 64,
    calls: r#"
trace 0 -2
trace 1 ok
close
trace 0 +1
"#,
};

const BOTH_SETTLED: &[FinishAnswer] = &[FinishAnswer::Settled, FinishAnswer::Settled];

/// All readings of the clock of two workers.
const READINGS: &[u64] = &[0, 1, 2, 3, 4, 5];

/// What is left of two workers, or both as they were where they are refused.
pub type Ran = Result<ThreadsRun<MemorySink>, NotRun<MemorySink>>;

/// Two workers whose seats at one clock have three readings each. The first is told of two event records.
pub fn two_workers(alloc: Global, second: &Task) -> Result<Vec<Worker<MemorySink>>, Fail>
    ensures workers { IfOk result (λ ws. All IsWorker ws.items) }
    ensures clock { IfOk result (λ ws. OfOneClock ws.items) }
    ensures anew { IfOk result (λ ws. All (λ w. w.start ≡ None) ws.items) }
{
    let (first_seat, second_seat) = two_seats(alloc)?;
    let first = worker(alloc, first_seat, &TWO_RECORDS, MemorySink::new(alloc))?;
    let second = worker(alloc, second_seat, second, MemorySink::new(alloc))?;
    in_one_list(alloc, first, second)
}

/// Two workers at one clock.
#[tactic(auto, using(trace_stack::proofs::OneClock::two_at_one_clock))]
fn in_one_list(
    alloc: Global,
    first: Worker<MemorySink>,
    second: Worker<MemorySink>,
) -> Result<Vec<Worker<MemorySink>>, Fail>
    requires workers { IsWorker first × IsWorker second }
    requires clock { clock_of second.seat ≡ clock_of first.seat }
    requires anew { (first.start ≡ None) × (second.start ≡ None) }
    ensures workers { IfOk result (λ ws. All IsWorker ws.items) }
    ensures clock { IfOk result (λ ws. OfOneClock ws.items) }
    ensures anew { IfOk result (λ ws. All (λ w. w.start ≡ None) ws.items) }
{
    Ok(vec![in alloc; first, second]?)
}

/// What is left of two workers of streams of `CLOCKED`.
pub fn run_two<R: Threads + Wait, G: Gate + Sync>(
    rt: &R,
    alloc: Global,
    second: &Task,
    gate: &G,
) -> Result<Ran, Fail> {
    let config = clocked(alloc)?;
    run_two_by(rt, alloc, &config, second, gate)
}

#[tactic(auto, using(trace_stack::proofs::Anew::all_begin_anew))]
fn run_two_by<R: Threads + Wait, G: Gate + Sync>(
    rt: &R,
    alloc: Global,
    config: &Config,
    second: &Task,
    gate: &G,
) -> Result<Ran, Fail>
    requires { IsConfig config.now }
{
    let workers = two_workers(alloc, second)?;
    Ok(run_threads(rt, alloc, config, workers, gate))
}

/// What is left of two workers of two event records each.
fn both_run<R: Threads + Wait, G: Gate + Sync>(
    rt: &R,
    alloc: Global,
    gate: &G,
) -> Result<ThreadsRun<MemorySink>, Fail> {
    match run_two(rt, alloc, &TWO_RECORDS, gate)? {
        Ok(run) => Ok(run),
        Err(_) => Err("the workers were refused".into()),
    }
}

/// The run ended so.
fn ends_so<W>(
    rt: &impl Abort,
    run: &ThreadsRun<W>,
    fault: Option<ThreadsFault>,
    ends: &[FinishAnswer],
) {
    same(rt, run.fault, fault, "the fault");
    same(rt, run.ends.as_slice(), ends, "the ends");
}

/// What is read of the stream of a worker of two event records, with these readings: of the records, and of the packet's end.
fn written(alloc: Global, [first, second, last]: [u64; 3]) -> Result<String, AllocError> {
    format!(in alloc;
        "t: clock clk, gaps Some(0), end Whole
  packet of 0: begin Some({first}), end Some({last}), number Some(0), discarded Some(0), extras []
    event 0: clock Some({first}), [] [] [Signed(-2)]
    event 1: clock Some({second}), [] [] [Text(Bytes {{ bytes: [111, 107] }})]
"
    )
}

/// The readings of this stream, of which just that is read which its worker was told.
fn as_told(
    rt: &impl Abort,
    alloc: Global,
    metadata: &Metadata,
    streams: &[ReadStream],
    answers: &[Answer],
) -> Result<[u64; 3], Fail> {
    let [
        Answer::Traced(Verdict::Accepted(Some(first))),
        Answer::Traced(Verdict::Accepted(Some(second))),
        Answer::Packet(PacketAnswer::Done),
        Answer::Traced(Verdict::Discarded(Why::ClockSpent)),
    ] = answers
    else {
        return Err("other answers".into());
    };
    let stream = streams.first().ok_or("no stream")?;
    let packet = stream.packets.get(0).ok_or("no packet")?;
    let readings = [
        *first,
        *second,
        packet.end.ok_or("a packet without an end")?,
    ];
    let found = shown_streams(alloc, metadata, streams)?;
    let want = written(alloc, readings)?;
    same(rt, found.as_str(), want.as_str(), "the stream");
    Ok(readings)
}

/// Two workers, each of which was told just what is read of its stream, have all readings.
fn have_all_readings(
    rt: &impl Abort,
    alloc: Global,
    trace: &ReadTrace,
    answers: &[Vec<Answer>],
) -> Result<(), Fail> {
    let [one, other] = answers else {
        return Err("not two workers".into());
    };
    let metadata = &trace.metadata;
    let streams = trace.streams.as_slice().get(..1).ok_or("no stream")?;
    let others = trace.streams.as_slice().get(1..).ok_or("no second stream")?;
    let first = as_told(rt, alloc, metadata, streams, one.as_slice())?;
    let second = as_told(rt, alloc, metadata, others, other.as_slice())?;
    let mut all = Vec::from_slice(alloc, &first)?;
    all.extend_from_slice(&second)?;
    all.sort()?;
    same(rt, all.as_slice(), READINGS, "the readings");
    Ok(())
}

#[test]
fn runs_two_workers_at_once_over_one_clock(rt: HostRuntime) -> Result<(), Fail> {
    let meeting = Meeting {
        clock: &rt,
        first: Flag::new(),
        second: Flag::new(),
    };
    let run = both_run(&rt, rt.alloc(), &meeting)?;
    ends_so(&rt, &run, None, BOTH_SETTLED);
    let [first, second] = run.sinks.as_slice() else {
        return Err("not two sinks".into());
    };
    let files = [("t", first.bytes()), ("t", second.bytes())];
    let trace = read_back(rt.alloc(), &files)?;
    have_all_readings(&rt, rt.alloc(), &trace, run.answers.as_slice())
}

/// Two packets without event records.
const TWO_PACKETS: Task = Task {
    type_name: "s",
    bytes: 16,
    calls: r#"
open
close
open
close
"#,
};

fn flagging<'f>(alloc: Global, flag: &'f Flag) -> Result<Vec<Worker<FlaggingSink<'f>>>, Fail>
    ensures workers { IfOk result (λ ws. All IsWorker ws.items) }
    ensures clock { IfOk result (λ ws. OfOneClock ws.items) }
    ensures anew { IfOk result (λ ws. All (λ w. w.start ≡ None) ws.items) }
{
    let seat = TickClock::new(alloc, 0, 0)?.seat(alloc, 0)?;
    let sink = FlaggingSink {
        sink: MemorySink::new(alloc),
        flag,
    };
    let worker = worker(alloc, seat, &TWO_PACKETS, sink)?;
    alone(alloc, worker)
}

/// One worker.
fn alone<'f>(
    alloc: Global,
    worker: Worker<FlaggingSink<'f>>,
) -> Result<Vec<Worker<FlaggingSink<'f>>>, Fail>
    requires worker { IsWorker worker }
    requires anew { worker.start ≡ None }
    ensures workers { IfOk result (λ ws. All IsWorker ws.items) }
    ensures clock { IfOk result (λ ws. OfOneClock ws.items) }
    ensures anew { IfOk result (λ ws. All (λ w. w.start ≡ None) ws.items) }
{
    Ok(vec![in alloc; worker]?)
}

/// What is left of a worker that raises the flag, and waits for it.
fn run_flagging<'f, R: Threads + Wait + Clock + Sync>(
    rt: &R,
    alloc: Global,
    flag: &'f Flag,
) -> Result<ThreadsRun<FlaggingSink<'f>>, Fail> {
    let config = small(alloc, &[])?;
    run_flagging_by(rt, alloc, &config, flag)
}

/// The worker is not refused.
#[tactic(auto, using(trace_stack::proofs::Anew::all_begin_anew))]
fn run_flagging_by<'f, R: Threads + Wait + Clock + Sync>(
    rt: &R,
    alloc: Global,
    config: &Config,
    flag: &'f Flag,
) -> Result<ThreadsRun<FlaggingSink<'f>>, Fail>
    requires { IsConfig config.now }
{
    let workers = flagging(alloc, flag)?;
    match run_threads(rt, alloc, config, workers, &Collecting { clock: rt, flag }) {
        Ok(run) => Ok(run),
        Err(_) => Err("the worker was refused".into()),
    }
}

#[test]
fn collects_while_a_worker_runs(rt: HostRuntime) -> Result<(), Fail> {
    let flag = Flag::new();
    let run = run_flagging(&rt, rt.alloc(), &flag)?;
    has_two_packets(&rt, rt.alloc(), &run)
}

/// The worker left two packets.
fn has_two_packets(
    rt: &impl Abort,
    alloc: Global,
    run: &ThreadsRun<FlaggingSink<'_>>,
) -> Result<(), Fail> {
    ends_so(rt, run, None, &[FinishAnswer::Settled]);
    let found = format!(in alloc; "{:?}", run.answers.as_slice())?;
    same(
        rt,
        found.as_str(),
        "[[Packet(Done), Packet(Done), Packet(Done), Packet(Done)]]",
        "the answers",
    );
    let sink = run.sinks.first().ok_or("no sink")?;
    let want = bytes_of(
        alloc,
        "c11ffcc1 80000000 60000000 00000000 c11ffcc1 80000000 60000000 00000000",
    )?;
    same(rt, sink.sink.bytes(), want.as_slice(), "the packets");
    Ok(())
}

#[test]
fn tells_that_the_gate_shut(rt: HostRuntime) -> Result<(), Fail> {
    let run = both_run(&rt, rt.alloc(), &Shutting { calls: 1 })?;
    ends_so(&rt, &run, Some(ThreadsFault::GateShut), BOTH_SETTLED);
    let [first, second] = run.answers.as_slice() else {
        return Err("not two workers".into());
    };
    same(&rt, (first.len(), second.len()), (1, 1), "answers");
    Ok(())
}

/// Of no stream type that is there.
const OF_NO_TYPE: Task = Task {
    type_name: "t",
    ..TWO_RECORDS
};

#[test]
fn hands_both_workers_back_where_one_has_no_type(rt: HostRuntime) -> Result<(), Fail> {
    match run_two(&rt, rt.alloc(), &OF_NO_TYPE, &OpenGate)? {
        Err(refused) => {
            are_handed_back(&rt, &refused, StreamFault::NoSuchStream, "no such type");
            Ok(())
        }
        Ok(_) => Err("a worker of no stream type ran".into()),
    }
}

/// Both workers were refused for this fault, and are as they were.
pub fn are_handed_back(
    rt: &impl Abort,
    refused: &NotRun<MemorySink>,
    fault: StreamFault,
    shows: &str,
) {
    same(rt, refused.fault, fault, shows);
    same(rt, refused.workers.len(), 2, shows);
    for worker in refused.workers.as_slice() {
        let left = (worker.acts.len(), worker.sink.bytes().len());
        same(rt, left, (4, 0), shows);
    }
}
