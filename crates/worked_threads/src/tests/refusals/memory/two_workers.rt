//! Two workers over rings and one clock. Where a sink has no memory, or a thread none to start, all else is answered as with ample memory.

use super::super::OUT_OF_MEMORY;
use crate::tests::threads::{TWO_RECORDS, are_handed_back, run_two};
use packet_collector::FinishAnswer;
use std::process::Abort;
use std::test::Fail;
use thread_stream::{PacketAnswer, StreamFault, Verdict, Why};
use trace_platform::MemorySink;
use trace_stack::{Answer, OpenGate, ThreadsFault, ThreadsRun};

/// Whether these are the answers to a worker that ran, or to one whose thread did not start.
fn are_its_answers(answers: &[Answer], has_started: bool) -> bool {
    let [first, second, close, last] = answers else {
        return !has_started && answers.is_empty();
    };
    is_accepted(*first)
        && is_accepted(*second)
        && *close == Answer::Packet(PacketAnswer::Done)
        && *last == Answer::Traced(Verdict::Discarded(Why::ClockSpent))
}

fn is_accepted(answer: Answer) -> bool {
    matches!(answer, Answer::Traced(Verdict::Accepted(Some(_))))
}

fn is_answered(rt: &impl Abort, answers: &[Answer], has_started: bool) {
    assert_eq!(rt; are_its_answers(answers, has_started), true, "{answers:?}");
}

/// A sink has its packet, or faulted with none. Where a thread did not start there is no packet.
fn is_gathered(rt: &impl Abort, end: FinishAnswer, bytes: usize, all_started: bool) {
    let has_all = end == FinishAnswer::Settled && (bytes == 64 || !all_started);
    let has_none = end == FinishAnswer::Faulted && bytes == 0;
    assert_eq!(rt; has_all || has_none, true, "{end:?}");
}

/// All workers were answered as ever, but for those without a thread.
fn are_answered(rt: &impl Abort, run: &ThreadsRun<MemorySink>) {
    for answers in run.answers.as_slice() {
        is_answered(rt, answers.as_slice(), run.fault.is_none());
    }
}

fn are_gathered(rt: &impl Abort, run: &ThreadsRun<MemorySink>) {
    for (end, sink) in run.ends.as_slice().iter().zip(run.sinks.as_slice()) {
        is_gathered(rt, *end, sink.bytes().len(), run.fault.is_none());
    }
}

/// All workers were answered and gathered as ever. Else a thread or a sink was out of memory, as stated, and is said to have been.
pub fn is_as_ever(rt: &impl Abort, run: &ThreadsRun<MemorySink>) -> Result<(), Fail> {
    assert!(rt; run.fault != Some(ThreadsFault::GateShut));
    assert!(rt; run.fault != Some(ThreadsFault::Unsettled));
    assert_eq!(rt;
        (run.answers.len(), run.ends.len(), run.sinks.len()),
        (2, 2, 2)
    );
    are_answered(rt, run);
    are_gathered(rt, run);
    if run.fault.is_some() || run.ends.as_slice().contains(&FinishAnswer::Faulted) {
        return Err(Fail::new(OUT_OF_MEMORY));
    }
    Ok(())
}

#[test]
fn runs_two_workers(rt: HostRuntime) -> Result<(), Fail> {
    match run_two(&rt, rt.alloc(), &TWO_RECORDS, &OpenGate)? {
        Err(refused) => {
            are_handed_back(&rt, &refused, StreamFault::OutOfMemory, "a refused request");
            Err(Fail::new(OUT_OF_MEMORY))
        }
        Ok(run) => is_as_ever(&rt, &run),
    }
}
