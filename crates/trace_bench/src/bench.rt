//! What is measured, done once.

ghost use Rattle.std.specs.Prelude.{◌≡◌, ◌≤◌, None};
ghost use Rattle.std.specs.List.{All};
ghost use Rattle.ctf_types.specs.AllowedConfig.{IsConfig};
ghost use Rattle.trace_bench.specs.Plans.{IsAllowed, IsLight};
ghost use Rattle.trace_stack.specs.Workers.{IsWorker, OfOneClock};

use crate::decoding::decoded;
use crate::fault::BenchFault;
use crate::made::workers;
use crate::plan::{Deed, Load, Plan};
use crate::record::Record;
use crate::session::{events, run_session};
use crate::tally::{Tally, accepted_of, bytes_of};
use crate::tracing::trace_calls;
use ctf_types::Config;
use std::alloc::{AllocError, Global};
use std::io::{Read, Write};
use std::sync::Wait;
use std::thread::Threads;
use trace_platform::{MemorySink, WriterSink};
use trace_stack::{Answer, OpenGate, ThreadsRun, Worker, run_threads};

/// Does what the plan says, and tells what came of it. Where packets are written to the output, it tells nothing.
pub fn bench<R: Threads + Wait, I: Read + Drop, O: Write + Drop>(
    rt: &R,
    alloc: Global,
    plan: Plan,
    input: I,
    output: O,
) -> Result<String, BenchFault>
    requires { IsAllowed plan.deed }
{
    let Plan { record, deed } = plan;
    match deed {
        Deed::Share(load) => share(rt, alloc, record, load),
        Deed::Make(load) => make(alloc, record, load),
        Deed::Trace(calls) => trace(alloc, record, calls),
        Deed::Write(calls) => {
            trace_calls(alloc, record, calls, WriterSink::new(output))?;
            Ok(String::new(alloc))
        }
        Deed::Decode => decoded(alloc, record, input),
        Deed::Configure => Ok(record.configuration(alloc)?),
    }
}

/// A stream traces the calls, and its packets are kept in memory.
fn trace(alloc: Global, record: Record, calls: usize) -> Result<String, BenchFault>
    requires { calls ≤ 100000000 }
{
    let (sink, accepted) = trace_calls(alloc, record, calls, MemorySink::new(alloc))?;
    let bytes = sink.bytes().len();
    Ok(told(alloc, 0, calls, Tally { accepted, bytes })?)
}

/// The calls are made ready and not run.
fn make(alloc: Global, record: Record, load: Load) -> Result<String, BenchFault>
    requires { IsLight load }
{
    if load.threads == 0 {
        events(alloc, record, load.calls)?;
    } else {
        workers(alloc, record, load)?;
    }
    Ok(format!(in alloc; "{} workers made\n", load.threads)?)
}

/// The calls are run, by workers or by a session.
fn share<R: Threads + Wait>(
    rt: &R,
    alloc: Global,
    record: Record,
    load: Load,
) -> Result<String, BenchFault>
    requires { IsLight load }
{
    let Load { threads, calls } = load;
    let tally = if threads == 0 {
        run_session(alloc, record, calls)?
    } else {
        run_workers(rt, alloc, record, load)?
    };
    Ok(told(alloc, threads, calls, tally)?)
}

/// The workers of a load are made and run.
fn run_workers<R: Threads + Wait>(
    rt: &R,
    alloc: Global,
    record: Record,
    load: Load,
) -> Result<Tally, BenchFault>
    requires { IsLight load }
{
    let config = record.configured(alloc)?;
    run_by(rt, alloc, &config, workers(alloc, record, load)?)
}

/// By this configuration.
#[tactic(auto, using(trace_stack::proofs::Anew::all_begin_anew))]
fn run_by<R: Threads + Wait>(
    rt: &R,
    alloc: Global,
    config: &Config,
    workers: Vec<Worker<MemorySink>>,
) -> Result<Tally, BenchFault>
    requires config { IsConfig config.now }
    requires workers { All IsWorker workers.items }
    requires clock { OfOneClock workers.items }
    requires anew { All (λ w. w.start ≡ None) workers.items }
{
    match run_threads(rt, alloc, config, workers, &OpenGate) {
        Ok(run) => tally_of(&run),
        Err(_) => Err(BenchFault::Workers),
    }
}

/// What came of the workers' calls, where all were made.
fn tally_of(run: &ThreadsRun<MemorySink>) -> Result<Tally, BenchFault> {
    if run.fault.is_some() {
        return Err(BenchFault::Workers);
    }
    Ok(Tally {
        accepted: accepted_of_all(run.answers.as_slice()),
        bytes: bytes_of(run.sinks.as_slice()),
    })
}

fn accepted_of_all(answers: &[Vec<Answer>]) -> usize {
    let mut count: usize = 0;
    for some in answers {
        count = count.saturating_add(accepted_of(some.as_slice()));
    }
    count
}

fn told(alloc: Global, threads: usize, calls: usize, tally: Tally) -> Result<String, AllocError> {
    let made = threads.max(1).saturating_mul(calls);
    let Tally { accepted, bytes } = tally;
    format!(in alloc; "{threads} workers: {accepted} of {made} calls accepted, {bytes} bytes\n")
}
