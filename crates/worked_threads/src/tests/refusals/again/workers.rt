//! Workers that are refused for want of memory, and handed back, run.

ghost use Rattle.std.specs.Prelude.{◌≡◌, None};
ghost use Rattle.std.specs.List.{All};
ghost use Rattle.ctf_types.specs.AllowedConfig.{IsConfig};
ghost use Rattle.trace_stack.specs.Workers.{IsWorker, OfOneClock};

use super::super::OUT_OF_MEMORY;
use super::super::memory::two_workers::is_as_ever;
use crate::tests::clocked_streams::clocked;
use crate::tests::threads::{TWO_RECORDS, are_handed_back, two_workers};
use ctf_types::Config;
use std::alloc::Global;
use std::process::Abort;
use std::sync::Wait;
use std::test::Fail;
use std::thread::Threads;
use thread_stream::StreamFault;
use trace_platform::MemorySink;
use trace_stack::{OpenGate, ThreadsRun, Worker, run_threads};

/// What is left of workers of which none is refused.
#[tactic(auto, using(trace_stack::proofs::Anew::all_begin_anew))]
fn run_again<R: Threads + Wait>(
    rt: &R,
    alloc: Global,
    config: &Config,
    workers: Vec<Worker<MemorySink>>,
) -> Result<ThreadsRun<MemorySink>, Fail>
    requires config { IsConfig config.now }
    requires workers { All IsWorker workers.items }
    requires clock { OfOneClock workers.items }
    requires anew { All (λ w. w.start ≡ None) workers.items }
{
    match run_threads(rt, alloc, config, workers, &OpenGate) {
        Ok(run) => Ok(run),
        Err(_) => Err("a second refusal".into()),
    }
}

/// What is left of two workers.
fn run<R: Threads + Wait + Abort>(rt: &R, alloc: Global) -> Result<ThreadsRun<MemorySink>, Fail> {
    let config = clocked(alloc)?;
    run_by(rt, alloc, &config)
}

#[tactic(auto, using(trace_stack::proofs::Anew::all_begin_anew))]
fn run_by<R: Threads + Wait + Abort>(
    rt: &R,
    alloc: Global,
    config: &Config,
) -> Result<ThreadsRun<MemorySink>, Fail>
    requires { IsConfig config.now }
{
    let workers = two_workers(alloc, &TWO_RECORDS)?;
    match run_threads(rt, alloc, config, workers, &OpenGate) {
        Ok(run) => Ok(run),
        Err(refused) => {
            are_handed_back(rt, &refused, StreamFault::OutOfMemory, "a refused request");
            run_again(rt, alloc, config, refused.workers)
        }
    }
}

#[test]
fn runs_workers_that_were_refused(rt: HostRuntime) -> Result<(), Fail> {
    let run = run(&rt, rt.alloc())?;
    is_as_ever(&rt, &run)
}
