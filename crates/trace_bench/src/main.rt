//! Traces calls on the calling thread or in threads of their own, and reads what was traced, so that the time of a call and of a record can be measured: `tools/bench` runs it with large counts.
#![tactic(auto)]

mod bench;
mod decoding;
mod fault;
mod made;
mod plan;
mod record;
mod session;
mod tally;
mod tracing;

use bench::bench;
use fault::BenchFault;
use plan::plan_of;
use std::env;
use std::io::{Result as IoResult, Write};
use std::process::ExitCode;
use trace_platform::write_all;

fn main(rt: HostRuntime) -> IoResult<ExitCode> {
    let alloc = rt.alloc();
    let words: Vec<String> = env::args(&rt)?.collect(alloc)?;
    let told = match plan_of(words.as_slice()) {
        Some(plan) => bench(&rt, alloc, plan, rt.stdin(), rt.stdout()),
        None => Err(BenchFault::Words),
    };
    let (text, status) = match told {
        Ok(text) => (text, 0),
        Err(fault) => (format!(in alloc; "trace_bench: {fault}\n")?, 1),
    };
    let mut output = rt.stdout();
    if !write_all(&mut output, text.as_bytes()) {
        return Ok(ExitCode::from(3));
    }
    Ok(ExitCode::from(status))
}
