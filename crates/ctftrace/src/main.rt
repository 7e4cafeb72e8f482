//! The program: configurations are judged, and their metadata is printed; scripts are traced, and traces are read; without words, numbers from standard input become packets,
//! are printed in hexadecimal, and are read back.
#![tactic(auto)]

use std::env;
use std::io::{ErrorKind, IsTerminal, Read, Result as IoResult, Write};
use std::process::ExitCode;
use std::rt::{Env, Files};
use std::sync::Wait;
use std::thread::Threads;
use trace_commands::{CountedFiles, OUT_OF_MEMORY, Progress, Tally, fail, run};
use trace_platform::write_all;

/// The status of a bad command line.
const BAD_LINE: u8 = 2;

fn main(rt: HostRuntime) -> ExitCode {
    let mut input = rt.reader();
    let mut errors = rt.stderr();
    let tally = Tally::new(errors.is_terminal(), input.is_terminal());
    let files = CountedFiles::new(&rt, &tally);
    let mut output = files.counted(rt.stdout());
    let status = match run_words(&rt, &files, &mut input, &mut output, &mut errors) {
        Ok(status) => status,
        Err(fault) if fault.kind() == ErrorKind::InvalidData => {
            write_all(&mut errors, b"error: a word is not UTF-8\n");
            BAD_LINE
        }
        Err(_) => fail(&mut errors, OUT_OF_MEMORY),
    };
    ExitCode::from(status)
}

/// Runs what the words of the command line ask for, over these files; a fault is one of reading these words.
fn run_words<
    N: Env + AllocGlobal,
    X: Files + Progress + AllocGlobal + Clone + Drop + Threads + Wait,
    R: Read,
    W: Write,
    E: Write,
>(rt: &N, files: &X, input: &mut R, output: &mut W, errors: &mut E) -> IoResult<u8> {
    let alloc = rt.alloc();
    let given: Vec<String> = env::args(rt)?.collect(alloc)?;
    let mut words = Vec::new(alloc);
    for word in given.iter().skip(1) {
        words.push(word.as_str())?;
    }
    Ok(run(files, words.as_slice(), input, output, errors))
}
