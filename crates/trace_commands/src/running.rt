//! The program: the command that the words ask for is run, and its answer is told.

ghost use Rattle.std.specs.Prelude.{map};
ghost use Rattle.trace_commands.specs.Running.{Does, HasSizes, Runs};

use crate::check_command::check;
use crate::first_command::first_path;
use crate::line_answer::tell_line_fault;
use crate::metadata_command::metadata;
use crate::progress::Progress;
use crate::read_command::read;
use crate::trace_command::trace;
use command_words::{Command as Wanted, command};
use std::io::{Read, Write};
use std::rt::Files;
use std::sync::Wait;
use std::thread::Threads;

/// Runs the command that the words ask for, which are those behind the program's own name, and answers the exit status: 0; 1 where what was
/// read has a fault; 2 where the words ask for no command; 3 where a file, a read, a write or a thread failed or memory was wanting, which a line on
/// `errors` says. Without words, numbers of `input` are traced. How far `trace` and `read` are is said by `rt`, unless they are to be quiet, and without words
/// that numbers are waited for; never on `errors`.
#[tactic(auto, using(crate::proofs::TracingLaws::asked_sizes))]
pub fn run<
    'a,
    X: Files + Progress + AllocGlobal + Clone + Drop + Threads + Wait,
    R: Read,
    W: Write,
    E: Write,
>(rt: &X, words: &'a [&'a str], input: &mut R, output: &mut W, errors: &mut E) -> u8
    ensures { Runs X.File.contents X.File.remaining (map (λ s. s.now) words.now) (R.remaining input.old) (W.contents output.old) (W.contents output.new) (E.contents errors.old) (E.contents errors.new) result }
{
    match command(rt.alloc(), words) {
        Ok(asked) => obey(rt, &asked, input, output, errors),
        Err(fault) => tell_line_fault(rt.alloc(), fault, output, errors),
    }
}

fn obey<
    X: Files + Progress + AllocGlobal + Clone + Drop + Threads + Wait,
    R: Read,
    W: Write,
    E: Write,
>(rt: &X, asked: &Wanted<'_>, input: &mut R, output: &mut W, errors: &mut E) -> u8
    requires { HasSizes asked.now }
    ensures { Does X.File.contents X.File.remaining asked.now (R.remaining input.old) (W.contents output.old) (W.contents output.new) (E.contents errors.old) (E.contents errors.new) result }
{
    match asked {
        Wanted::FirstPath => {
            rt.say_wanted();
            first_path(rt.alloc(), input, output, errors)
        }
        Wanted::Check(path) => check(rt, path, output, errors),
        Wanted::Metadata(asked) => metadata(rt, asked, output, errors),
        Wanted::Trace(asked) => {
            if !asked.is_quiet {
                rt.say_progress();
            }
            trace(rt, asked, output, errors)
        }
        Wanted::Read(asked) => {
            if !asked.is_quiet {
                rt.say_progress();
            }
            read(rt, asked, output, errors)
        }
    }
}
