//! What is told of words that ask for no command.

ghost use Rattle.trace_commands.specs.Telling.{TellsLineFault};

use crate::answer::{OUT_OF_MEMORY, fail, tell};
use command_words::LineFault;
use number_packets::Answer;
use std::alloc::Global;
use std::io::Write;

/// Help that was asked for, or what is wrong with the words.
pub fn tell_line_fault<W: Write, E: Write>(
    alloc: Global,
    fault: LineFault,
    output: &mut W,
    errors: &mut E,
) -> u8
    ensures { TellsLineFault fault (W.contents output.old) (W.contents output.new) (E.contents errors.old) (E.contents errors.new) result }
{
    match fault {
        LineFault::Help(text) => {
            let answer = Answer {
                output: text,
                errors: Vec::new(alloc),
                status: 0,
            };
            tell(&answer, output, errors)
        }
        LineFault::Bad(text) => {
            let answer = Answer {
                output: String::new(alloc),
                errors: text.into_bytes(),
                status: 2,
            };
            tell(&answer, output, errors)
        }
        LineFault::OutOfMemory => fail(errors, OUT_OF_MEMORY),
    }
}
