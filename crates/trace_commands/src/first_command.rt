//! The program without words: numbers of its input are traced and read back.

ghost use Rattle.std.specs.Prelude.{◌≡◌, ℕ, List, Some, codes};
ghost use Rattle.number_packets.specs.FirstPath.{IsAnswer};
ghost use Rattle.trace_commands.specs.Telling.{IsFileLine, ToldOrFails};

use crate::answer::{OUT_OF_MEMORY, fail, tell};
use crate::files::{FileFault, fail_at};
use number_packets::{answer_to_numbers, read_all};
use std::alloc::Global;
use std::io::{Read, Write};

/// Reads numbers, one a line, to the input's end; traces them; prints the packets in hexadecimal and the values that a reader finds in them.
///
/// The status is 0; 1 where a line is bad, which alone is said, on `errors`; 3 where a read or a write failed, the input had no end
/// after 2^32 reads, or memory was wanting, which a line on `errors` says. All lines are read before anything is printed.
pub fn first_path<R: Read, W: Write, E: Write>(
    alloc: Global,
    input: &mut R,
    output: &mut W,
    errors: &mut E,
) -> u8
    ensures { (text : List ℕ) → R.remaining input.old ≡ Some text →
        ToldOrFails (IsFileLine (codes "standard input")) (IsAnswer text) (W.contents output.old) (W.contents output.new) (E.contents errors.old) (E.contents errors.new) result }
{
    let text = match read_all(alloc, input) {
        Ok(text) => text,
        Err(fault) => return fail_at(alloc, "standard input", &FileFault::NotRead(fault), errors),
    };
    match answer_to_numbers(alloc, text.as_slice()) {
        Ok(answer) => tell(&answer, output, errors),
        Err(_) => fail(errors, OUT_OF_MEMORY),
    }
}
