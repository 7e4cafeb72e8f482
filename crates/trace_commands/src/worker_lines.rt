//! The lines of the answers to the workers of a script.

ghost use Rattle.std.specs.Prelude.{◌≡◌, ◌++◌, IfOk, OnOk, slice_get, string_bytes};
ghost use Rattle.trace_commands.specs.Workers.{answers_at, named_line, named_lines, stream_lines};

use crate::answer_lines::{answer_at, push_line};
use std::alloc::{AllocError, Global};
use trace_stack::Answer;
use trace_text::ScriptStream;

/// The lines of all streams, in their order.
pub fn worker_lines(
    alloc: Global,
    streams: &[ScriptStream],
    answers: &[Vec<Answer>],
) -> Result<String, AllocError>
    ensures { IfOk result (λ text. string_bytes text ≡ stream_lines streams.now answers.now) }
{
    let mut output = String::new(alloc);
    for (number, stream) in streams.iter().enumerate() {
        push_lines(
            alloc,
            &mut output,
            stream.name.as_str(),
            answers_of(answers, number),
        )?;
    }
    Ok(output)
}

/// The answers of the stream of this number, or none.
fn answers_of(answers: &[Vec<Answer>], number: usize) -> &[Answer]
    ensures { result.now ≡ answers_at (slice_get answers.now number) }
{
    match answers.get(number) {
        Some(of_stream) => of_stream.as_slice(),
        None => &[],
    }
}

/// A line for each answer of a stream, its number counted from 0.
fn push_lines(
    alloc: Global,
    output: &mut String,
    name: &str,
    answers: &[Answer],
) -> Result<(), AllocError>
    ensures { OnOk result (string_bytes output.new ≡ string_bytes output.old ++ named_lines name.now 0 answers.now) }
{
    for (number, _) in answers.iter().enumerate() {
        push_named(alloc, output, name, number, &answer_at(answers, number))?;
    }
    Ok(())
}

/// The line of an answer: the stream's name, the answer's number, and its words.
fn push_named(
    alloc: Global,
    output: &mut String,
    name: &str,
    number: usize,
    answer: &Answer,
) -> Result<(), AllocError>
    ensures { OnOk result (string_bytes output.new ≡ string_bytes output.old ++ named_line name.now number answer.now) }
{
    output.push_str(name)?;
    output.push(' ')?;
    push_line(alloc, output, number, answer)
}
