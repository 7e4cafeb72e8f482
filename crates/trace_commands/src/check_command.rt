//! `check`: judges a configuration, and says how much is in it.

ghost use Rattle.std.specs.Prelude.{◌≡◌, ◌+◌, sum, IfOk, None, string_bytes};
ghost use Rattle.trace_commands.specs.Checking.{IsChecked, counted_line, events_in, hint_line};
ghost use Rattle.trace_commands.specs.Telling.{AnswersFile};

use crate::answer::{OUT_OF_MEMORY, fail, tell};
use crate::fault_lines::fault_line;
use crate::files::{fail_at, read_file};
use crate::judged::{Judged, judge};
use ctf_types::{Config, StreamType};
use number_packets::Answer;
use std::alloc::{AllocError, Global};
use std::io::Write;
use std::rt::Files;

/// Reads the file of a configuration, and tells what is answered to it.
pub fn check<X: Files + AllocGlobal + Clone + Drop, W: Write, E: Write>(
    rt: &X,
    path: &str,
    output: &mut W,
    errors: &mut E,
) -> u8
    ensures { AnswersFile X.File.remaining path.now (IsChecked path.now) (W.contents output.old) (W.contents output.new) (E.contents errors.old) (E.contents errors.new) result }
{
    let text = match read_file(rt, path) {
        Ok(text) => text,
        Err(fault) => return fail_at(rt.alloc(), path, &fault, errors),
    };
    match check_text(rt.alloc(), path, text.as_slice()) {
        Ok(answer) => tell(&answer, output, errors),
        Err(_) => fail(errors, OUT_OF_MEMORY),
    }
}

/// What is answered of the configuration that the text of a file is.
fn check_text(alloc: Global, path: &str, text: &[u8]) -> Result<Answer, AllocError>
    ensures { IfOk result (λ a. IsChecked path.now text.now (string_bytes a.output) a.errors.items a.status) }
{
    match judge(alloc, path, text, None)? {
        Judged::Right(config) => Ok(Answer {
            output: counted(alloc, &config)?,
            errors: hint(alloc, path, &config)?,
            status: 0,
        }),
        Judged::Refused(answer) => Ok(answer),
    }
}

/// How many stream types and event types a configuration has.
fn counted(alloc: Global, config: &Config) -> Result<String, AllocError>
    ensures { IfOk result (λ text. string_bytes text ≡ counted_line config.now) }
{
    let streams = config.streams.as_slice().len();
    let events = event_count(config.streams.as_slice())?;
    format!(in alloc; "ok: {streams} stream types, {events} event types\n")
}

/// How many event types these stream types have. Memory holds no more than a machine word counts.
fn event_count(streams: &[StreamType]) -> Result<usize, AllocError>
    ensures { IfOk result (λ n. n ≡ events_in streams.now) }
{
    let mut count = 0usize;
    for stream in streams {
        let Some(sum) = count.checked_add(stream.events.as_slice().len()) else {
            return Err(AllocError);
        };
        count = sum;
    }
    Ok(count)
}

/// A hint where other readers than this one refuse the metadata: stream blocks have their numbers, and packets do not.
fn hint(alloc: Global, path: &str, config: &Config) -> Result<Vec<u8>, AllocError>
    ensures { IfOk result (λ line. line.items ≡ hint_line path.now config.now) }
{
    match config.header.stream_id {
        Some(_) => Ok(Vec::new(alloc)),
        None => fault_line(
            alloc,
            path,
            "hint: trace/type/$features/data-stream-type-id-field-type is off: babeltrace2 does not read such a trace",
        ),
    }
}
