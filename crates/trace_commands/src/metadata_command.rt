//! `metadata`: prints the metadata of a configuration.

ghost use Rattle.std.specs.Prelude.{IfOk, string_bytes};
ghost use Rattle.trace_commands.specs.Checking.{IsMetadataAnswer};
ghost use Rattle.trace_commands.specs.Telling.{AnswersFile};

use crate::answer::{OUT_OF_MEMORY, fail, tell};
use crate::files::{fail_at, read_file};
use crate::judged::{Judged, judge};
use command_words::MetadataCommand;
use number_packets::Answer;
use std::alloc::{AllocError, Global};
use std::io::Write;
use std::rt::Files;
use tsdl_writer::write_metadata;
use uuid::Uuid;

/// Reads the file of a configuration, and tells its metadata.
pub fn metadata<X: Files + AllocGlobal + Clone + Drop, W: Write, E: Write>(
    rt: &X,
    asked: &MetadataCommand<'_>,
    output: &mut W,
    errors: &mut E,
) -> u8
    ensures { AnswersFile X.File.remaining asked.now.config.now (λ text. IsMetadataAnswer asked.now.config.now text asked.now.uuid) (W.contents output.old) (W.contents output.new) (E.contents errors.old) (E.contents errors.new) result }
{
    let text = match read_file(rt, asked.config) {
        Ok(text) => text,
        Err(fault) => return fail_at(rt.alloc(), asked.config, &fault, errors),
    };
    match metadata_text(rt.alloc(), asked.config, text.as_slice(), asked.uuid) {
        Ok(answer) => tell(&answer, output, errors),
        Err(_) => fail(errors, OUT_OF_MEMORY),
    }
}

/// What is answered of the configuration that the text of a file is, where `number` is the identifier that is handed in.
fn metadata_text(
    alloc: Global,
    path: &str,
    text: &[u8],
    number: Option<Uuid>,
) -> Result<Answer, AllocError>
    ensures { IfOk result (λ a. IsMetadataAnswer path.now text.now number (string_bytes a.output) a.errors.items a.status) }
{
    match judge(alloc, path, text, number)? {
        Judged::Right(config) => Ok(Answer {
            output: write_metadata(alloc, &config)?,
            errors: Vec::new(alloc),
            status: 0,
        }),
        Judged::Refused(answer) => Ok(answer),
    }
}
