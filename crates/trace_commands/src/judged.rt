//! The text of a configuration's file, judged: the configuration that it is, or what is answered where it is none.

ghost use Rattle.std.specs.Prelude.{IfOk};
ghost use Rattle.trace_commands.specs.Checking.{IsJudged};

use crate::answer::refusal;
use crate::fault_lines::configuration_line;
use conf_check::configure;
use ctf_types::Config;
use number_packets::Answer;
use std::alloc::{AllocError, Global};
use uuid::Uuid;

/// What the text of a configuration's file is.
#[derive(Drop)]
pub enum Judged {
    Right(Config),
    /// No configuration, which this answers.
    Refused(Answer),
}

/// Judges the text of the file of this path, where `number` is the identifier that is handed in.
pub fn judge(
    alloc: Global,
    path: &str,
    text: &[u8],
    number: Option<Uuid>,
) -> Result<Judged, AllocError>
    ensures { IfOk result (IsJudged path.now text.now number) }
{
    match configure(alloc, text, number) {
        Ok(config) => Ok(Judged::Right(config)),
        Err(fault) => {
            if fault.is_memory() {
                return Err(AllocError);
            }
            let line = configuration_line(alloc, path, text, &fault)?;
            Ok(Judged::Refused(refusal(alloc, line)))
        }
    }
}
