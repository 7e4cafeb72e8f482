//! Why a command line asks for no command.

ghost use Rattle.std.specs.Prelude.{◌≡◌};
ghost use Rattle.clap.specs.Words.{kind_of};
ghost use Rattle.clap.specs.declared.error.kind.ErrorKind.TheVariants as kind;
ghost use Rattle.command_words.specs.CommandLine.{IsMemory};
ghost use Rattle.command_words.specs.LineFaults.{FitsKind};

use clap::error::ErrorKind;
use std::alloc::{AllocError, AllocFailed, Global};
use thiserror::Error;

/// A command line without a command, with the text to print.
#[derive(Debug, Drop, Error)]
pub enum LineFault {
    /// Help or the version was asked for.
    #[error("{0}")]
    Help(String),
    /// The words are no command of the program.
    #[error("{0}")]
    Bad(String),
    #[error("out of memory")]
    OutOfMemory,
}

impl From<AllocError> for LineFault {
    ghost use Rattle.command_words.specs.declared.line_fault.LineFault.TheVariants.{OutOfMemory};

    ghost from_gives = { λ _ e. e ≡ OutOfMemory };

    fn from(_: AllocError) -> LineFault {
        LineFault::OutOfMemory
    }
}

impl<T: Drop> From<AllocFailed<T>> for LineFault {
    ghost use Rattle.command_words.specs.declared.line_fault.LineFault.TheVariants.{OutOfMemory};

    ghost from_gives = { λ _ e. e ≡ OutOfMemory };

    fn from(_: AllocFailed<T>) -> LineFault {
        LineFault::OutOfMemory
    }
}

/// What `clap` says of the words.
pub fn line_fault(alloc: Global, error: &clap::Error) -> LineFault
    ensures memory { kind_of error.now ≡ kind.OutOfMemory → IsMemory result }
    ensures told { FitsKind (kind_of error.now) result }
{
    let kind = error.kind();
    if kind == ErrorKind::OutOfMemory {
        return LineFault::OutOfMemory;
    }
    let Ok(text) = format!(in alloc; "{error}") else {
        return LineFault::OutOfMemory;
    };
    match kind {
        ErrorKind::DisplayHelp | ErrorKind::DisplayVersion => LineFault::Help(text),
        _ => LineFault::Bad(text),
    }
}
