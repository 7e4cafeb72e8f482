//! Why a text is no script.

ghost use Rattle.std.specs.Prelude.{◌≡◌, Some};
ghost use Rattle.trace_text.specs.declared.script_fault.ScriptFaultKind.TheVariants.{OutOfMemory};
ghost use Rattle.trace_text.specs.{ScriptFaultWords.kind_words, ScriptReading.{of_entry as of_entry_of}};

use std::alloc::{AllocError, AllocFailed};
use std::error::Error;
use std::fmt;

/// What is wrong with a script. Of the faults of one entry, the kind that stands first in this list is answered.
#[derive(Clone, Copy, Debug, PartialEq, Eq)]
pub enum ScriptFaultKind {
    /// The text is not one JSON value in UTF-8.
    NotJson,
    /// An object has not its properties, each of its kind, and no others.
    Shape,
    /// No stream, or no data stream type, has the name.
    NoSuchStream,
    /// No event record type of the stream's type has the name.
    NoSuchEvent,
    /// A value is no whole number of its field's sign in 64 bits, no text and no list.
    BadValue,
    /// Memory ran out.
    OutOfMemory,
}

impl fmt::Display for ScriptFaultKind {
    ghost output = { λ kind. Some (kind_words kind) };

    fn fmt<W: fmt::Write>(&self, f: &mut fmt::Formatter<W>) -> fmt::Result {
        f.write_str(match self {
            ScriptFaultKind::NotJson => "not JSON: expected one JSON value in UTF-8",
            ScriptFaultKind::Shape => {
                "not of a script's form: expected an object of its properties, each of its kind, and no others"
            }
            ScriptFaultKind::NoSuchStream => "no stream or data stream type has this name",
            ScriptFaultKind::NoSuchEvent => {
                "no such event record type: expected the name of one of the stream's type"
            }
            ScriptFaultKind::BadValue => {
                "bad value: expected a whole number of its field's sign in 64 bits, a text or a list"
            }
            ScriptFaultKind::OutOfMemory => "out of memory",
        })
    }
}

impl Error for ScriptFaultKind {}

/// The first fault of a script: one that lies in no entry, else the first of its streams' entries, else the first of its events'.
#[derive(Clone, Copy, Debug, PartialEq, Eq, thiserror::Error)]
#[error("entry {at}: {kind}")]
pub struct ScriptFault {
    /// The index of the entry in its list, 0 where no entry has the fault.
    pub at: usize,
    pub kind: ScriptFaultKind,
}

impl From<AllocError> for ScriptFaultKind {
    ghost from_gives = { λ _ e. e ≡ OutOfMemory };

    fn from(_error: AllocError) -> ScriptFaultKind {
        ScriptFaultKind::OutOfMemory
    }
}

impl<T: Drop> From<AllocFailed<T>> for ScriptFaultKind {
    ghost from_gives = { λ _ e. e ≡ OutOfMemory };

    fn from(_error: AllocFailed<T>) -> ScriptFaultKind {
        ScriptFaultKind::OutOfMemory
    }
}

impl ScriptFault {
    /// The fault of an entry. Want of memory is no entry's.
    pub(crate) fn of_entry(at: usize, kind: ScriptFaultKind) -> ScriptFault
        ensures { result ≡ of_entry_of at kind }
    {
        match kind {
            ScriptFaultKind::NotJson
            | ScriptFaultKind::Shape
            | ScriptFaultKind::NoSuchStream
            | ScriptFaultKind::NoSuchEvent
            | ScriptFaultKind::BadValue => ScriptFault { at, kind },
            ScriptFaultKind::OutOfMemory => ScriptFault { at: 0, kind },
        }
    }
}
