//! Why a text is no metadata that this project reads.

ghost use Rattle.std.specs.Prelude.{◌≡◌, Some};
ghost use Rattle.tsdl_grammar.specs.{FaultWords.kind_words, declared.fault.MetaFaultKind.TheVariants.OutOfMemory};

use std::alloc::{AllocError, AllocFailed};
use std::error::Error;
use std::fmt;

/// The first fault of a metadata text, and the byte of the text at which it stands.
#[derive(Debug, Drop, PartialEq, Eq, thiserror::Error)]
#[error("byte {place}: {kind}")]
pub struct MetaFault {
    /// The fault's place in bytes from the start of the text, 0 for want of memory.
    pub place: usize,
    pub kind: MetaFaultKind,
}

/// What is wrong with a metadata text.
#[derive(Debug, Drop, PartialEq, Eq)]
pub enum MetaFaultKind {
    /// The text doesn't begin with `/* CTF 1.8 */`.
    NoMagicLine,
    /// No token starts here, or one has no end.
    Token,
    /// A token that the grammar doesn't allow here, a number out of its range, or an end that comes too early.
    Syntax,
    /// A construct of TSDL that this project doesn't read, by its name.
    Unsupported(String),
    /// An attribute, scope, member, name or number that stands twice.
    Duplicate,
    /// A stream without `packet_size` or without `content_size`.
    NoPacketSize,
    /// A sequence's length that is no unsigned integer member before it.
    BadLength,
    /// More members, array lengths or ranges than are read.
    Limit,
    /// Memory ran out.
    OutOfMemory,
}

impl fmt::Display for MetaFaultKind {
    ghost output = { λ kind. Some (kind_words kind) };

    fn fmt<W: fmt::Write>(&self, f: &mut fmt::Formatter<W>) -> fmt::Result {
        f.write_str(match self {
            MetaFaultKind::NoMagicLine => "expected the line `/* CTF 1.8 */`",
            MetaFaultKind::Token => "no token of TSDL starts here",
            MetaFaultKind::Syntax => "this is not allowed here",
            MetaFaultKind::Unsupported(name) => return write!(f, "`{name}` is not supported here"),
            MetaFaultKind::Duplicate => "this is given twice",
            MetaFaultKind::NoPacketSize => {
                "a stream's packet context has no `packet_size` or no `content_size`"
            }
            MetaFaultKind::BadLength => {
                "expected the name of an unsigned integer member that stands before"
            }
            MetaFaultKind::Limit => "this passes a limit",
            MetaFaultKind::OutOfMemory => "out of memory",
        })
    }
}

impl Error for MetaFaultKind {}

impl From<AllocError> for MetaFault {
    ghost from_gives = { λ _ e. e ≡ record { place = 0; kind = OutOfMemory } };

    fn from(_e: AllocError) -> MetaFault {
        let kind = MetaFaultKind::OutOfMemory;
        MetaFault { place: 0, kind }
    }
}

impl<T: Drop> From<AllocFailed<T>> for MetaFault {
    ghost from_gives = { λ _ e. e ≡ record { place = 0; kind = OutOfMemory } };

    fn from(_e: AllocFailed<T>) -> MetaFault {
        let kind = MetaFaultKind::OutOfMemory;
        MetaFault { place: 0, kind }
    }
}
