//! What is wrong with the atoms of a text, and where judging them stops.

ghost use Rattle.std.specs.Prelude.{◌≡◌, ◌++◌, ◌∷◌, [], List, IfOk, string_bytes};
ghost use Rattle.tsdl_grammar.specs.declared.atom.Atom.{Atom};
ghost use Rattle.tsdl_grammar.specs.Spelling.{name_toks};
ghost use Rattle.tsdl_flaw.specs.Flaws.{IsWrong};
ghost use Rattle.tsdl_flaw.specs.Misfits.{IsMisfit};
ghost use Rattle.tsdl_flaw.specs.FlawWords.{twice_words, sizeless_words};
ghost use Rattle.tsdl_flaw.specs.Stopping.{kind_of, StopsIn};
ghost use Rattle.tsdl_flaw.specs.Written.{written};
ghost use Rattle.tsdl_flaw.specs.declared.flaw.Stop.TheVariants as stops;

use crate::limit::Limit;
use crate::spelled::Spelled;
use std::alloc::{AllocError, AllocFailed, Global};
use tsdl_grammar::{MetaFaultKind, Name};

/// What can be done about a construct that `babeltrace2 -o ctf` writes in other words.
pub const CONVERTED: &str = " (`babeltrace2 -o ctf` converts such a trace)";

/// What is wrong at an atom.
#[derive(Debug, Drop)]
pub enum Flaw {
    /// Something else than these words expect.
    Syntax(&'static str),
    /// A definition of a type with a name.
    TypeDefinition,
    /// A type by its name, where something else is expected.
    NamedType(&'static str),
    /// A label of an enumeration without a value.
    LabelWithoutValue,
    /// No clock has the name that an integer is mapped to; the clocks that there are, in words.
    NoClock(String),
    /// No stream has the number of an event's stream.
    NoStream(Orphan),
    /// A construct that is not read, by its name.
    Unsupported(String, Remedy),
    Duplicate,
    /// The numbers of a stream or an event that another one has.
    NumberTwice(Numbered),
    NoPacketSize,
    /// A stream's packet context without one of the sizes.
    NoSize(Sizeless),
    BadLength,
    /// More than a limit allows.
    Limit(Limit),
}

impl Flaw {
    pub fn into_kind(self) -> MetaFaultKind
        ensures { result ≡ kind_of self }
    {
        match self {
            Flaw::Syntax(_)
            | Flaw::TypeDefinition
            | Flaw::NamedType(_)
            | Flaw::LabelWithoutValue
            | Flaw::NoClock(_)
            | Flaw::NoStream(_) => MetaFaultKind::Syntax,
            Flaw::Unsupported(name, _) => MetaFaultKind::Unsupported(name),
            Flaw::Duplicate | Flaw::NumberTwice(_) => MetaFaultKind::Duplicate,
            Flaw::NoPacketSize | Flaw::NoSize(_) => MetaFaultKind::NoPacketSize,
            Flaw::BadLength => MetaFaultKind::BadLength,
            Flaw::Limit(_) => MetaFaultKind::Limit,
        }
    }

    /// What is wrong, in words, where the kind of the fault does not say all of it.
    pub fn words(&self, alloc: Global) -> Result<Option<String>, AllocError> {
        Ok(Some(match self {
            Flaw::Syntax(expected) => {
                format!(in alloc; "{}: expected {expected}", MetaFaultKind::Syntax)?
            }
            Flaw::Limit(limit) => {
                let expected = limit.words(alloc)?;
                format!(in alloc; "{}: expected {expected}", MetaFaultKind::Limit)?
            }
            Flaw::NamedType(expected) => {
                format!(in alloc;
                    "{}: expected {expected} (a type by its name is not read here)",
                    MetaFaultKind::Syntax
                )?
            }
            Flaw::TypeDefinition => {
                format!(in alloc; "a type by its name is TSDL that is not read here{CONVERTED}")?
            }
            Flaw::LabelWithoutValue => {
                format!(in alloc;
                    "a label without a value is TSDL that is not read here{CONVERTED}"
                )?
            }
            Flaw::NoClock(clocks) => {
                format!(in alloc;
                    "{}: expected the name of a clock: {clocks}",
                    MetaFaultKind::Syntax
                )?
            }
            Flaw::NoStream(Orphan { stream, event }) => {
                format!(in alloc; "no stream block with number {stream} for event {event:?}")?
            }
            Flaw::Unsupported(name, remedy) => {
                let how = remedy.words(alloc)?;
                format!(in alloc; "`{name}` is not supported {how}")?
            }
            Flaw::NumberTwice(numbered) => numbered.words(alloc)?,
            Flaw::NoSize(sizeless) => sizeless.words(alloc)?,
            Flaw::Duplicate | Flaw::NoPacketSize | Flaw::BadLength => return Ok(None),
        }))
    }
}

/// An event of no stream: its name, and the number of the stream that is not there.
#[derive(Debug, Drop)]
pub struct Orphan {
    pub stream: u64,
    pub event: String,
}

/// A stream, or an event of it, that stands before with the same numbers.
#[derive(Clone, Copy, Debug)]
pub struct Numbered {
    pub stream: u64,
    pub event: Option<u64>,
}

impl Numbered {
    /// The fault of another one with these numbers, in words.
    pub fn words(&self, alloc: Global) -> Result<String, AllocError>
        ensures { IfOk result (λ said. string_bytes said ≡ twice_words self.now) }
    {
        let twice = MetaFaultKind::Duplicate.to_string(alloc)?;
        let stream = self.stream;
        match self.event {
            None => format!(in alloc; "{twice}: a stream with number {stream} stands before"),
            Some(event) => {
                format!(in alloc;
                    "{twice}: an event with number {event} in stream {stream} stands before"
                )
            }
        }
    }
}

/// A stream whose packet context has no member of this name, which is the one of a size.
#[derive(Clone, Copy, Debug)]
pub struct Sizeless {
    pub stream: u64,
    pub size: &'static str,
}

impl Sizeless {
    /// The fault of such a stream, in words.
    pub fn words(&self, alloc: Global) -> Result<String, AllocError>
        ensures { IfOk result (λ said. string_bytes said ≡ sizeless_words self.now) }
    {
        let Sizeless { stream, size } = *self;
        format!(in alloc; "the packet context of stream {stream} has no `{size}`")
    }
}

/// What can be done about a construct that is not read.
#[derive(Clone, Copy, Debug)]
pub enum Remedy {
    /// `babeltrace2 -o ctf` writes it in words that are read.
    Conversion,
    /// What these words tell is read in its place.
    Instead(&'static str),
    /// It is read with a type that these words tell.
    WithType(&'static str),
    /// It is read with this number.
    WithNumber(u64),
}

impl Remedy {
    /// How a construct is not read, and what is read.
    fn words(self, alloc: Global) -> Result<String, AllocError> {
        Ok(match self {
            Remedy::Conversion => format!(in alloc; "here{CONVERTED}")?,
            Remedy::Instead(expected) => format!(in alloc; "here: expected {expected}")?,
            Remedy::WithType(expected) => {
                format!(in alloc; "with this type: expected {expected}")?
            }
            Remedy::WithNumber(expected) => {
                format!(in alloc; "with this number: expected {expected}")?
            }
        })
    }
}

/// A flaw, the index of the atom at which it stands, and the index behind what it speaks of. The end of the text has the index behind the last atom.
#[derive(Debug, Drop)]
pub struct Fault {
    pub at: usize,
    pub end: usize,
    pub flaw: Flaw,
}

/// Why judging the atoms of a text stops.
#[derive(Debug, Drop)]
pub enum Stop {
    Fault(Fault),
    NoMemory,
}

impl Stop {
    /// A flaw of a tree that begins at an atom.
    pub fn at<T: Spelled>(at: usize, tree: &T, flaw: Flaw) -> Stop
        ensures { (front behind : List Atom) → IsWrong front (T.toks tree.now) (kind_of flaw) → StopsIn front at (T.toks tree.now ++ behind) result }
    {
        let end = at.saturating_add(tree.length());
        Stop::Fault(Fault { at, end, flaw })
    }

    /// A flaw at one atom.
    pub fn at_atom(at: usize, flaw: Flaw) -> Stop
        ensures { (front behind : List Atom) → (a : Atom) → IsWrong front (a ∷ []) (kind_of flaw) → StopsIn front at (a ∷ behind) result }
    {
        let end = at.saturating_add(1);
        Stop::Fault(Fault { at, end, flaw })
    }

    /// Something else than these words expect, where a tree begins at an atom.
    pub fn expected<T: Spelled>(at: usize, tree: &T, words: &'static str) -> Stop
        ensures { (front behind : List Atom) → IsMisfit front (T.toks tree.now) → StopsIn front at (T.toks tree.now ++ behind) result }
    {
        Stop::at(at, tree, Flaw::Syntax(words))
    }

    /// A name that begins at an atom and stands for a construct that is not read.
    pub fn unsupported(alloc: Global, at: usize, name: &Name, remedy: Remedy) -> Stop
        ensures { (front behind : List Atom) → StopsIn front at (name_toks name.now ++ behind) result }
    {
        match dotted(alloc, name) {
            Ok(written) => Stop::at(at, name, Flaw::Unsupported(written, remedy)),
            Err(_) => Stop::NoMemory,
        }
    }
}

impl From<AllocError> for Stop {
    ghost from_gives = { λ _ e. e ≡ stops.NoMemory };

    fn from(_e: AllocError) -> Stop {
        Stop::NoMemory
    }
}

impl<T: Drop> From<AllocFailed<T>> for Stop {
    ghost from_gives = { λ _ e. e ≡ stops.NoMemory };

    fn from(_e: AllocFailed<T>) -> Stop {
        Stop::NoMemory
    }
}

/// The words of a name with dots between them.
pub fn dotted(alloc: Global, name: &Name) -> Result<String, AllocError>
    ensures { IfOk result (λ dotted. string_bytes dotted ≡ written name.now) }
{
    let mut dotted = String::from_str(alloc, name.first.as_str())?;
    for word in name.rest.as_slice() {
        dotted.push_str(".")?;
        dotted.push_str(word.as_str())?;
    }
    Ok(dotted)
}
