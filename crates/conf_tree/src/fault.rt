//! A fault of a configuration: what is wrong, and where.
ghost use Rattle.std.specs.{Fmt.WritesOnOk, Prelude.{◌≡◌, ◌⊎◌, ◌↔◌, IsTrue, map}};
ghost use Rattle.conf_tree.specs.{FaultWords.way_words, Flaw.place_of};

use crate::{FaultKind, Path, Step};
use std::alloc::Global;
use std::fmt;

/// Why a configuration was refused.
#[derive(Debug, Drop)]
pub struct ConfFault {
    /// The way from the outermost value to the place. Want of memory has no place.
    pub path: Path,
    pub kind: FaultKind,
}

impl ConfFault {
    ghost use Rattle.conf_tree.specs.Flaw.{flaw_of, here, within, key, index as item, place_of, IsMemory};

    /// A fault of the value itself that is being read.
    pub fn here(alloc: Global, kind: FaultKind) -> ConfFault
        ensures { flaw_of result ≡ here kind }
    {
        ConfFault {
            path: Path::new(alloc),
            kind,
        }
    }

    /// Want of memory.
    pub fn memory(alloc: Global) -> ConfFault
        ensures { IsMemory result }
    {
        ConfFault::here(alloc, FaultKind::OutOfMemory)
    }

    /// Whether memory ran out, of which the configuration is innocent.
    pub fn is_memory(&self) -> bool
        ensures { IsTrue result ↔ IsMemory self.now }
    {
        self.kind == FaultKind::OutOfMemory && self.path.is_empty()
    }

    /// The same fault, seen from the list whose item at `index` has it, or want of memory for the step.
    /// Want of memory stays without a place.
    pub fn inside(self, alloc: Global, index: usize) -> ConfFault
        ensures moved { IsMemory result ⊎ (flaw_of result ≡ within (item index) (flaw_of self)) }
        ensures memory { IsMemory self → IsMemory result }
    {
        self.behind(alloc, Step::Index(index))
    }

    /// The same fault, seen from the object whose property `name` has it, or want of memory for the step.
    /// Want of memory stays without a place.
    pub fn in_property(self, alloc: Global, name: &str) -> ConfFault
        ensures moved { IsMemory result ⊎ (flaw_of result ≡ within (key name.now) (flaw_of self)) }
        ensures memory { IsMemory self → IsMemory result }
    {
        match String::from_str(alloc, name) {
            Ok(name) => self.behind(alloc, Step::Key(name)),
            Err(_) => ConfFault::memory(alloc),
        }
    }

    fn behind(self, alloc: Global, step: Step) -> ConfFault
        ensures moved { IsMemory result ⊎ (flaw_of result ≡ within (place_of step) (flaw_of self)) }
        ensures memory { IsMemory self → IsMemory result }
    {
        if self.is_memory() {
            return self;
        }
        let ConfFault { path, kind } = self;
        match path.behind(step) {
            Ok(path) => ConfFault { path, kind },
            Err(_) => ConfFault::memory(alloc),
        }
    }
}

/// The steps joined by `/`, and then what is wrong. Without steps, what is wrong alone.
impl fmt::Display for ConfFault {
    ghost use Rattle.std.specs.Prelude.{Some};
    ghost use Rattle.conf_tree.specs.{Flaw.flaw_of, FaultWords.flaw_words};

    ghost output = { λ fault. Some (flaw_words (flaw_of fault)) };

    fn fmt<W: fmt::Write>(&self, f: &mut fmt::Formatter<W>) -> fmt::Result {
        write_way(self.path.as_slice(), f)?;
        write!(f, "{}", self.kind)
    }
}

/// The steps joined by `/`, and `: ` behind them. Nothing of no steps.
fn write_way<W: fmt::Write>(path: &[Step], f: &mut fmt::Formatter<W>) -> fmt::Result
    ensures { WritesOnOk W.write_str_gives f.old result (way_words (map place_of path.now)) f.new }
{
    let Some((first, others)) = path.split_first() else {
        return Ok(());
    };
    write!(f, "{first}")?;
    for step in others {
        write!(f, "/{step}")?;
    }
    f.write_str(": ")
}

impl std::error::Error for ConfFault {}
