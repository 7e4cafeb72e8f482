//! The names that have stood so far.

ghost use Rattle.std.specs.Prelude.{[], ◌∷◌, ◌++◌, IfOk, IfErr};
ghost use Rattle.tsdl_meaning.specs.Words.{Mark, mark, name_toks, StopsWhere, AreNamed, HasNames, AddsName};

use std::alloc::Global;
use std::collections::BTreeSet;
use tsdl_flaw::{Fault, Flaw, Spelled, Stop, dotted};
use tsdl_grammar::Name;

/// Names as they are written, of which none stands twice.
#[derive(Drop)]
pub(crate) struct Names {
    names: BTreeSet<String>,
}

impl Names {
    pub(crate) fn new(alloc: Global) -> Names
        ensures { HasNames result.names [] }
    {
        Names {
            names: BTreeSet::new(alloc),
        }
    }

    /// Adds a name, of which the first word has this index, and its mark stands behind it.
    pub(crate) fn add(&mut self, alloc: Global, name: &Name, at: usize) -> Result<(), Stop>
        ensures fault { IfErr result (λ s. (sign : Mark) → StopsWhere (λ front. AreNamed front sign self.old.names) at (name_toks name.now ++ mark sign ∷ []) s) }
        ensures flawless { IfOk result (λ _. AddsName self.old.names name.now self.new.names) }
    {
        let written = dotted(alloc, name)?;
        if self.names.insert(written)? {
            return Ok(());
        }
        let end = at.saturating_add(name.length()).saturating_add(1);
        let flaw = Flaw::Duplicate;
        Err(Stop::Fault(Fault { at, end, flaw }))
    }
}
