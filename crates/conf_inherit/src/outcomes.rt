//! What became of the aliases so far.
ghost use Rattle.std.specs.Prelude.{◌≡◌, ◌≤◌, true};
ghost use Rattle.serde_json.specs.{Data.members_depth, View.members_view};
ghost use Rattle.conf_inherit.specs.declared.nesting.TheConstants.{ALIAS_LEVELS};

use crate::nesting::{ALIAS_LEVELS, is_deeper};
use crate::property::{has, put_property};
use conf_tree::FaultKind;
use serde_json::{Map, Value};
use std::alloc::{AllocError, Global};

/// The aliases that are resolved, and those that can't be.
#[derive(Drop)]
pub(crate) struct AliasOutcomes {
    /// Each resolved alias.
    pub resolved: Map<String, Value>,
    /// The name of each alias that can't be resolved, with null.
    pub refused: Map<String, Value>,
    /// Whether each resolved alias is known to nest at most `ALIAS_LEVELS` levels.
    pub shallow: bool,
    ghost nested: { shallow ≡ true → members_depth (members_view resolved.entries) ≤ ALIAS_LEVELS },
}

/// The aliases that a value may name, and those of them that are resolved.
#[derive(Clone, Copy)]
pub(crate) struct Known<'a, 'o> {
    pub alloc: Global,
    pub aliases: &'a Map<String, Value>,
    pub resolved: &'a Map<String, Value>,
    /// What became of the aliases, where the name of one without an outcome is a fault.
    pub outcomes: Option<&'o AliasOutcomes>,
    /// Whether the value stands outside of all field types, so that the limits of those in it count.
    pub outside: bool,
}

impl Known<'_, '_> {
    ghost use Rattle.std.specs.Prelude.{◌≡◌};
    ghost use Rattle.conf_inherit.specs.Asked.{asked_of};

    /// What is wrong with the name of a type.
    pub(crate) fn fault_of(self, name: &str) -> Option<FaultKind>
        ensures { result ≡ asked_of self.entry name.now }
    {
        if !has(self.aliases, name) {
            return Some(FaultKind::NoSuchAlias);
        }
        match self.outcomes {
            Some(outcomes) if !outcomes.has_outcome(name) => Some(FaultKind::InheritCycle),
            _ => None,
        }
    }
}

impl AliasOutcomes {
    ghost use Rattle.std.specs.Prelude.{◌≡◌, OnOk, string_bytes, None, Some};
    ghost use Rattle.serde_json.specs.View.{view};
    ghost use Rattle.conf_inherit.specs.AliasOutcomes.{outcomes_of};
    ghost use Rattle.conf_inherit.specs.Rounds.{has_outcome, concluded, no_outcomes};

    /// No alias has an outcome yet.
    pub(crate) fn new(alloc: Global) -> AliasOutcomes
        ensures { outcomes_of result ≡ no_outcomes }
    {
        AliasOutcomes {
            resolved: Map::new(alloc),
            refused: Map::new(alloc),
            shallow: true,
        }
    }

    /// Whether the alias has an outcome.
    pub(crate) fn has_outcome(&self, name: &str) -> bool
        ensures { result ≡ has_outcome (outcomes_of self.now) name.now }
    {
        has(&self.resolved, name) || has(&self.refused, name)
    }

    /// Notes that the alias is resolved.
    #[tactic(auto, using(crate::proofs::SizeLemmas::depth_put))]
    pub(crate) fn resolve(&mut self, name: &String, alias: Value) -> Result<(), AllocError>
        ensures { OnOk result (outcomes_of self.new ≡ concluded (string_bytes name.now) (outcomes_of self.old) (Some (view alias))) }
    {
        let shallow = self.shallow && !is_deeper(&alias, ALIAS_LEVELS);
        // Of an alias that may be in or not, where memory runs out, nothing is said.
        self.shallow = false;
        put_property(&mut self.resolved, name, alias)?;
        self.shallow = shallow;
        Ok(())
    }

    /// Notes that the alias can't be resolved.
    #[tactic(auto, using(crate::proofs::SpentLemmas::view_null))]
    pub(crate) fn refuse(&mut self, name: &String) -> Result<(), AllocError>
        ensures { OnOk result (outcomes_of self.new ≡ concluded (string_bytes name.now) (outcomes_of self.old) None) }
    {
        put_property(&mut self.refused, name, Value::Null)?;
        Ok(())
    }
}
