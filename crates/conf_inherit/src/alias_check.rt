//! The first fault of the aliases, in byte order of their names.
ghost use Rattle.serde_json.specs.View.{view, members_view};
ghost use Rattle.conf_tree.specs.{Reading.Gives, Walk.refusal};
ghost use Rattle.conf_inherit.specs.{AliasOutcomes.outcomes_of, AliasFlaws.{alias_flaws, all_alias_flaws}};

use crate::flaws::check_type;
use crate::outcomes::{AliasOutcomes, Known};
use crate::property::has;
use conf_table::Place;
use conf_tree::{ConfFault, FaultKind};
use serde_json::{Map, Value};
use std::alloc::Global;

/// Refuses the first fault of an alias. One without an outcome leads into a circle, which is its fault, unless a fault
/// of its own stands before the text that does.
#[tactic(auto, unfolding(crate::specs::AliasFlaws::alias_flaws))]
fn check_alias(
    alloc: Global,
    name: &str,
    value: &Value,
    aliases: &Map<String, Value>,
    outcomes: &AliasOutcomes,
) -> Result<(), ConfFault>
    ensures first { Gives (λ _. tt) result (refusal (alias_flaws (members_view aliases.now.entries) (outcomes_of outcomes.now) name.now (view value.now))) }
{
    if has(&outcomes.resolved, name) {
        return Ok(());
    }
    let known = Known {
        alloc,
        aliases,
        resolved: &outcomes.resolved,
        outcomes: None,
        outside: false,
    };
    if has(&outcomes.refused, name) {
        return check_type(known, value, Place::FieldType);
    }
    let open = Known {
        outcomes: Some(outcomes),
        ..known
    };
    if let Err(fault) = check_type(open, value, Place::FieldType) {
        if !matches!(fault.kind, FaultKind::InheritCycle) {
            return Err(fault);
        }
    }
    Err(ConfFault::here(alloc, FaultKind::InheritCycle))
}

/// Refuses the first fault of the aliases.
pub(crate) fn check_aliases(
    alloc: Global,
    aliases: &Map<String, Value>,
    outcomes: &AliasOutcomes,
) -> Result<(), ConfFault>
    ensures first { Gives (λ _. tt) result (refusal (all_alias_flaws (members_view aliases.now.entries) (outcomes_of outcomes.now) (members_view aliases.now.entries))) }
{
    for (name, value) in aliases.iter() {
        if let Err(fault) = check_alias(alloc, name.as_str(), value, aliases, outcomes) {
            return Err(fault.in_property(alloc, name.as_str()));
        }
    }
    Ok(())
}
