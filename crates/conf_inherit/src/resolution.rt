//! Resolves the inheritance of a configuration.
ghost use Rattle.std.specs.Prelude.{◌≡◌, ◌≤◌, ◌⊎◌, ℕ, Some, None, IfOk, IfErr, true, map};
ghost use Rattle.conf_tree.specs.{Flaw.{flaw_of, IsMemory}, Reading.Gives};
ghost use Rattle.conf_inherit.specs.{AliasOutcomes.outcomes_of, Whole.{at_way, with_object, with_aliases, AreLaid}, declared.nesting.TheConstants.ALIAS_LEVELS};
ghost use Rattle.conf_inherit.specs.{FaultOrder.IsToldInTurn, Faults.RefusalHolds, Laying.lay, Rounds.{rounds, no_outcomes}, Spent.Spends};
ghost use Rattle.conf_inherit.specs.{Names.NoClash, Resolution.{aliases_of, members_or_none, Resolves, in_aliases, if_shallow, resolution_after, resolution}};
ghost use Rattle.serde_json.specs.{Data.{Members, no_members, members_depth}, View.{view, members_view}};

use crate::alias_check::check_aliases;
use crate::flaws::check_value;
use crate::laying::lay;
use crate::nesting::{ALIAS_LEVELS, check_nesting};
use crate::outcomes::{AliasOutcomes, Known};
use crate::rounds::settle_aliases;
use crate::size::Stop;
use conf_table::Place;
use conf_tree::{ConfFault, MAX_LEVELS, Tree};
use serde_json::{Map, Value};
use std::alloc::Global;
use std::mem::replace;

/// Puts these aliases in the place of those of a configuration, and answers what they were. Where no object stands
/// there, there were none, and nothing is put.
#[tactic(auto, unfolding(crate::specs::Whole::with_aliases, crate::specs::Resolution::trace_name, crate::specs::Resolution::type_name, crate::specs::Resolution::aliases_name))]
fn replace_aliases(
    alloc: Global,
    value: &mut Value,
    aliases: Map<String, Value>,
) -> Map<String, Value>
    ensures old { members_view result.entries ≡ aliases_of (view value.old) }
    ensures new { view value.new ≡ with_aliases (members_view aliases.entries) (view value.old) }
{
    replace_object(
        alloc,
        &["trace", "type", "$field-type-aliases"],
        value,
        aliases,
    )
}

/// Puts these properties in the place of those of the object that the way leads to.
#[cycle(way)]
fn replace_object(
    alloc: Global,
    way: &[&str],
    value: &mut Value,
    properties: Map<String, Value>,
) -> Map<String, Value>
    ensures old { members_view result.entries ≡ members_or_none (at_way (map (λ name. name.now) way.now) (Some (view value.old))) }
    ensures new { view value.new ≡ with_object (map (λ name. name.now) way.now) (members_view properties.entries) (view value.old) }
{
    let Some(members) = value.as_object_mut() else {
        return Map::new(alloc);
    };
    let Some((name, rest)) = way.split_first() else {
        return replace(members, properties);
    };
    match members.get_mut(*name) {
        Some(inner) => replace_object(alloc, rest, inner, properties),
        None => Map::new(alloc),
    }
}

/// The fault of an alias, seen from the configuration.
#[tactic(auto, unfolding(crate::specs::Resolution::trace_name, crate::specs::Resolution::type_name, crate::specs::Resolution::aliases_name))]
fn in_aliases(alloc: Global, fault: ConfFault) -> ConfFault
    ensures moved { IsMemory fault ⊎ IsMemory result ⊎ (flaw_of result ≡ in_aliases (flaw_of fault)) }
    ensures memory { IsMemory fault → IsMemory result }
{
    fault
        .in_property(alloc, "$field-type-aliases")
        .in_property(alloc, "type")
        .in_property(alloc, "trace")
}

/// The resolved configuration, unless it nests too deep. Each field type in it is within the limits, so none holds
/// for the whole. `shallow` says that each resolved alias is known to nest at most `ALIAS_LEVELS` levels: what stands
/// in such ones is not too deep, so the rest alone is asked.
fn lay_all(
    alloc: Global,
    value: &Value,
    resolved: Map<String, Value>,
    shallow: bool,
) -> Result<Value, ConfFault>
    requires bare { with_aliases no_members (view value.now) ≡ view value.now }
    requires shallow { shallow ≡ true → members_depth (members_view resolved.entries) ≤ ALIAS_LEVELS }
    ensures first { (al : Members) → AreLaid (members_view resolved.entries) al
        → Gives view result (if_shallow (lay (members_view resolved.entries) Place.Root (with_aliases al (view value.now)) None)) }
{
    let mut laid = match lay(alloc, Place::Root, value, None, &resolved, None) {
        Ok(laid) => laid,
        Err(Stop::Memory) => return Err(ConfFault::memory(alloc)),
        Err(Stop::Limit) => unreachable!(),
    };
    if shallow {
        check_nesting(alloc, &laid, MAX_LEVELS)?;
        drop(replace_aliases(alloc, &mut laid, resolved));
        return Ok(laid);
    }
    drop(replace_aliases(alloc, &mut laid, resolved));
    check_nesting(alloc, &laid, MAX_LEVELS)?;
    Ok(laid)
}

/// The resolution where the aliases have these outcomes, and those that are resolved are spent.
fn resolve_after(
    alloc: Global,
    value: &Value,
    aliases: &Map<String, Value>,
    outcomes: AliasOutcomes,
) -> Result<Value, ConfFault>
    requires bare { with_aliases no_members (view value.now) ≡ view value.now }
    ensures first { (al : Members) (n : ℕ) → NoClash al → outcomes_of outcomes ≡ rounds al n no_outcomes
        → Spends (members_view outcomes.resolved.entries) al (members_view aliases.now.entries)
        → Gives view result (resolution_after al (outcomes_of outcomes) (with_aliases al (view value.now))) }
{
    if let Err(fault) = check_aliases(alloc, aliases, &outcomes) {
        return Err(in_aliases(alloc, fault));
    }
    let known = Known {
        alloc,
        aliases,
        resolved: &outcomes.resolved,
        outcomes: None,
        outside: true,
    };
    check_value(known, value, Place::Root)?;
    let AliasOutcomes {
        resolved,
        refused: _,
        shallow,
    } = outcomes;
    lay_all(alloc, value, resolved, shallow)
}

/// The configuration with every inheritance resolved: each property has the value that is looked up along what its
/// object inherits from (barectf 3.1, "Field type inheritance"). The tree is spent on a refusal, which names the first
/// fault: those of the aliases in byte order of their names, then those of the other places in walk order, and last
/// the first place in the resolved tree that stands inside `MAX_LEVELS` objects and lists. It takes as long as the text and what
/// its field types hold once they are resolved.
pub fn resolve(alloc: Global, tree: Tree) -> Result<Tree, ConfFault>
    ensures resolved { IfOk result (λ made. Resolves (view tree.value) (view made.value)) }
    ensures refused { IfErr result (λ fault. IsMemory fault ⊎ RefusalHolds (view tree.value) (flaw_of fault)) }
    ensures first { Gives (λ made. view made.value) result (resolution (view tree.value)) }

    // Where anything is wrong with the tree as given, that is told, and not that it resolves to what nests too deep; where anything
    // is wrong in an alias, what is told lies in one; and nothing is wrong in the aliases before that, but maybe a limit.
    ensures in_turn { IfErr result (λ fault. IsMemory fault ⊎ IsToldInTurn (view tree.value) (flaw_of fault)) }
{
    let Tree { mut value } = tree;
    let mut aliases = replace_aliases(alloc, &mut value, Map::new(alloc));
    let outcomes = settle_aliases(alloc, &mut aliases)?;
    let value = resolve_after(alloc, &value, &aliases, outcomes)?;
    Ok(Tree { value })
}
