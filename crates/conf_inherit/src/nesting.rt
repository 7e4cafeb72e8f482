//! How deep objects and lists nest.
ghost use Rattle.std.specs.Prelude.{◌≡◌, nat_lt};
ghost use Rattle.serde_json.specs.{Data.{depth, items_depth, members_depth}, View.{view, items_view, members_view}};
ghost use Rattle.conf_tree.specs.{Reading.Gives, Walk.refusal};
ghost use Rattle.conf_inherit.specs.Nesting.{deep_flaws, deep_item_flaws, deep_member_flaws};

use conf_tree::{ConfFault, FaultKind, MAX_LEVELS};
use serde_json::{Map, Value};
use std::alloc::Global;

/// The most levels of a resolved alias that is within the levels of every configuration: it stands inside the objects
/// of the aliases, the trace type, the trace and the configuration.
pub(crate) const ALIAS_LEVELS: usize = MAX_LEVELS - 4;

/// Whether objects and lists nest more levels deep.
#[cycle(deeper)]
#[tactic(auto, using(crate::proofs::SizeLemmas::deeper_flat, crate::proofs::SizeLemmas::deeper_inside))]
pub(crate) fn is_deeper(value: &Value, levels: usize) -> bool
    ensures { result ≡ nat_lt levels (depth (view value.now)) }
{
    match value {
        Value::Null | Value::Bool(_) | Value::Number(_) | Value::String(_) => false,
        Value::Array(items) => levels == 0 || are_items_deeper(items, levels - 1),
        Value::Object(members) => levels == 0 || are_members_deeper(members, levels - 1),
    }
}

#[cycle(deeper)]
#[tactic(auto, using(crate::proofs::SizeLemmas::deeper_flat, crate::proofs::SizeLemmas::deeper_first, crate::proofs::SizeLemmas::deeper_rest))]
fn are_items_deeper(items: &Vec<Value>, levels: usize) -> bool
    ensures { result ≡ nat_lt levels (items_depth (items_view items.now.items)) }
{
    for item in items {
        if is_deeper(item, levels) {
            return true;
        }
    }
    false
}

#[cycle(deeper)]
#[tactic(auto, using(crate::proofs::SizeLemmas::deeper_flat, crate::proofs::SizeLemmas::deeper_first, crate::proofs::SizeLemmas::deeper_rest))]
fn are_members_deeper(members: &Map<String, Value>, levels: usize) -> bool
    ensures { result ≡ nat_lt levels (members_depth (members_view members.now.entries)) }
{
    for (_name, member) in members.iter() {
        if is_deeper(member, levels) {
            return true;
        }
    }
    false
}

/// Refuses the first object or list that stands inside so many others, in walk order.
#[cycle(deepness)]
pub(crate) fn check_nesting(alloc: Global, value: &Value, levels: usize) -> Result<(), ConfFault>
    ensures first { Gives (λ _. tt) result (refusal (deep_flaws (view value.now) levels)) }
{
    match value {
        Value::Null | Value::Bool(_) | Value::Number(_) | Value::String(_) => Ok(()),
        _ if levels == 0 => Err(ConfFault::here(alloc, FaultKind::TooDeep)),
        Value::Array(items) => check_items_nesting(alloc, items, levels - 1),
        Value::Object(members) => check_members_nesting(alloc, members, levels - 1),
    }
}

#[cycle(deepness)]
fn check_items_nesting(alloc: Global, items: &Vec<Value>, levels: usize) -> Result<(), ConfFault>
    ensures first { Gives (λ _. tt) result (refusal (deep_item_flaws 0 (items_view items.now.items) levels)) }
{
    for (index, item) in items.iter().enumerate() {
        if let Err(fault) = check_nesting(alloc, item, levels) {
            return Err(fault.inside(alloc, index));
        }
    }
    Ok(())
}

#[cycle(deepness)]
fn check_members_nesting(
    alloc: Global,
    members: &Map<String, Value>,
    levels: usize,
) -> Result<(), ConfFault>
    ensures first { Gives (λ _. tt) result (refusal (deep_member_flaws (members_view members.now.entries) levels)) }
{
    for (name, member) in members.iter() {
        if let Err(fault) = check_nesting(alloc, member, levels) {
            return Err(fault.in_property(alloc, name.as_str()));
        }
    }
    Ok(())
}
