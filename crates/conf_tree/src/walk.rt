//! The walk over a value that finds the first place which is nested too deep or holds no whole number.
ghost use Rattle.std.specs.Prelude.{◌≡◌, IfOk};
ghost use Rattle.serde_json.specs.Data.{object};
ghost use Rattle.serde_json.specs.View.{view, items_view, members_view};
ghost use Rattle.conf_tree.specs.Order.{Ascends, ItemsAscend};
ghost use Rattle.conf_tree.specs.Reading.{Gives};
ghost use Rattle.conf_tree.specs.Walk.{flaws, item_flaws, member_flaws, refusal};

use crate::{ConfFault, FaultKind};
use serde_json::{Map, Value};
use std::alloc::Global;

/// Refuses a value that nests deeper than `levels`, or that holds a number which is no whole one of 64 bits.
#[cycle(walk)]
pub(crate) fn check_value(alloc: Global, value: &Value, levels: usize) -> Result<(), ConfFault>
    ensures first { Gives (λ _. tt) result (refusal (flaws (view value.now) levels)) }
    ensures ordered { IfOk result (λ _. Ascends (view value.now)) }
{
    match value {
        Value::Number(number) if number.is_f64() => {
            Err(ConfFault::here(alloc, FaultKind::NotWhole))
        }
        Value::Array(items) if levels > 0 => check_items(alloc, items, levels - 1),
        Value::Object(members) if levels > 0 => check_members(alloc, members, levels - 1),
        Value::Array(_) | Value::Object(_) => Err(ConfFault::here(alloc, FaultKind::TooDeep)),
        Value::Null | Value::Bool(_) | Value::Number(_) | Value::String(_) => Ok(()),
    }
}

#[cycle(walk)]
fn check_items(alloc: Global, items: &Vec<Value>, levels: usize) -> Result<(), ConfFault>
    ensures first { Gives (λ _. tt) result
        (refusal (item_flaws (items_view items.now.items) 0 levels)) }
    ensures ordered { IfOk result (λ _. ItemsAscend (items_view items.now.items)) }
{
    for (index, item) in items.iter().enumerate() {
        if let Err(fault) = check_value(alloc, item, levels) {
            return Err(fault.inside(alloc, index));
        }
    }
    Ok(())
}

#[cycle(walk)]
fn check_members(
    alloc: Global,
    members: &Map<String, Value>,
    levels: usize,
) -> Result<(), ConfFault>
    ensures first { Gives (λ _. tt) result
        (refusal (member_flaws (members_view members.now.entries) levels)) }
    ensures ordered { IfOk result (λ _. Ascends (object (members_view members.now.entries))) }
{
    for (name, member) in members.iter() {
        if let Err(fault) = check_value(alloc, member, levels) {
            return Err(fault.in_property(alloc, name.as_str()));
        }
    }
    Ok(())
}
