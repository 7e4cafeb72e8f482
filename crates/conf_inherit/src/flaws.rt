//! The first flaw of a value, in walk order.
ghost use Rattle.std.specs.Prelude.{◌≡◌, ◌+◌, ◌&&◌, ◌++◌, Some, false, OnOk, is_some};
ghost use Rattle.serde_json.specs.{Data.no_members, Find.get_member, View.{view, items_view, members_view}};
ghost use Rattle.conf_inherit.specs.{Asked.asked_of, SeenNames.seen_names, FieldPlaces.{place_under, is_entry}, Limits.limit_flaws};
ghost use Rattle.conf_inherit.specs.Flaws.{is_wrong, is_no_entry, name_fault, is_crowded, own_flaws, alone_flaws, is_outside, value_flaws, item_flaws, member_flaws, mark};
ghost use Rattle.conf_tree.specs.{Reading.Gives, Walk.refusal};

use crate::field_places::{
    is_base_name, is_entry, lists_extra_members, lists_members, names_member_type, names_type,
    place_of_items, place_under,
};
use crate::limits::check_limits;
use crate::outcomes::Known;
use conf_table::Place;
use conf_tree::{ConfFault, FaultKind};
use ctf_types::MAX_CONFIG_MEMBERS;
use serde_json::{Map, Value};
use std::alloc::AllocError;
use std::collections::BTreeMap;

/// Whether a value is of another kind than its place asks for.
fn is_wrong(value: &Value, place: Place) -> bool
    ensures { result ≡ is_wrong place (view value.now) }
{
    (lists_members(place) && !matches!(value, Value::Null | Value::Array(_)))
        || (is_entry(place) && is_no_entry(value))
        || (names_member_type(place) && !matches!(value, Value::String(_) | Value::Object(_)))
}

/// Whether a value is no object of one property.
fn is_no_entry(value: &Value) -> bool
    ensures { result ≡ is_no_entry (view value.now) }
{
    match value {
        Value::Object(members) => members.len() != 1,
        _ => true,
    }
}

/// What is wrong with a text that has to be the name of a type.
fn name_fault(known: Known, value: &Value, place: Place) -> Option<FaultKind>
    ensures { result ≡ name_fault (asked_of known.entry) place (view value.now) }
{
    match value {
        Value::String(name) if names_type(place) => known.fault_of(name.as_str()),
        _ => None,
    }
}

/// Whether a value lists more extra members than a packet context may have.
#[tactic(auto, using(crate::proofs::FaultLemmas::counted))]
fn is_crowded(value: &Value, place: Place) -> bool
    ensures { result ≡ is_crowded place (view value.now) }
{
    let Value::Array(items) = value else {
        return false;
    };
    lists_extra_members(place) && items.len() > MAX_CONFIG_MEMBERS
}

/// Refuses the first flaw of a value itself, where its name may be taken.
#[tactic(auto, unfolding(crate::specs::Flaws::own_flaws))]
fn check_itself(known: Known, value: &Value, place: Place, taken: bool) -> Result<(), ConfFault>
    ensures first { Gives (λ _. tt) result (refusal (own_flaws (asked_of known.entry) place taken (view value.now))) }
{
    if is_wrong(value, place) {
        return Err(ConfFault::here(known.alloc, FaultKind::WrongKind));
    }
    if let Some(kind) = name_fault(known, value, place) {
        return Err(ConfFault::here(known.alloc, kind));
    }
    if taken {
        return Err(ConfFault::here(known.alloc, FaultKind::NameClash));
    }
    if is_crowded(value, place) {
        return Err(ConfFault::here(known.alloc, FaultKind::Limit));
    }
    Ok(())
}

/// Adds the name of an entry to those of the entries so far.
#[tactic(auto, using(crate::proofs::FaultLemmas::noted))]
fn mark<'a>(entry: &'a Value, seen: &mut BTreeMap<&'a str, ()>) -> Result<(), AllocError>
    ensures { OnOk result (seen_names seen.new ≡ mark (view entry.now) (seen_names seen.old)) }
{
    let Value::Object(members) = entry else {
        return Ok(());
    };
    for (name, _value) in members.iter() {
        drop(seen.insert(name.as_str(), ())?);
    }
    Ok(())
}

/// Refuses the first flaw of a value and all that is in it, the limits of the field types that are no part of another
/// among them. `seen` has the names of the entries before it.
#[cycle(flaws)]
#[tactic(auto, using(crate::proofs::FaultLemmas::refused_first, crate::proofs::FaultLemmas::refused_later, crate::proofs::FaultLemmas::unlisted))]
fn check_flaws(
    known: Known,
    value: &Value,
    place: Place,
    taken: bool,
    seen: &BTreeMap<&str, ()>,
) -> Result<(), ConfFault>
    ensures first { Gives (λ _. tt) result (refusal (value_flaws (asked_of known.entry) (Some (members_view known.entry.resolved.now.entries)) known.entry.outside place taken (seen_names seen.now) (view value.now))) }
{
    check_itself(known, value, place, taken)?;
    match value {
        Value::Null | Value::Bool(_) | Value::Number(_) | Value::String(_) => Ok(()),
        Value::Array(items) if lists_members(place) => check_items(known, items, place),
        Value::Array(_) => Ok(()),
        Value::Object(members) => check_members(known, members, place, seen),
    }
}

#[cycle(flaws)]
fn check_items(known: Known, items: &Vec<Value>, place: Place) -> Result<(), ConfFault>
    ensures first { Gives (λ _. tt) result (refusal (item_flaws (asked_of known.entry) (Some (members_view known.entry.resolved.now.entries)) known.entry.outside place 0 no_members (items_view items.now.items))) }
{
    let mut seen = BTreeMap::new(known.alloc);
    for (index, item) in items.iter().enumerate() {
        if let Err(fault) = check_flaws(known, item, place_of_items(place), false, &seen) {
            return Err(fault.inside(known.alloc, index));
        }
        mark(item, &mut seen).map_err(|_| ConfFault::memory(known.alloc))?;
    }
    Ok(())
}

#[cycle(flaws)]
fn check_members(
    known: Known,
    members: &Map<String, Value>,
    place: Place,
    seen: &BTreeMap<&str, ()>,
) -> Result<(), ConfFault>
    ensures first { Gives (λ _. tt) result (refusal (member_flaws (asked_of known.entry) (Some (members_view known.entry.resolved.now.entries)) known.entry.outside place (seen_names seen.now) (members_view members.now.entries))) }
{
    for (name, member) in members.iter() {
        if let Err(fault) = check_member(known, name.as_str(), member, place, seen) {
            return Err(fault.in_property(known.alloc, name.as_str()));
        }
    }
    Ok(())
}

/// Refuses the first flaw of a property's value and all that is in it, and then the limit that it passes, if it is a
/// field type that is no part of another.
#[cycle(flaws)]
#[tactic(auto, using(crate::proofs::FaultLemmas::refused_first, crate::proofs::FaultLemmas::refused_later), unfolding(crate::specs::Flaws::alone_flaws))]
fn check_member(
    known: Known,
    name: &str,
    member: &Value,
    place: Place,
    seen: &BTreeMap<&str, ()>,
) -> Result<(), ConfFault>
    ensures first { Gives (λ _. tt) result (refusal (value_flaws (asked_of known.entry) (Some (members_view known.entry.resolved.now.entries)) (is_outside known.entry.outside (place_under place name.now)) (place_under place name.now) (is_entry place && is_some (get_member name.now (seen_names seen.now))) no_members (view member.now) ++ alone_flaws (Some (members_view known.entry.resolved.now.entries)) known.entry.outside place name.now (view member.now))) }
{
    let taken = is_taken(name, place, seen);
    let nothing = BTreeMap::new(known.alloc);
    let inner = place_under(place, name);
    let within = Known {
        outside: known.outside && !names_type(inner),
        ..known
    };
    check_flaws(within, member, inner, taken, &nothing)?;
    if is_base_name(place, name) || (known.outside && names_type(inner)) {
        return check_limits(known.alloc, member, inner, known.resolved);
    }
    Ok(())
}

/// Whether the name of an entry is taken by one before it.
fn is_taken(name: &str, place: Place, seen: &BTreeMap<&str, ()>) -> bool
    ensures { result ≡ (is_entry place && is_some (get_member name.now (seen_names seen.now))) }
{
    is_entry(place) && seen.contains_key(name)
}

/// Refuses the first flaw of a value as a whole.
pub(crate) fn check_value(known: Known, value: &Value, place: Place) -> Result<(), ConfFault>
    ensures first { Gives (λ _. tt) result (refusal (value_flaws (asked_of known.entry) (Some (members_view known.entry.resolved.now.entries)) known.entry.outside place false no_members (view value.now))) }
{
    let nothing = BTreeMap::new(known.alloc);
    check_flaws(known, value, place, false, &nothing)
}

/// Refuses the first flaw of a field type, or else the limit that it passes.
#[tactic(auto, using(crate::proofs::FaultLemmas::refused_later))]
pub(crate) fn check_type(known: Known, value: &Value, place: Place) -> Result<(), ConfFault>
    ensures first { Gives (λ _. tt) result (refusal (value_flaws (asked_of known.entry) (Some (members_view known.entry.resolved.now.entries)) known.entry.outside place false no_members (view value.now) ++ limit_flaws (members_view known.entry.resolved.now.entries) place (view value.now))) }
{
    check_value(known, value, place)?;
    check_limits(known.alloc, value, place, known.resolved)
}
