//! The limits of a field type, once it is resolved.
ghost use Rattle.std.specs.Prelude.{◌≡◌, Ok, Err, None, IfOk, IfErr, MatchResult};
ghost use Rattle.serde_json.specs.{Data.string, View.{view, members_view}};
ghost use Rattle.conf_tree.specs.{Flaw.IsMemory, Reading.Gives, Walk.refusal};
ghost use Rattle.conf_inherit.specs.{Laying.{lay, resolved}, Limits.{fitting, passed, limit_flaws}};

use crate::field_places::names_alias;
use crate::laying::lay;
use crate::named::{Asked, all_named};
use crate::nesting::is_deeper;
use crate::property::property;
use crate::size::{Stop, count};
use conf_table::Place;
use conf_tree::{ConfFault, FaultKind, MAX_LEVELS, MAX_VALUES};
use serde_json::{Map, Value};
use std::alloc::Global;

/// Refuses a field type that passes a limit, if all aliases that it names are resolved. One that is the name of an
/// alias is not copied.
pub(crate) fn check_limits(
    alloc: Global,
    value: &Value,
    place: Place,
    resolved: &Map<String, Value>,
) -> Result<(), ConfFault>
    ensures first { Gives (λ _. tt) result (refusal (limit_flaws (members_view resolved.now.entries) place (view value.now))) }
{
    if !all_named(value, place, Asked::IsResolved(resolved)) {
        return Ok(());
    }
    if names_alias(place) {
        if let Value::String(name) = value {
            return check_alias_limits(alloc, resolved, name.as_str());
        }
    }
    match fit(alloc, value, place, resolved)? {
        Ok(_) => Ok(()),
        Err(kind) => Err(ConfFault::here(alloc, kind)),
    }
}

/// The type laid over what it inherits from, or the limit that it passes. What it inherits from fits by itself, so
/// nothing that is made on the way holds more than a few times as many values as a type may.
pub(crate) fn fit(
    alloc: Global,
    value: &Value,
    place: Place,
    resolved: &Map<String, Value>,
) -> Result<Result<Value, FaultKind>, ConfFault>
    ensures answer { IfOk result (λ answer. MatchResult answer
        (λ laid. fitting (lay (members_view resolved.now.entries) place (view value.now) None) ≡ Ok (view laid))
        (λ kind. fitting (lay (members_view resolved.now.entries) place (view value.now) None) ≡ Err kind)) }
    ensures memory { IfErr result IsMemory }
{
    match lay(alloc, place, value, None, resolved, Some(MAX_VALUES)) {
        Ok(laid) if is_deeper(&laid, MAX_LEVELS) => Ok(Err(FaultKind::TooDeep)),
        Ok(laid) => Ok(Ok(laid)),
        Err(Stop::Limit) => Ok(Err(FaultKind::Limit)),
        Err(Stop::Memory) => Err(ConfFault::memory(alloc)),
    }
}

/// Refuses a resolved alias that passes a limit.
#[tactic(auto, unfolding(crate::specs::FieldPlaces::names_alias))]
fn check_alias_limits(
    alloc: Global,
    aliases: &Map<String, Value>,
    name: &str,
) -> Result<(), ConfFault>
    ensures first { Gives (λ _. tt) result (refusal (passed (fitting (lay (members_view aliases.now.entries) Place.FieldType (string name.now) None)))) }
{
    let Some(alias) = property(aliases, name) else {
        return Ok(());
    };
    if count(alias, MAX_VALUES).is_none() {
        return Err(ConfFault::here(alloc, FaultKind::Limit));
    }
    if is_deeper(alias, MAX_LEVELS) {
        return Err(ConfFault::here(alloc, FaultKind::TooDeep));
    }
    Ok(())
}
