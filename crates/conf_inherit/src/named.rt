//! The aliases that a value names, and what is asked of them.
ghost use Rattle.std.specs.Prelude.{◌≡◌};
ghost use Rattle.serde_json.specs.View.{view, items_view, members_view};
ghost use Rattle.conf_inherit.specs.{Asked.passes, Named.{all_named, all_named_in_items, all_named_in_members}};

use crate::field_places::{names_type, place_of_items, place_under};
use crate::outcomes::AliasOutcomes;
use crate::property::has;
use conf_table::Place;
use serde_json::{Map, Value};
use std::alloc::AllocError;

/// A question about the name of an alias.
#[derive(Clone, Copy)]
pub(crate) enum Asked<'a> {
    /// Whether the alias is resolved.
    IsResolved(&'a Map<String, Value>),
    /// Whether it is no alias, or is resolved, or can't be.
    IsOver {
        aliases: &'a Map<String, Value>,
        outcomes: &'a AliasOutcomes,
    },
}

impl Asked<'_> {
    /// Whether the answer is yes for the name.
    fn passes(self, name: &str) -> bool
        ensures { result ≡ passes self.entry name.now }
    {
        match self {
            Asked::IsResolved(resolved) => has(resolved, name),
            Asked::IsOver { aliases, outcomes } => {
                outcomes.has_outcome(name) || !has(aliases, name)
            }
        }
    }
}

/// Whether every text of a value that names an alias passes the test.
#[cycle(named)]
pub(crate) fn all_named(value: &Value, place: Place, asked: Asked) -> bool
    ensures { result ≡ all_named (passes asked.entry) place (view value.now) }
{
    match value {
        Value::Null | Value::Bool(_) | Value::Number(_) => true,
        Value::String(name) => { !names_type(place) || asked.passes(name.as_str()) }
        Value::Array(items) => all_named_in_items(items, place_of_items(place), asked),
        Value::Object(members) => all_named_in_members(members, place, asked),
    }
}

#[cycle(named)]
fn all_named_in_items(items: &Vec<Value>, place: Place, asked: Asked) -> bool
    ensures { result ≡ all_named_in_items (passes asked.entry) place (items_view items.now.items) }
{
    for item in items {
        if !all_named(item, place, asked) {
            return false;
        }
    }
    true
}

#[cycle(named)]
fn all_named_in_members(members: &Map<String, Value>, place: Place, asked: Asked) -> bool
    ensures { result ≡ all_named_in_members (passes asked.entry) place (members_view members.now.entries) }
{
    for (name, member) in members.iter() {
        if !all_named(member, place_under(place, name.as_str()), asked) {
            return false;
        }
    }
    true
}

/// Adds the texts of a value that name an alias and don't pass the test, until there are so many.
#[cycle(naming)]
pub(crate) fn push_failing(
    value: &Value,
    place: Place,
    asked: Asked,
    most: usize,
    names: &mut Vec<String>,
) -> Result<(), AllocError> {
    match value {
        Value::String(name) if names_type(place) && !asked.passes(name.as_str()) => {
            names.push(name.clone()?)?;
            Ok(())
        }
        Value::Array(items) => push_failing_items(items, place, asked, most, names),
        Value::Object(members) => push_failing_members(members, place, asked, most, names),
        _ => Ok(()),
    }
}

#[cycle(naming)]
fn push_failing_items(
    items: &Vec<Value>,
    place: Place,
    asked: Asked,
    most: usize,
    names: &mut Vec<String>,
) -> Result<(), AllocError> {
    for item in items {
        if names.len() >= most {
            break;
        }
        push_failing(item, place_of_items(place), asked, most, names)?;
    }
    Ok(())
}

#[cycle(naming)]
fn push_failing_members(
    members: &Map<String, Value>,
    place: Place,
    asked: Asked,
    most: usize,
    names: &mut Vec<String>,
) -> Result<(), AllocError> {
    for (name, member) in members.iter() {
        if names.len() >= most {
            break;
        }
        let inner = place_under(place, name.as_str());
        push_failing(member, inner, asked, most, names)?;
    }
    Ok(())
}
