//! The properties of JSON objects, by name.
ghost use Rattle.std.specs.Prelude.{◌≡◌, string_bytes, IfOk, OnOk, option_map};
ghost use Rattle.serde_json.specs.{Data.{Data, object, member, no_members, put}, Find.{get, get_member}, View.{view, members_view}};
ghost use Rattle.conf_inherit.specs.{Named.has, Spent.spent};

use serde_json::{Map, Value};
use std::alloc::{AllocError, Global};
use std::mem::replace;

/// The value of a property.
pub(crate) fn property<'v>(members: &'v Map<String, Value>, name: &str) -> Option<&'v Value>
    ensures { option_map (λ v. view v.now) result
        ≡ get_member name.now (members_view members.now.entries) }
{
    members.get(name)
}

/// Takes the value out of a property, which is null then.
pub(crate) fn take_property(members: &mut Map<String, Value>, name: &str) -> Option<Value>
    ensures found { option_map view result ≡ get_member name.now (members_view members.old.entries) }
    ensures others { (d : Data) → put name.now d (members_view members.new.entries) ≡ put name.now d (members_view members.old.entries) }
    ensures left { members_view members.new.entries ≡ spent name.now (members_view members.old.entries) }
{
    match members.get_mut(name) {
        Some(value) => Some(replace(value, Value::Null)),
        None => None,
    }
}

/// Puts a value into a property. The name is copied only where it is new.
pub(crate) fn put_property(
    members: &mut Map<String, Value>,
    name: &String,
    value: Value,
) -> Result<(), AllocError>
    ensures { OnOk result (members_view members.new.entries ≡ put (string_bytes name.now) (view value) (members_view members.old.entries)) }
{
    match members.get_mut(name.as_str()) {
        Some(place) => *place = value,
        None => drop(members.insert(name.clone()?, value)?),
    }
    Ok(())
}

/// An object of one property.
pub(crate) fn single(alloc: Global, name: String, value: Value) -> Result<Value, AllocError>
    ensures { IfOk result (λ made. view made
        ≡ object (member (string_bytes name) (view value) no_members)) }
{
    let mut members = Map::new(alloc);
    members.insert(name, value)?;
    Ok(Value::Object(members))
}

/// An object of one property, which is what is left of one that has that property alone.
pub(crate) fn only(
    alloc: Global,
    mut members: Map<String, Value>,
    name: &String,
    value: Value,
) -> Result<Value, AllocError>
    ensures { IfOk result (λ made. view made
        ≡ object (member (string_bytes name.now) (view value) no_members)) }
{
    if members.len() == 1 && has(&members, name.as_str()) {
        put_property(&mut members, name, value)?;
        return Ok(Value::Object(members));
    }
    single(alloc, name.clone()?, value)
}

/// Whether there is a property of the name.
pub(crate) fn has(members: &Map<String, Value>, name: &str) -> bool
    ensures { result ≡ has (members_view members.now.entries) name.now }
{
    property(members, name).is_some()
}
