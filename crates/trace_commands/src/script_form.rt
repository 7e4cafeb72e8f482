//! Where a script is not of a script's form: the property, what stands there, and what was expected.

use conf_fault::push_cut;
use conf_tree::{member, optional};
use serde_json::{Map, Value};
use std::alloc::{AllocError, Global};
use trace_text::{Presence, PropertyKind, ScriptObject, ScriptProperty};

/// Adds the first property at which an event's entry is not of a script's form. An entry that is no object has none: nothing is added, and the answer is false.
pub fn push_event_property(
    alloc: Global,
    said: &mut String,
    entry: &Value,
) -> Result<bool, AllocError> {
    let Some(members) = entry.as_object() else {
        return Ok(false);
    };
    if let Some(act) = known_name(members, ScriptObject::Doing) {
        return push_act(alloc, said, members, act);
    }
    let added = push_members(alloc, said, members, ScriptObject::Tracing)?;
    if member(members, "trace").is_none() {
        said.push_str(", or alone one of ")?;
        push_names(said, ScriptObject::Doing)?;
    }
    Ok(added)
}

/// Adds the first property at which an object is not of its form. A value that is no object has none: nothing is added, and the answer is false.
pub fn push_property(
    alloc: Global,
    said: &mut String,
    value: &Value,
    object: ScriptObject,
) -> Result<bool, AllocError> {
    match value.as_object() {
        Some(members) => push_members(alloc, said, members, object),
        None => Ok(false),
    }
}

fn push_members(
    alloc: Global,
    said: &mut String,
    members: &Map<String, Value>,
    object: ScriptObject,
) -> Result<bool, AllocError> {
    if let Some(name) = other_name(members, object) {
        push_cut(said, name)?;
        said.push_str(": unknown property: expected ")?;
        push_names(said, object)?;
        return Ok(true);
    }
    match wrong_kind(members, object) {
        Some(property) => push_kind(alloc, said, members, property)?,
        None => return push_reading(alloc, said, members),
    }
    Ok(true)
}

/// Adds what stands beside an act, or what the act is in place of a stream's name.
fn push_act(
    alloc: Global,
    said: &mut String,
    members: &Map<String, Value>,
    act: &str,
) -> Result<bool, AllocError> {
    for (name, _value) in members.iter() {
        if name.as_str() != act {
            push_cut(said, name.as_str())?;
            let text = format!(in alloc; ": beside `{act}`: expected `{act}` alone")?;
            said.push_str(text.as_str())?;
            return Ok(true);
        }
    }
    push_members(alloc, said, members, ScriptObject::Doing)
}

/// The first name of a property that such an object can have.
fn known_name(members: &Map<String, Value>, object: ScriptObject) -> Option<&str> {
    for (name, _value) in members.iter() {
        if object.has(name.as_str()) {
            return Some(name.as_str());
        }
    }
    None
}

/// The first name of a property that such an object cannot have.
fn other_name(members: &Map<String, Value>, object: ScriptObject) -> Option<&str> {
    for (name, _value) in members.iter() {
        if !object.has(name.as_str()) {
            return Some(name.as_str());
        }
    }
    None
}

/// Adds the names of the properties that such an object can have.
fn push_names(said: &mut String, object: ScriptObject) -> Result<(), AllocError> {
    for (index, (name, _, _)) in object.properties().iter().enumerate() {
        if index > 0 {
            said.push_str(", ")?;
        }
        said.push('`')?;
        said.push_str(name)?;
        said.push('`')?;
    }
    Ok(())
}

/// The first property of such an object that is not of its kind.
fn wrong_kind(
    members: &Map<String, Value>,
    object: ScriptObject,
) -> Option<&'static ScriptProperty> {
    for property in object.properties() {
        if !is_of_kind(members, property) {
            return Some(property);
        }
    }
    None
}

fn is_of_kind(members: &Map<String, Value>, property: &ScriptProperty) -> bool {
    let (name, presence, kind) = property;
    let (value, may_lack) = match presence {
        Presence::Needed => (member(members, name), false),
        Presence::Optional => (optional(members, name), true),
        Presence::Alone => (member(members, name), true),
    };
    match (value, kind) {
        (None, _) => may_lack,
        (Some(value), PropertyKind::Text) => value.as_str().is_some(),
        (Some(value), PropertyKind::Readings | PropertyKind::Values | PropertyKind::Entries) =>
            value.is_array(),
    }
}

fn push_kind(
    alloc: Global,
    said: &mut String,
    members: &Map<String, Value>,
    property: &ScriptProperty,
) -> Result<(), AllocError> {
    let (name, _, kind) = property;
    said.push_str(name)?;
    said.push_str(": ")?;
    match member(members, name) {
        Some(value) => push_value(alloc, said, value)?,
        None => said.push_str("missing")?,
    }
    let expected = match kind {
        PropertyKind::Text => "a text",
        PropertyKind::Readings => "a list of readings",
        PropertyKind::Values => "a list of values",
        PropertyKind::Entries => "a list of objects",
    };
    said.push_str(": expected ")?;
    said.push_str(expected)
}

/// Adds the first reading of a stream's clock that is no whole number of 64 bits, or is below the one before it.
fn push_reading(
    alloc: Global,
    said: &mut String,
    members: &Map<String, Value>,
) -> Result<bool, AllocError> {
    let mut before = 0;
    for reading in readings(members) {
        match reading.as_u64() {
            Some(number) if number >= before => before = number,
            Some(number) => {
                let text = format!(in alloc;
                    "clock: {number} behind {before}: expected readings that do not fall"
                )?;
                said.push_str(text.as_str())?;
                return Ok(true);
            }
            None => {
                said.push_str("clock: ")?;
                push_value(alloc, said, reading)?;
                said.push_str(": expected a whole number of 64 bits")?;
                return Ok(true);
            }
        }
    }
    Ok(false)
}

fn readings(members: &Map<String, Value>) -> &[Value] {
    match optional(members, "clock") {
        Some(Value::Array(readings)) => readings.as_slice(),
        _ => &[],
    }
}

/// Adds a value, by its first characters.
pub fn push_value(alloc: Global, said: &mut String, value: &Value) -> Result<(), AllocError> {
    let shown = format!(in alloc; "{value}")?;
    push_cut(said, shown.as_str())
}
