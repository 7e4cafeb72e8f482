//! The properties of a script's objects, each of the kind that it has to be.

ghost use Rattle.std.specs.Prelude.{◌≡◌, option_map};
ghost use Rattle.serde_json.specs.Find.{as_object, as_array};
ghost use Rattle.serde_json.specs.View.{view, items_view, members_view};
ghost use Rattle.trace_text.specs.declared.script_fault.ScriptFaultKind.TheVariants.{Shape};
ghost use Rattle.trace_text.specs.ScriptEntries.{has_only as has_only_of, text_in as text_in_of, list_in as list_in_of, needed_list as needed_list_of};
ghost use Rattle.trace_text.specs.ScriptReading.{Gives, wanted, holds};

use crate::script_fault::ScriptFaultKind;
use crate::script_object::ScriptObject;
use conf_tree::{member, optional};
use serde_json::{Map, Value};

/// The properties of the object that a value is.
pub(crate) fn properties(value: &Value) -> Result<&Map<String, Value>, ScriptFaultKind>
    ensures { Gives (λ m. members_view m.now.entries) result (wanted Shape (as_object (view value.now))) }
{
    match value.as_object() {
        Some(members) => Ok(members),
        None => Err(ScriptFaultKind::Shape),
    }
}

/// Refuses properties that such an object cannot have.
pub(crate) fn check_names(
    members: &Map<String, Value>,
    object: ScriptObject,
) -> Result<(), ScriptFaultKind>
    ensures { Gives (λ _. tt) result (holds Shape (has_only_of object (members_view members.now.entries))) }
{
    if has_only(members, object) {
        Ok(())
    } else {
        Err(ScriptFaultKind::Shape)
    }
}

fn has_only(members: &Map<String, Value>, object: ScriptObject) -> bool
    ensures { result ≡ has_only_of object (members_view members.now.entries) }
{
    for (name, _value) in members.iter() {
        if !object.has(name.as_str()) {
            return false;
        }
    }
    true
}

/// The text that a property is, which has to be there.
pub(crate) fn text_in<'v>(
    members: &'v Map<String, Value>,
    name: &str,
) -> Result<&'v str, ScriptFaultKind>
    ensures { Gives (λ s. s.now) result (wanted Shape (text_in_of name.now (members_view members.now.entries))) }
{
    let Some(value) = member(members, name) else {
        return Err(ScriptFaultKind::Shape);
    };
    match value.as_str() {
        Some(text) => Ok(text),
        None => Err(ScriptFaultKind::Shape),
    }
}

/// The list that an optional property is. None is an empty list.
pub(crate) fn list_in<'v>(
    members: &'v Map<String, Value>,
    name: &str,
) -> Result<&'v [Value], ScriptFaultKind>
    ensures { Gives (λ v. items_view v.now) result (wanted Shape (list_in_of name.now (members_view members.now.entries))) }
{
    match optional(members, name) {
        Some(value) => items(value),
        None => Ok(&[]),
    }
}

/// The list that a property is, which has to be there.
pub(crate) fn needed_list<'v>(
    members: &'v Map<String, Value>,
    name: &str,
) -> Result<&'v [Value], ScriptFaultKind>
    ensures { Gives (λ v. items_view v.now) result (wanted Shape (needed_list_of name.now (members_view members.now.entries))) }
{
    match member(members, name) {
        Some(value) => items(value),
        None => Err(ScriptFaultKind::Shape),
    }
}

fn items(value: &Value) -> Result<&[Value], ScriptFaultKind>
    ensures { Gives (λ v. items_view v.now) result (wanted Shape (as_array (view value.now))) }
{
    match value.as_array() {
        Some(items) => Ok(items.as_slice()),
        None => Err(ScriptFaultKind::Shape),
    }
}
