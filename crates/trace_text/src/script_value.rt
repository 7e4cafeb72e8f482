//! The values of a script, as the values of fields.

ghost use Rattle.std.specs.Prelude.{◌≡◌, [], option_map, slice_get};
ghost use Rattle.serde_json.specs.Find.{as_i64, as_u64};
ghost use Rattle.serde_json.specs.View.{view, items_view, number_view};
ghost use Rattle.ctf_types.specs.Datum as datum;
ghost use Rattle.ctf_types.specs.FieldTypes.{chain_of};
ghost use Rattle.ctf_types.specs.Values.{datum_of, data_of};
ghost use Rattle.trace_text.specs.declared.script_fault.ScriptFaultKind.TheVariants.{BadValue};
ghost use Rattle.trace_text.specs.ScriptReading.{Gives, wanted};
ghost use Rattle.trace_text.specs.ScriptValues.{sign_at as sign_of, element_at as element_of, number_value, value_of, elements_of, dynamic_value, member_value as member_value_of, members_values, value_at as value_at_of};

use crate::script_fault::ScriptFaultKind;
use ctf_types::{Bytes, FieldType, MemberType, StructType, Value, Values};
use serde_json::Number;
use std::alloc::Global;

/// The values of a structure's members. What is more than there are members stands where no integer does.
pub(crate) fn structure_values(
    alloc: Global,
    structure: &StructType,
    items: &[serde_json::Value],
) -> Result<Values, ScriptFaultKind>
    ensures { Gives (λ vs. vs) result (wanted BadValue (members_values structure.now.members (items_view items.now))) }
{
    let mut values = Values::new(alloc);
    for (index, item) in items.iter().enumerate() {
        let value = value_at(alloc, structure, index, item)?;
        values.push(value)?;
    }
    Ok(values)
}

/// The value of the member at this index, or of what is more than there are members.
pub(crate) fn value_at(
    alloc: Global,
    structure: &StructType,
    index: usize,
    value: &serde_json::Value,
) -> Result<Value, ScriptFaultKind>
    ensures { Gives datum_of result (wanted BadValue (value_at_of (slice_get structure.now.members index) (view value.now))) }
{
    match structure.members.get(index) {
        Some((_, member)) => member_value(alloc, member, value),
        None => value_in(alloc, None, value),
    }
}

fn member_value(
    alloc: Global,
    member: &MemberType,
    value: &serde_json::Value,
) -> Result<Value, ScriptFaultKind>
    ensures { Gives datum_of result (wanted BadValue (member_value_of member.now (view value.now))) }
{
    match member {
        MemberType::Plain(field) => value_in(alloc, Some(field), value),
        MemberType::Dyn(element, _) => dynamic_array(alloc, element, value),
    }
}

/// The value where a dynamic array of such elements stands.
fn dynamic_array(
    alloc: Global,
    element: &FieldType,
    value: &serde_json::Value,
) -> Result<Value, ScriptFaultKind>
    ensures { Gives datum_of result (wanted BadValue (dynamic_value (chain_of element.now) (view value.now))) }
{
    match value {
        serde_json::Value::Array(items) => {
            Ok(Value::List(element_values(alloc, Some(element), items)?))
        }
        serde_json::Value::Null
        | serde_json::Value::Bool(_)
        | serde_json::Value::Number(_)
        | serde_json::Value::String(_)
        | serde_json::Value::Object(_) => value_in(alloc, None, value),
    }
}

/// The value where a field of this type stands, or none.
#[cycle(value)]
fn value_in(
    alloc: Global,
    field: Option<&FieldType>,
    value: &serde_json::Value,
) -> Result<Value, ScriptFaultKind>
    ensures { Gives datum_of result (wanted BadValue (value_of (option_map (λ t. chain_of t.now) field.entry) (view value.now))) }
{
    match value {
        serde_json::Value::Null | serde_json::Value::Bool(_) | serde_json::Value::Object(_) => {
            Err(ScriptFaultKind::BadValue)
        }
        serde_json::Value::Number(number) => number_in(sign_at(field), number),
        serde_json::Value::String(text) => {
            Ok(Value::Text(Bytes::from_slice(alloc, text.as_bytes())?))
        }
        serde_json::Value::Array(items) => {
            Ok(Value::List(element_values(alloc, element_at(field), items)?))
        }
    }
}

#[cycle(value)]
fn element_values(
    alloc: Global,
    element: Option<&FieldType>,
    items: &Vec<serde_json::Value>,
) -> Result<Values, ScriptFaultKind>
    ensures { Gives (λ vs. vs) result (wanted BadValue (elements_of (option_map (λ t. chain_of t.now) element.entry) [] (items_view items.now.items))) }
{
    let mut values = Values::new(alloc);
    for item in items {
        let value = value_in(alloc, element, item)?;
        values.push(value)?;
    }
    Ok(values)
}

/// Whether the numbers of the field are signed, where it has numbers.
fn sign_at(field: Option<&FieldType>) -> Option<bool>
    ensures { result ≡ sign_of (option_map (λ t. chain_of t.now) field.entry) }
{
    match field? {
        FieldType::Int(int) => Some(int.is_signed()),
        FieldType::Enum(enumeration) => Some(enumeration.int.is_signed()),
        FieldType::Str | FieldType::Static(..) => None,
    }
}

/// What stands where the elements of a list are.
fn element_at(field: Option<&FieldType>) -> Option<&FieldType>
    ensures { option_map (λ t. chain_of t.now) result ≡ element_of (option_map (λ t. chain_of t.now) field.entry) }
{
    match field? {
        FieldType::Static(element, _) => Some(element.field_type()),
        FieldType::Int(_) | FieldType::Enum(_) | FieldType::Str => None,
    }
}

/// The number where numbers are signed or not, or none stands.
fn number_in(signed: Option<bool>, number: &Number) -> Result<Value, ScriptFaultKind>
    ensures { Gives datum_of result (wanted BadValue (number_value signed (number_view number.now))) }
{
    match signed {
        Some(true) => signed_in(number),
        Some(false) => unsigned_in(number),
        None => {
            if number.is_u64() {
                unsigned_in(number)
            } else {
                signed_in(number)
            }
        }
    }
}

fn signed_in(number: &Number) -> Result<Value, ScriptFaultKind>
    ensures { Gives datum_of result (wanted BadValue (option_map datum.Signed (as_i64 (number_view number.now)))) }
{
    match number.as_i64() {
        Some(whole) => Ok(Value::Signed(whole)),
        None => Err(ScriptFaultKind::BadValue),
    }
}

fn unsigned_in(number: &Number) -> Result<Value, ScriptFaultKind>
    ensures { Gives datum_of result (wanted BadValue (option_map datum.Unsigned (as_u64 (number_view number.now)))) }
{
    match number.as_u64() {
        Some(whole) => Ok(Value::Unsigned(whole)),
        None => Err(ScriptFaultKind::BadValue),
    }
}
