//! Where in an entry of a script the first value stands that no field takes.

use crate::script_form::push_value;
use conf_fault::push_cut;
use ctf_types::{EventType, StreamType, StructType};
use serde_json::Value;
use std::alloc::{AllocError, Global};
use trace_text::first_bad_value;

/// Adds the place in a stream's entry of the first value that no field takes, its member's name and the value. Where there is none, nothing is added, and the
/// answer is false.
pub fn push_bad_extra(
    alloc: Global,
    said: &mut String,
    entry: &Value,
    stream_type: &StreamType,
) -> Result<bool, AllocError> {
    push_bad_in(alloc, said, entry, "extras", &stream_type.extras)
}

/// The same of an event's entry, whose lists are asked in the order of the fields.
pub fn push_bad_field(
    alloc: Global,
    said: &mut String,
    entry: &Value,
    stream_type: &StreamType,
    event: &EventType,
) -> Result<bool, AllocError> {
    Ok(
        push_bad_in(alloc, said, entry, "common", &stream_type.common)?
            || push_bad_in(alloc, said, entry, "specific", &event.specific)?
            || push_bad_in(alloc, said, entry, "payload", &event.payload)?,
    )
}

fn push_bad_in(
    alloc: Global,
    said: &mut String,
    entry: &Value,
    list: &str,
    structure: &StructType,
) -> Result<bool, AllocError> {
    let Some(Value::Array(items)) = entry.get(list) else {
        return Ok(false);
    };
    let Some(index) = first_bad_value(alloc, structure, items)? else {
        return Ok(false);
    };
    let Some(item) = items.get(index) else {
        return Ok(false);
    };
    let place = format!(in alloc; "{list}/{index}: ")?;
    said.push_str(place.as_str())?;
    if let Some((name, _)) = structure.members.get(index) {
        push_cut(said, name)?;
        said.push_str(": ")?;
    }
    push_value(alloc, said, item)?;
    Ok(true)
}
