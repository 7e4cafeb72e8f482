//! Which item of a script's list is no value of the field where it stands.

ghost use Rattle.std.specs.Prelude.{◌≡◌, IfOk, is_some, slice_get};
ghost use Rattle.serde_json.specs.View.{view};
ghost use Rattle.trace_text.specs.ScriptValues.{IsFirstBad, value_at as value_at_of};

use crate::script_fault::ScriptFaultKind;
use crate::script_value::value_at;
use ctf_types::StructType;
use serde_json::Value;
use std::alloc::{AllocError, Global};

/// The place of the first item that is no value of the member where it stands, if there is one.
pub fn first_bad_value(
    alloc: Global,
    structure: &StructType,
    items: &[Value],
) -> Result<Option<usize>, AllocError>
    ensures { IfOk result (IsFirstBad structure.now.members items.now) }
{
    for i in 0..items.len() {
        if !is_value(alloc, structure, i, &items[i])? {
            return Ok(Some(i));
        }
    }
    Ok(None)
}

/// Whether an item is a value of the member at this index.
fn is_value(
    alloc: Global,
    structure: &StructType,
    index: usize,
    item: &Value,
) -> Result<bool, AllocError>
    ensures { IfOk result (λ is. is ≡ is_some (value_at_of (slice_get structure.now.members index) (view item.now))) }
{
    match value_at(alloc, structure, index, item) {
        Ok(_value) => Ok(true),
        Err(ScriptFaultKind::OutOfMemory) => Err(AllocError),
        Err(_kind) => Ok(false),
    }
}
