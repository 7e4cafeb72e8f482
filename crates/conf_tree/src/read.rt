//! How the text of a configuration is read as a tree.
ghost use Rattle.std.specs.Prelude.{◌⊎◌, IfOk, IfErr};
ghost use Rattle.serde_json.specs.Data.{Data};
ghost use Rattle.serde_json.specs.View.{view};
ghost use Rattle.conf_tree.specs.Flaw.{flaw_of, IsMemory};
ghost use Rattle.conf_tree.specs.Walk.{IsTreeOf, IsFirstFlaw, Reads, FlawHolds};
ghost use Rattle.conf_tree.specs.declared.limits.TheConstants.{MAX_LEVELS};

use crate::walk::check_value;
use crate::{ConfFault, FaultKind, MAX_LEVELS, Tree};
use serde_json::Value;
use std::alloc::Global;

/// Reads a configuration's text.
///
/// A property that an object has twice has its last value. A refusal is `NotJson` without a path, or the first place
/// in walk order that is `TooDeep` or `NotWhole`: an object before its content, properties in byte order of their
/// names, lists by index. `-0`, a fraction, an exponent form and an integer of more than 64 bits are not whole; a
/// number that no float can hold is not JSON.
pub fn read_tree(alloc: Global, text: &[u8]) -> Result<Tree, ConfFault>
    ensures tree { IfOk result (λ t. IsTreeOf text.now (view t.value)) }
    ensures first { IfErr result (λ fault. IsMemory fault ⊎ IsFirstFlaw text.now (flaw_of fault)) }

    // Whatever value the text is, the fault's kind holds at its path in it.
    ensures holds { IfErr result (λ fault. IsMemory fault
        ⊎ ((d : Data) → Reads text.now d → FlawHolds d MAX_LEVELS (flaw_of fault))) }

    // A text without a flaw is refused for want of memory alone.
    ensures only { IfErr result (λ fault. (d : Data) → IsTreeOf text.now d → IsMemory fault) }
{
    let value = match Value::from_slice(alloc, text) {
        Ok(value) => value,
        Err(error) if error.is_memory() => return Err(ConfFault::memory(alloc)),
        Err(_) => return Err(ConfFault::here(alloc, FaultKind::NotJson)),
    };
    check_value(alloc, &value, MAX_LEVELS)?;
    Ok(Tree { value })
}
