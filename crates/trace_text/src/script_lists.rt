//! Which list of a script has its first fault.

ghost use Rattle.std.specs.Prelude.{ℕ, List, IfOk};
ghost use Rattle.conf_tree.specs.Walk.{Reads};
ghost use Rattle.serde_json.specs.View.{view};
ghost use Rattle.trace_text.specs.declared.script_fault.ScriptFault.{ScriptFault as Fault};
ghost use Rattle.trace_text.specs.ScriptFaults.{IsFirstFault, LiesIn};

use crate::script_fault::ScriptFaultKind;
use crate::script_reading::{lists_in, read_streams};
use ctf_types::Config;
use serde_json::Value;
use std::alloc::{AllocError, Global};

/// The list of a script that has its first fault.
#[derive(Clone, Copy, Debug, PartialEq, Eq)]
pub enum FaultyList {
    /// The script has not its two lists, or something else.
    Neither,
    Streams,
    Events,
}

/// In which list the first fault of a text lies, if the text of this value has one. A fault of an event counts only where no stream has one.
pub fn faulty_list(alloc: Global, config: &Config, value: &Value) -> Result<FaultyList, AllocError>
    ensures lies { IfOk result (λ list. (text : List ℕ) (fault : Fault) → Reads text (view value.now) → IsFirstFault config.now text fault → LiesIn config.now (view value.now) list fault) }
{
    let (streams, _events) = match lists_in(value) {
        Ok(lists) => lists,
        Err(ScriptFaultKind::OutOfMemory) => return Err(AllocError),
        Err(_kind) => return Ok(FaultyList::Neither),
    };
    match read_streams(alloc, config, streams) {
        Ok(_streams) => Ok(FaultyList::Events),
        Err(fault) => {
            if fault.kind == ScriptFaultKind::OutOfMemory {
                Err(AllocError)
            } else {
                Ok(FaultyList::Streams)
            }
        }
    }
}
