//! The environment of a trace (barectf 3.1, "Trace object").
ghost use Rattle.std.specs.Prelude.{◌≡◌, IfOk};
ghost use Rattle.serde_json.specs.View.{view, members_view};
ghost use Rattle.conf_draft.specs.Environments.{environment as environment_in, entry_value as entry_value_of};

use crate::lookup::object_or;
use ctf_types::{EnvironmentEntry, EnvironmentValue, ListOf, Text};
use serde_json::{Map, Value};
use std::alloc::{AllocError, Global};

/// The entries of a trace's environment, in byte order of their names.
#[tactic(auto, using(crate::proofs::Lists::behind_one), unfolding(crate::specs::Environments::environment))]
pub(crate) fn environment(
    alloc: Global,
    trace: &Map<String, Value>,
) -> Result<ListOf<EnvironmentEntry>, AllocError>
    ensures { IfOk result (λ e. e ≡ environment_in (members_view trace.now.entries)) }
{
    let mut entries = ListOf::new(alloc);
    let empty = Map::new(alloc);
    for (name, value) in object_or(trace, "environment", &empty).iter() {
        let name = Text::from_str(alloc, name.as_str())?;
        let value = entry_value(alloc, value)?;
        entries.push(EnvironmentEntry { name, value })?;
    }
    Ok(entries)
}

/// The number or the text of an entry.
fn entry_value(alloc: Global, value: &Value) -> Result<EnvironmentValue, AllocError>
    ensures { IfOk result (λ v. v ≡ entry_value_of (view value.now)) }
{
    match value {
        Value::String(text) => Ok(EnvironmentValue::Text(Text::from_str(alloc, text.as_str())?)),
        _ => Ok(EnvironmentValue::Whole(value.as_i64().unwrap_or(0))),
    }
}
