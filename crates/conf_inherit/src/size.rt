//! How many JSON values a value holds, counted as far as a limit.
ghost use Rattle.std.specs.Prelude.{◌≡◌, ◌+◌, ◌<◌, IfOk, IfErr, MatchOption};
ghost use Rattle.serde_json.specs.View.{view, items_view, members_view};
ghost use Rattle.conf_inherit.specs.Size.{size, items_size, members_size, Past, Leaves};

use serde_json::{Map, Value};
use std::alloc::{AllocError, AllocFailed};

/// Why a value is not laid.
#[derive(Clone, Copy, Debug)]
pub(crate) enum Stop {
    /// Memory ran out.
    Memory,
    /// It holds more JSON values than it may.
    Limit,
}

impl From<AllocError> for Stop {
    ghost use Rattle.std.specs.Prelude.{◌≡◌};
    ghost use Rattle.conf_inherit.specs.declared.size.Stop.TheVariants.{Memory};

    ghost from_gives = { λ _ e. e ≡ Memory };

    fn from(_error: AllocError) -> Stop {
        Stop::Memory
    }
}

impl<T: Drop> From<AllocFailed<T>> for Stop {
    ghost use Rattle.std.specs.Prelude.{◌≡◌};
    ghost use Rattle.conf_inherit.specs.declared.size.Stop.TheVariants.{Memory};

    ghost from_gives = { λ _ e. e ≡ Memory };

    fn from(_error: AllocFailed<T>) -> Stop {
        Stop::Memory
    }
}

/// What a limit leaves once the values of a value are counted, where there is a limit.
pub(crate) fn take(value: &Value, limit: Option<usize>) -> Result<Option<usize>, Stop>
    ensures left { IfOk result (λ left. Leaves limit (size (view value.now)) left) }
    ensures past { IfErr result (λ stop. (stop ≡ Stop.Limit) × Past limit (size (view value.now))) }
{
    let Some(limit) = limit else { return Ok(None) };
    let left = count(value, limit).ok_or(Stop::Limit)?;
    Ok(Some(left))
}

/// What is left of so many values once those of a value are counted, or nothing where it has more.
#[cycle(count)]
pub(crate) fn count(value: &Value, limit: usize) -> Option<usize>
    ensures { MatchOption result (limit < size (view value.now)) (λ left. limit ≡ left + size (view value.now)) }
{
    if limit == 0 {
        return None;
    }
    match value {
        Value::Null | Value::Bool(_) | Value::Number(_) | Value::String(_) => Some(limit - 1),
        Value::Array(items) => count_items(items, limit - 1),
        Value::Object(members) => count_members(members, limit - 1),
    }
}

#[cycle(count)]
fn count_items(items: &Vec<Value>, limit: usize) -> Option<usize>
    ensures { MatchOption result (limit < items_size (items_view items.now.items)) (λ left. limit ≡ left + items_size (items_view items.now.items)) }
{
    let mut left = limit;
    for item in items {
        left = count(item, left)?;
    }
    Some(left)
}

#[cycle(count)]
fn count_members(members: &Map<String, Value>, limit: usize) -> Option<usize>
    ensures { MatchOption result (limit < members_size (members_view members.now.entries)) (λ left. limit ≡ left + members_size (members_view members.now.entries)) }
{
    let mut left = limit;
    for (_name, member) in members.iter() {
        left = count(member, left)?;
    }
    Some(left)
}
