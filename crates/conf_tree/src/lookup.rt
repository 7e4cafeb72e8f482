//! Typed look-ups in a tree, whose faults say where the value stands.
ghost use Rattle.std.specs.Prelude.{◌≡◌, option_map};
ghost use Rattle.serde_json.specs.Find.{get_member};
ghost use Rattle.serde_json.specs.View.{view, items_view, members_view};
ghost use Rattle.conf_tree.specs.Reading.{Gives, reading_at, object_of, list_of, text_of, whole_of, flag_of, needed as needed_of, optional as optional_of};

use crate::{At, ConfFault, FaultKind};
use serde_json::{Map, Value};
use std::alloc::Global;

/// The object that `value` is, which stands at `at`.
pub fn object<'v>(
    alloc: Global,
    at: At<'_>,
    value: &'v Value,
) -> Result<&'v Map<String, Value>, ConfFault>
    ensures { Gives (λ m. members_view m.now.entries) result
        (reading_at at.entry (object_of (view value.now))) }
{
    match value.as_object() {
        Some(members) => Ok(members),
        None => Err(at.fault(alloc, FaultKind::WrongKind)),
    }
}

/// The items of the list that `value` is, which stands at `at`.
pub fn list<'v>(alloc: Global, at: At<'_>, value: &'v Value) -> Result<&'v Vec<Value>, ConfFault>
    ensures { Gives (λ v. items_view v.now.items) result
        (reading_at at.entry (list_of (view value.now))) }
{
    match value.as_array() {
        Some(items) => Ok(items),
        None => Err(at.fault(alloc, FaultKind::WrongKind)),
    }
}

/// The text that `value` is, which stands at `at`.
pub fn text<'v>(alloc: Global, at: At<'_>, value: &'v Value) -> Result<&'v str, ConfFault>
    ensures { Gives (λ s. s.now) result (reading_at at.entry (text_of (view value.now))) }
{
    match value.as_str() {
        Some(text) => Ok(text),
        None => Err(at.fault(alloc, FaultKind::WrongKind)),
    }
}

/// The flag that `value` is, which stands at `at`.
pub fn flag(alloc: Global, at: At<'_>, value: &Value) -> Result<bool, ConfFault>
    ensures { Gives (λ b. b) result (reading_at at.entry (flag_of (view value.now))) }
{
    match value.as_bool() {
        Some(flag) => Ok(flag),
        None => Err(at.fault(alloc, FaultKind::WrongKind)),
    }
}

/// The whole number that `value` is, which stands at `at` and may be `low`, `high` or any number between.
#[tactic(auto, unfolding(crate::specs::Reading::whole_of))]
pub fn whole(
    alloc: Global,
    at: At<'_>,
    value: &Value,
    low: i128,
    high: i128,
) -> Result<i128, ConfFault>
    ensures { Gives (λ z. z) result (reading_at at.entry (whole_of low high (view value.now))) }
{
    match value.as_number().map(|number| number.as_i128()) {
        Some(Some(whole)) if low <= whole && whole <= high => Ok(whole),
        Some(Some(_)) => Err(at.fault(alloc, FaultKind::OutOfRange)),
        Some(None) => Err(at.fault(alloc, FaultKind::NotWhole)),
        None => Err(at.fault(alloc, FaultKind::WrongKind)),
    }
}

/// The value of the property `name`, if it is there. It may be null.
pub fn member<'v>(members: &'v Map<String, Value>, name: &str) -> Option<&'v Value>
    ensures { option_map (λ v. view v.now) result
        ≡ get_member name.now (members_view members.now.entries) }
{
    members.get(name)
}

/// The value of the property `name`, which has to be there. It may be null.
pub fn needed<'v>(
    alloc: Global,
    members: &'v Map<String, Value>,
    name: &str,
) -> Result<&'v Value, ConfFault>
    ensures { Gives (λ v. view v.now) result
        (needed_of name.now (members_view members.now.entries)) }
{
    member(members, name).ok_or_else(|| At::Property(name).fault(alloc, FaultKind::Missing))
}

/// The value of the property `name`, if it is there. A null is as if it were not.
pub fn optional<'v>(members: &'v Map<String, Value>, name: &str) -> Option<&'v Value>
    ensures { option_map (λ v. view v.now) result
        ≡ optional_of name.now (members_view members.now.entries) }
{
    member(members, name).filter(|value| !value.is_null())
}
