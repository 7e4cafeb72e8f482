//! The first limit of size that a configuration passes, in the order of a walk.
ghost use Rattle.std.specs.Prelude.{◌≡◌, ◌≤◌, ◌<◌, ◌+◌, ◌++◌, IfErr, nat_le, unwrap_or};
ghost use Rattle.serde_json.specs.View.{view, items_view, members_view};
ghost use Rattle.ctf_types.specs.declared.limits.TheConstants.{MAX_CONFIG_RANGES};
ghost use Rattle.conf_tree.specs.Reading.{Gives};
ghost use Rattle.conf_tree.specs.Walk.{refusal};
ghost use Rattle.conf_table.specs.Table.{content_under};
ghost use Rattle.conf_table.specs.declared.row.Content.TheVariants.{Anything};
ghost use Rattle.conf_judge.specs.Flaws.{told_by};
ghost use Rattle.conf_judge.specs.Limits.{within_limit, elements as elements_of, count_of as count_of_data, ranges_of as ranges_of_data, place_fits as place_fits_of, key_fits as key_fits_of, fits as fits_of, inner_limits, item_limits, member_limits, content_limits, configuration_limits};

use crate::numbers::natural_in;
use crate::places::{item_content, place_of_properties};
use conf_table::{Content, Keys, Place, class_of, content_at, entries_at};
use conf_tree::{ConfFault, FaultKind};
use conf_values::as_natural;
use ctf_types::{MAX_ARRAYS, MAX_CONFIG_RANGES, MAX_ELEMENTS, MAX_LABEL_BYTES};
use serde_json::{Map, Value};
use std::alloc::Global;

/// Refuses the first limit of size that a resolved configuration passes of which `check_objects` finds no flaw. The limits are this
/// project's own: how many entries a map or a list has, how many bytes a text, and how large an alignment is, by `conf_table`; and
/// here the bytes of a label, the ranges of an enumeration, and how static arrays nest.
///
/// The first is that of a walk: a label, a value, and then what it holds, properties in byte order of their names and items by
/// index.
///
/// The tree stays as it is, and the fault has the way from the whole configuration to the value, or to the label. Where memory is
/// wanting for this, that is the fault. A resolved tree nests no deeper than `MAX_LEVELS`.
pub fn check_limits(alloc: Global, value: &Value) -> Result<(), ConfFault>
    ensures { Gives (λ _. tt) result (refusal (configuration_limits (view value.now))) }
{
    check_content(alloc, &Content::At(Place::Root), value)
}

fn check_limit(alloc: Global, fits: bool) -> Result<(), ConfFault>
    ensures { Gives (λ _. tt) result (within_limit fits) }
{
    if fits {
        Ok(())
    } else {
        Err(ConfFault::here(alloc, FaultKind::Limit))
    }
}

/// Refuses the first limit that a value passes, or what it holds.
#[cycle(limits)]
#[tactic(auto, using(crate::proofs::FirstFlaw::told_first, crate::proofs::FirstFlaw::told_later, crate::proofs::FirstFlaw::nothing_limited))]
fn check_content(alloc: Global, content: &Content, value: &Value) -> Result<(), ConfFault>
    ensures { Gives (λ _. tt) result (refusal (content_limits content.now (view value.now))) }
{
    check_limit(alloc, fits(content, value))?;
    let Content::At(place) = *content else {
        return Ok(());
    };
    match value {
        Value::Null | Value::Bool(_) | Value::Number(_) | Value::String(_) => Ok(()),
        Value::Array(items) => check_items(alloc, place, items),
        Value::Object(members) => {
            check_members(alloc, place_of_properties(place, members), members)
        }
    }
}

#[cycle(limits)]
fn check_items(alloc: Global, place: Place, items: &Vec<Value>) -> Result<(), ConfFault>
    ensures { Gives (λ _. tt) result (refusal (item_limits place 0 (items_view items.now.items))) }
{
    for (index, item) in items.iter().enumerate() {
        if let Err(fault) = check_content(alloc, &item_content(place), item) {
            return Err(fault.inside(alloc, index));
        }
    }
    Ok(())
}

#[cycle(limits)]
fn check_members(alloc: Global, place: Place, members: &Map<String, Value>) -> Result<(), ConfFault>
    ensures { Gives (λ _. tt) result (refusal (member_limits place (members_view members.now.entries))) }
{
    for (name, value) in members.iter() {
        if let Err(fault) = check_property(alloc, place, name.as_str(), value) {
            return Err(fault.in_property(alloc, name.as_str()));
        }
    }
    Ok(())
}

/// What a property is of which the table does not know.
static ANYTHING: Content = Content::Anything;

#[cycle(limits)]
#[tactic(auto, using(crate::proofs::FirstFlaw::told_first, crate::proofs::FirstFlaw::told_later))]
fn check_property(alloc: Global, place: Place, name: &str, value: &Value) -> Result<(), ConfFault>
    ensures { Gives (λ _. tt) result (refusal (told_by (within_limit (key_fits_of place name.now)) ++ content_limits (unwrap_or (content_under place name.now) Anything) (view value.now))) }
{
    check_limit(alloc, key_fits(place, name))?;
    check_content(alloc, content_at(place, name).unwrap_or(&ANYTHING), value)
}

/// Whether a value is within the limits of its content, whatever it holds.
#[tactic(auto, unfolding(crate::specs::Limits::fits, crate::specs::Limits::power_fits))]
fn fits(content: &Content, value: &Value) -> bool
    ensures { result ≡ fits_of content.now (view value.now) }
{
    match *content {
        Content::Text { most_bytes } | Content::WholeOrText { most_bytes, .. } => {
            value
                .as_str()
                .is_none_or(|text| text.len() as u64 <= most_bytes)
        }
        Content::PowerOfTwo { high } => as_natural(value).is_none_or(|number| number <= high),
        Content::At(place) => place_fits(place, value),
        _ => true,
    }
}

/// Whether the arrays of a field type that no array is around are few enough, and the entries of a map or a list, and the ranges.
#[tactic(auto, unfolding(crate::specs::Limits::place_fits, crate::specs::Limits::arrays_fit, crate::specs::Limits::is_outermost, crate::specs::Limits::ranges_fit))]
fn place_fits(place: Place, value: &Value) -> bool
    ensures { result ≡ place_fits_of place (view value.now) }
{
    let arrays_fit = match place {
        Place::MemberType | Place::DynamicElementType | Place::IdentifierFeature => {
            elements(MAX_ARRAYS, value).is_some()
        }
        _ => true,
    };
    let most = entries_at(place).and_then(|entries| entries.most);
    arrays_fit
        && most.is_none_or(|most| count_of(value) as u64 <= most)
        && (place != Place::Mappings || few_ranges(value))
}

/// The number of elements of static arrays of which so many nest at most, an empty one counted as one. None past the most.
fn elements(levels: usize, value: &Value) -> Option<u64>
    ensures { result ≡ elements_of levels (view value.now) }
{
    let Value::Object(members) = value else {
        return Some(1);
    };
    if class_of(members) != Some(Place::StaticArray) {
        return Some(1);
    }
    let inner = levels.checked_sub(1)?;
    let count = natural_in(members, "length").unwrap_or(1).max(1);
    for (name, element) in members.iter() {
        if name.as_str() == "element-field-type" {
            let all = count.checked_mul(elements(inner, element)?);
            return all.filter(|all| *all <= MAX_ELEMENTS);
        }
    }
    Some(count)
}

/// How many entries a map or a list has.
fn count_of(value: &Value) -> usize
    ensures { result ≡ count_of_data (view value.now) }
{
    match value {
        Value::Array(items) => items.as_slice().len(),
        Value::Object(members) => members.len(),
        _ => 0,
    }
}

/// Whether all labels of an enumeration have no more ranges than the most.
fn few_ranges(value: &Value) -> bool
    ensures { result ≡ nat_le (ranges_of_data (view value.now)) MAX_CONFIG_RANGES }
{
    let Value::Object(members) = value else {
        return true;
    };
    let mut left = MAX_CONFIG_RANGES;
    for (_label, value) in members.iter() {
        let count = count_of(value);
        if count > left {
            return false;
        }
        left -= count;
    }
    true
}

/// Whether the name of an entry at this place is within its limit: a label is a text that people read.
#[tactic(auto, unfolding(crate::specs::Limits::key_fits))]
fn key_fits(place: Place, name: &str) -> bool
    ensures { result ≡ key_fits_of place name.now }
{
    name.len() as u64 <= MAX_LABEL_BYTES
        || entries_at(place).is_none_or(|entries| !matches!(entries.keys, Keys::Label))
}
