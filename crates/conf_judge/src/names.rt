//! The names of the entries of maps, and those that members take.
ghost use Rattle.std.specs.Prelude.{◌≡◌, ◌≤◌, ◌||◌, IfOk, OnOk, string_bytes, map};
ghost use Rattle.serde_json.specs.View.{view, members_view};
ghost use Rattle.ctf_types.specs.Shown.{length_name as length_name_of};
ghost use Rattle.conf_tree.specs.Reading.{Gives};
ghost use Rattle.conf_judge.specs.Known.{known_of};
ghost use Rattle.conf_judge.specs.Names.{is_dynamic as is_dynamic_of, names_beside as names_beside_of, take as take_of, with_names, free_of, key_of, class_of_member as class_of_member_of, take_each as take_each_of};

use crate::around::Around;
use crate::leaf::check_that;
use conf_table::{Keys, Place, class_of, entries_at};
use conf_tree::{ConfFault, FaultKind, member};
use conf_values::{check_name, check_plain_name, is_printable};
use ctf_types::OWN_NAMES;
use serde_json::{Map, Value};
use std::alloc::{AllocError, Global};

/// Refuses a name that an entry of the map at this place cannot have.
#[tactic(auto, unfolding(crate::specs::Names::key_of, crate::specs::Names::key_by))]
pub(crate) fn check_key(
    alloc: Global,
    around: &Around<'_>,
    place: Place,
    name: &str,
    value: &Value,
) -> Result<(), ConfFault>
    ensures { Gives (λ _. tt) result (key_of (known_of around.now) place name.now (view value.now)) }
{
    match entries_at(place).map(|entries| entries.keys) {
        Some(Keys::Name) => check_name(alloc, name),
        Some(Keys::PlainName) => {
            check_plain_name(alloc, name)?;
            match place {
                Place::Entry => check_free(alloc, around.taken, name, value),
                _ => Ok(()),
            }
        }
        Some(Keys::Label) => check_that(alloc, is_printable(name)),
        Some(Keys::Index) | None => Ok(()),
    }
}

/// Refuses the name of a member that another has taken, its own or its length's.
#[tactic(auto, unfolding(crate::specs::Names::free_of))]
fn check_free(
    alloc: Global,
    taken: &Map<String, Value>,
    name: &str,
    value: &Value,
) -> Result<(), ConfFault>
    ensures { Gives (λ _. tt) result (free_of (members_view taken.now.entries) name.now (view value.now)) }
{
    let mut clashes = member(taken, name).is_some();
    if is_dynamic(value) {
        let length = length_name(alloc, name).map_err(|_| ConfFault::memory(alloc))?;
        clashes = clashes || member(taken, length.as_str()).is_some();
    }
    if clashes {
        Err(ConfFault::here(alloc, FaultKind::NameClash))
    } else {
        Ok(())
    }
}

/// The name of the length of a dynamic array.
fn length_name(alloc: Global, name: &str) -> Result<String, AllocError>
    ensures { IfOk result (λ t. string_bytes t ≡ length_name_of name.now) }
{
    format!(in alloc; "__{name}_len").map_err(|_| AllocError)
}

/// Whether a member's value says that the member is a dynamic array.
#[tactic(auto, unfolding(crate::specs::Names::is_dynamic))]
fn is_dynamic(value: &Value) -> bool
    ensures { result ≡ is_dynamic_of (view value.now) }
{
    let told = value
        .as_object()
        .and_then(|entry| member(entry, "field-type"));
    let class = told
        .and_then(Value::as_object)
        .and_then(|told| class_of(told));
    class == Some(Place::DynamicArray)
}

/// The names that no member can have: in a packet context, those of its own members.
#[tactic(auto, unfolding(crate::specs::Names::names_beside))]
pub(crate) fn names_beside(alloc: Global, place: Place) -> Result<Map<String, Value>, AllocError>
    ensures { IfOk result (λ m. members_view m.entries ≡ names_beside_of place) }
{
    let mut taken = Map::new(alloc);
    if matches!(place, Place::ExtraMembers) {
        take_each(alloc, &mut taken, &OWN_NAMES)?;
    }
    Ok(taken)
}

fn take_each(
    alloc: Global,
    taken: &mut Map<String, Value>,
    names: &[&str],
) -> Result<(), AllocError>
    ensures { OnOk result (members_view taken.new.entries ≡ take_each_of (map (λ n. n.now) names.now) (members_view taken.old.entries)) }
{
    for name in names {
        take(alloc, taken, *name)?;
    }
    Ok(())
}

fn take(alloc: Global, taken: &mut Map<String, Value>, name: &str) -> Result<(), AllocError>
    ensures { OnOk result (members_view taken.new.entries ≡ take_of name.now (members_view taken.old.entries)) }
{
    let name = String::from_str(alloc, name)?;
    drop(taken.insert(name, Value::Null)?);
    Ok(())
}

/// Adds the names that an entry's member has to those that are taken.
pub(crate) fn take_names(
    alloc: Global,
    taken: &mut Map<String, Value>,
    entry: &Value,
) -> Result<(), AllocError>
    ensures { OnOk result (members_view taken.new.entries ≡ with_names (view entry.now) (members_view taken.old.entries)) }
{
    let Value::Object(members) = entry else {
        return Ok(());
    };
    for (name, value) in members.iter() {
        if is_dynamic(value) {
            let length = length_name(alloc, name.as_str())?;
            take(alloc, taken, length.as_str())?;
        }
        take(alloc, taken, name.as_str())?;
    }
    Ok(())
}
