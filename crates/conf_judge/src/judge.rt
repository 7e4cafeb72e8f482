//! The first flaw of an object, in the order of a walk: an object before its content, what is missing before what is there, and
//! properties in byte order of their names.
ghost use Rattle.std.specs.Prelude.{◌≡◌, ◌≤◌, ◌<◌, ◌+◌, IfErr, unwrap_or};
ghost use Rattle.serde_json.specs.Data.{object};
ghost use Rattle.serde_json.specs.View.{view, items_view, members_view};
ghost use Rattle.conf_tree.specs.Reading.{Gives};
ghost use Rattle.conf_tree.specs.Walk.{refusal};
ghost use Rattle.conf_table.specs.declared.row.Content.TheVariants.{Anything, At};
ghost use Rattle.conf_judge.specs.Flaws.{resolved_content as resolved_content_of, inner_flaws, item_flaws, member_flaws, property_flaws, content_flaws, configuration_flaws};
ghost use Rattle.conf_judge.specs.Known.{known_of, inside as inside_of, with_taken};
ghost use Rattle.conf_judge.specs.Names.{names_beside as names_beside_of};
ghost use Rattle.conf_judge.specs.Places.{item_content as item_content_of};

use crate::around::Around;
use crate::leaf::check_itself;
use crate::names::{check_key, names_beside, take_names};
use crate::numbers::ALL;
use crate::places::{classed_place, item_content};
use crate::presence::{check_present, is_left_out, resolved_content};
use crate::shape::check_shape;
use conf_table::{Content, Place};
use conf_tree::{ConfFault, FaultKind};
use serde_json::{Map, Value};
use std::alloc::Global;

/// Refuses the first flaw of the objects of a resolved configuration, by the rows of `conf_table` (barectf 3.1, "Configuration
/// object" and the pages below it).
///
/// The first is that of a walk: the kind of a value, its name, and then what it holds. Of an object first its class, then what is
/// missing, in the order of the rows, then its properties in byte order of their names, and last what it is as a whole; of a list
/// its items by index. No row says that a default stands once, that a name is free, what numbers an enumeration holds, which
/// shape a magic number or an identifier has, that elements have bits, and that one of two byte orders is there.
///
/// The tree stays as it is, and the fault has the way from the whole configuration to the value, or to the property that is
/// missing or unknown. Where memory is wanting for this, that is the fault. A resolved tree nests no deeper than `MAX_LEVELS`.
#[tactic(auto, using(crate::proofs::FirstFlaw::told_first, crate::proofs::FirstFlaw::told_later))]
pub fn check_objects(alloc: Global, value: &Value) -> Result<(), ConfFault>
    ensures { Gives (λ _. tt) result (refusal (configuration_flaws (view value.now))) }
{
    let nothing = Map::new(alloc);
    let around = Around {
        levels: None,
        has_default: false,
        numbers: ALL,
        taken: &nothing,
    };
    let content = Content::At(Place::Root);
    check_itself(alloc, &around, &content, value)?;
    check_inner(alloc, &around, &content, value)
}

/// Refuses the first flaw of what a value holds.
#[cycle(judge)]
#[tactic(auto, using(crate::proofs::FirstFlaw::nothing_held))]
fn check_inner(
    alloc: Global,
    around: &Around<'_>,
    content: &Content,
    value: &Value,
) -> Result<(), ConfFault>
    ensures { Gives (λ _. tt) result (refusal (inner_flaws (known_of around.now) content.now (view value.now))) }
{
    let Content::At(place) = *content else {
        return Ok(());
    };
    match value {
        Value::Null | Value::Bool(_) | Value::Number(_) | Value::String(_) => Ok(()),
        Value::Array(items) => check_items(alloc, around, place, items),
        Value::Object(members) => check_object(alloc, around, place, members),
    }
}

#[cycle(judge)]
fn check_items(
    alloc: Global,
    around: &Around<'_>,
    place: Place,
    items: &Vec<Value>,
) -> Result<(), ConfFault>
    ensures { Gives (λ _. tt) result (refusal (item_flaws (known_of around.now) place (names_beside_of place) 0 (items_view items.now.items))) }
{
    let mut taken = names_beside(alloc, place).map_err(|_| ConfFault::memory(alloc))?;
    for (index, item) in items.iter().enumerate() {
        if let Err(fault) = check_item(alloc, around, place, item, &taken) {
            return Err(fault.inside(alloc, index));
        }
        // Behind the last item there is none that could have a name that it takes.
        if index + 1 < items.len() && take_names(alloc, &mut taken, item).is_err() {
            return Err(ConfFault::memory(alloc));
        }
    }
    Ok(())
}

/// Refuses the first flaw of an item of a list, where these names are taken.
#[cycle(judge)]
#[tactic(auto, using(crate::proofs::FirstFlaw::told_first, crate::proofs::FirstFlaw::told_later))]
fn check_item(
    alloc: Global,
    around: &Around<'_>,
    place: Place,
    item: &Value,
    taken: &Map<String, Value>,
) -> Result<(), ConfFault>
    ensures { Gives (λ _. tt) result (refusal (content_flaws (with_taken (members_view taken.now.entries) (known_of around.now)) (item_content_of place) (view item.now))) }
{
    let here = Around { taken, ..*around };
    let content = item_content(place);
    check_itself(alloc, &here, &content, item)?;
    check_inner(alloc, &here, &content, item)
}

#[cycle(judge)]
#[tactic(auto, using(crate::proofs::FirstFlaw::class_first, crate::proofs::FirstFlaw::missing_first, crate::proofs::FirstFlaw::held_first, crate::proofs::FirstFlaw::shape_last))]
fn check_object(
    alloc: Global,
    around: &Around<'_>,
    place: Place,
    members: &Map<String, Value>,
) -> Result<(), ConfFault>
    ensures { Gives (λ _. tt) result (refusal (inner_flaws (known_of around.now) (At place) (object (members_view members.now.entries)))) }
{
    let own = classed_place(alloc, place, members)?;
    check_present(alloc, own, members)?;
    check_members(alloc, around, own, members)?;
    check_shape(alloc, place, members)
}

#[cycle(judge)]
fn check_members(
    alloc: Global,
    around: &Around<'_>,
    place: Place,
    members: &Map<String, Value>,
) -> Result<(), ConfFault>
    ensures { Gives (λ _. tt) result (refusal (member_flaws (inside_of place (members_view members.now.entries) (known_of around.now)) place (members_view members.now.entries))) }
{
    let mut here = around.inside(place, members);
    for (name, value) in members.iter() {
        if let Err(fault) = check_property(alloc, &here, place, name.as_str(), value) {
            return Err(fault.in_property(alloc, name.as_str()));
        }
        here = here.behind(place, value);
    }
    Ok(())
}

#[cycle(judge)]
#[tactic(auto, using(crate::proofs::FirstFlaw::told_first, crate::proofs::FirstFlaw::told_later))]
fn check_property(
    alloc: Global,
    around: &Around<'_>,
    place: Place,
    name: &str,
    value: &Value,
) -> Result<(), ConfFault>
    ensures { Gives (λ _. tt) result (refusal (property_flaws (known_of around.now) place name.now (resolved_content_of place name.now) (view value.now) (inner_flaws (known_of around.now) (unwrap_or (resolved_content_of place name.now) Anything) (view value.now)))) }
{
    let Some(content) = resolved_content(place, name) else {
        return Err(ConfFault::here(alloc, FaultKind::Unknown));
    };
    if is_left_out(place, name, value) {
        return Ok(());
    }
    check_itself(alloc, around, content, value)?;
    check_key(alloc, around, place, name, value)?;
    check_inner(alloc, around, content, value)
}
