//! Lays a value over the resolved value of what it inherits from.
ghost use Rattle.std.specs.Prelude.{◌≡◌, ℕ, string_bytes, IfOk, IfErr, OnOk, MatchOption, Option, Some, option_map};
ghost use Rattle.serde_json.specs.{Data.{Data, object, array, Items, no_items}, View.{view, items_view, members_view}};
ghost use Rattle.conf_inherit.specs.Laying.{lay, lay_base, lay_members, lay_over, lay_new, lay_new_entry, lay_text, resolved, members_below, items_below};
ghost use Rattle.conf_inherit.specs.{Names.{join_items, map_items}, Size.{size, items_size, members_size, Within, Leaves, IsDue}};

use crate::entry_index::EntryIndex;
use crate::field_places::{
    is_base_name, lists_members, names_alias, names_member_type, place_under,
};
use crate::property::{only, property, put_property, single, take_property};
use crate::size::{Stop, take};
use conf_table::Place;
use serde_json::{Map, Value};
use std::alloc::{AllocError, Global};

/// The resolved alias of a name, or null.
pub(crate) fn copy_alias(aliases: &Map<String, Value>, name: &str) -> Result<Value, AllocError>
    ensures { IfOk result (λ copy. view copy ≡ resolved (members_view aliases.now.entries) name.now) }
{
    match property(aliases, name) {
        Some(alias) => alias.clone(),
        None => Ok(Value::Null),
    }
}

/// A text laid over anything.
#[tactic(auto, unfolding(crate::specs::FieldPlaces::field_type_name))]
fn lay_name(
    alloc: Global,
    aliases: &Map<String, Value>,
    place: Place,
    name: &String,
) -> Result<Value, AllocError>
    ensures { IfOk result (λ laid. view laid
        ≡ lay_text (members_view aliases.now.entries) place (string_bytes name.now)) }
{
    if names_alias(place) {
        return copy_alias(aliases, name.as_str());
    }
    if names_member_type(place) {
        let alias = copy_alias(aliases, name.as_str())?;
        return single(alloc, String::from_str(alloc, "field-type")?, alias);
    }
    Ok(Value::String(name.clone()?))
}

/// The value laid over `base`, the resolved value of what stands at its place there. The names of field types are
/// those of `aliases`, which are resolved; one that is not there counts as null. Where there is a limit, the laid
/// value holds at most so many JSON values, and laying stops as soon as a part of it holds more.
#[cycle(laying)]
pub(crate) fn lay(
    alloc: Global,
    place: Place,
    value: &Value,
    base: Option<Value>,
    aliases: &Map<String, Value>,
    limit: Option<usize>,
) -> Result<Value, Stop>
    ensures laid { IfOk result (λ laid. view laid
        ≡ lay (members_view aliases.now.entries) place (view value.now) (option_map view base)) }
    ensures within { IfOk result (λ laid. Within limit (size (view laid))) }
    ensures past { IfErr result (λ stop. IsDue stop limit (size (lay (members_view aliases.now.entries) place (view value.now) (option_map view base)))) }
{
    match value {
        Value::Null => within(Value::Null, limit),
        Value::Bool(flag) => within(Value::Bool(*flag), limit),
        Value::Number(number) => within(Value::Number(*number), limit),
        Value::String(name) => within(lay_name(alloc, aliases, place, name)?, limit),
        Value::Array(items) => within(lay_list(alloc, place, items, base, aliases, limit)?, limit),
        Value::Object(members) => {
            let below = lay_inherited(alloc, place, members, aliases)?.or(base);
            let below = properties_below(alloc, below);
            let laid = lay_properties(alloc, place, members, below, aliases, limit)?;
            within(Value::Object(laid), limit)
        }
    }
}

/// A value that was laid, if it is within the limit.
fn within(laid: Value, limit: Option<usize>) -> Result<Value, Stop>
    ensures same { IfOk result (λ value. value ≡ laid) }
    ensures within { IfOk result (λ value. Within limit (size (view value))) }
    ensures past { IfErr result (λ stop. IsDue stop limit (size (view laid))) }
{
    let _left = take(&laid, limit)?;
    Ok(laid)
}

/// What an object inherits from, resolved. It is no part of what the object becomes, so the limit is not its own.
#[cycle(laying)]
fn lay_inherited(
    alloc: Global,
    place: Place,
    members: &Map<String, Value>,
    aliases: &Map<String, Value>,
) -> Result<Option<Value>, Stop>
    ensures found { IfOk result (λ found. MatchOption found
        ((base : Option Data) → lay_base (members_view aliases.now.entries) place (members_view members.now.entries) base ≡ base)
        (λ b. (base : Option Data) → lay_base (members_view aliases.now.entries) place (members_view members.now.entries) base ≡ Some (view b))) }
    ensures memory { IfErr result (λ stop. stop ≡ Stop.Memory) }
{
    for (name, value) in members.iter() {
        if is_base_name(place, name.as_str()) {
            return Ok(Some(lay(alloc, Place::FieldType, value, None, aliases, None)?));
        }
    }
    Ok(None)
}

/// The properties of an object, each laid over that of its name below.
#[cycle(laying)]
fn lay_properties(
    alloc: Global,
    place: Place,
    members: &Map<String, Value>,
    below: Map<String, Value>,
    aliases: &Map<String, Value>,
    limit: Option<usize>,
) -> Result<Map<String, Value>, Stop>
    ensures laid { IfOk result (λ laid. members_view laid.entries
        ≡ lay_members (members_view aliases.now.entries) place (members_view members.now.entries) (members_view below.entries)) }
    ensures past { IfErr result (λ stop. IsDue stop limit (members_size (lay_members (members_view aliases.now.entries) place (members_view members.now.entries) (members_view below.entries)))) }
{
    let mut laid = below;
    for (name, value) in members.iter().rev() {
        let key = name.as_str();
        if !is_base_name(place, key) {
            let base = take_property(&mut laid, key);
            let over = lay(alloc, place_under(place, key), value, base, aliases, limit)?;
            put_property(&mut laid, name, over)?;
        }
    }
    Ok(laid)
}

/// A list, laid over the base: a members list entry by entry, another list at its end.
#[cycle(laying)]
fn lay_list(
    alloc: Global,
    place: Place,
    items: &Vec<Value>,
    base: Option<Value>,
    aliases: &Map<String, Value>,
    limit: Option<usize>,
) -> Result<Value, Stop>
    ensures laid { IfOk result (λ laid. view laid
        ≡ lay (members_view aliases.now.entries) place (array (items_view items.now.items)) (option_map view base)) }
    ensures past { IfErr result (λ stop. IsDue stop limit (size (lay (members_view aliases.now.entries) place (array (items_view items.now.items)) (option_map view base)))) }
{
    let below = items_under(alloc, base);
    if lists_members(place) {
        let mut added = lay_new_entries(alloc, items, &below, aliases, limit)?;
        let mut entries = lay_over_entries(alloc, items, below, aliases, limit)?;
        entries.append(&mut added)?;
        return Ok(Value::Array(entries));
    }
    Ok(Value::Array(join(below, items)?))
}

/// The base's entries, each with the entry of its name over it.
#[cycle(laying)]
fn lay_over_entries(
    alloc: Global,
    own: &Vec<Value>,
    base: Vec<Value>,
    aliases: &Map<String, Value>,
    limit: Option<usize>,
) -> Result<Vec<Value>, Stop>
    ensures laid { IfOk result (λ v. items_view v.items
        ≡ map_items (λ b. lay_over (members_view aliases.now.entries) (items_view own.now.items) b) (items_view base.items)) }
    ensures within { IfOk result (λ v. Within limit (items_size (items_view v.items))) }
    ensures past { IfErr result (λ stop. IsDue stop limit (items_size (map_items (λ b. lay_over (members_view aliases.now.entries) (items_view own.now.items) b) (items_view base.items)))) }
{
    let index = EntryIndex::of(alloc, own)?;
    let mut entries = Vec::new(alloc);
    let mut room = limit;
    for entry in base {
        let laid = lay_over(alloc, own, &index, entry, aliases, room)?;
        room = take(&laid, room)?;
        entries.push(laid)?;
    }
    Ok(entries)
}

/// An entry of the base, with the entry of its name over it. `index` finds those of the list.
#[cycle(laying)]
#[tactic(auto, using(crate::proofs::LayingLemmas::get_property))]
fn lay_over(
    alloc: Global,
    own: &Vec<Value>,
    index: &EntryIndex,
    entry: Value,
    aliases: &Map<String, Value>,
    limit: Option<usize>,
) -> Result<Value, Stop>
    requires { index.now.entries.now ≡ own.now }
    ensures laid { IfOk result (λ laid. view laid
        ≡ lay_over (members_view aliases.now.entries) (items_view own.now.items) (view entry)) }
    ensures past { IfErr result (λ stop. IsDue stop limit (size (lay_over (members_view aliases.now.entries) (items_view own.now.items) (view entry)))) }
{
    let Some(Value::Object(members)) = index.first_over(&entry) else {
        return Ok(entry);
    };
    for (name, value) in members.iter() {
        if entry.get(name.as_str()).is_some() {
            let mut properties = properties_below(alloc, Some(entry));
            let base = take_property(&mut properties, name.as_str());
            let laid = lay(alloc, Place::Member, value, base, aliases, limit)?;
            return Ok(only(alloc, properties, name, laid)?);
        }
    }
    Ok(entry)
}

/// The entries whose names the base has not.
#[cycle(laying)]
fn lay_new_entries(
    alloc: Global,
    own: &Vec<Value>,
    base: &Vec<Value>,
    aliases: &Map<String, Value>,
    limit: Option<usize>,
) -> Result<Vec<Value>, Stop>
    ensures laid { IfOk result (λ v. items_view v.items
        ≡ lay_new (members_view aliases.now.entries) (items_view own.now.items) (items_view base.now.items)) }
    ensures within { IfOk result (λ v. Within limit (items_size (items_view v.items))) }
    ensures past { IfErr result (λ stop. IsDue stop limit (items_size (lay_new (members_view aliases.now.entries) (items_view own.now.items) (items_view base.now.items)))) }
{
    let index = EntryIndex::of(alloc, base)?;
    let mut entries = Vec::new(alloc);
    let mut room = limit;
    for item in own {
        room = push_new_item(alloc, item, &index, &mut entries, aliases, room)?;
    }
    Ok(entries)
}

/// Adds the entry that an item of the list is, if the base has none of its name. It answers what is left of the room
/// that the entries so far leave of a limit.
#[cycle(laying)]
fn push_new_item(
    alloc: Global,
    item: &Value,
    base: &EntryIndex,
    entries: &mut Vec<Value>,
    aliases: &Map<String, Value>,
    room: Option<usize>,
) -> Result<Option<usize>, Stop>
    ensures laid { OnOk result ((rest : Items) → join_items (items_view entries.new.items) rest
        ≡ join_items (items_view entries.old.items) (lay_new_entry (members_view aliases.now.entries) (view item.now) (items_view base.now.entries.now.items) rest)) }
    ensures left { IfOk result (λ left. (limit : Option ℕ) → Leaves limit (items_size (items_view entries.old.items)) room → Leaves limit (items_size (items_view entries.new.items)) left) }
    ensures past { IfErr result (λ stop. (limit : Option ℕ) (rest : Items) → Leaves limit (items_size (items_view entries.old.items)) room
        → IsDue stop limit (items_size (join_items (items_view entries.old.items) (lay_new_entry (members_view aliases.now.entries) (view item.now) (items_view base.now.entries.now.items) rest)))) }
{
    let Value::Object(members) = item else {
        return Ok(room);
    };
    let mut left = room;
    for (name, value) in members.iter() {
        if !base.has(name.as_str()) {
            let laid = lay(alloc, Place::Member, value, None, aliases, left)?;
            let entry = single(alloc, name.clone()?, laid)?;
            left = take(&entry, left)?;
            entries.push(entry)?;
        }
    }
    Ok(left)
}

/// The properties that are laid over. A value that is no object has none.
fn properties_below(alloc: Global, base: Option<Value>) -> Map<String, Value>
    ensures { members_view result.entries ≡ members_below (option_map view base) }
{
    match base {
        Some(Value::Object(members)) => members,
        _ => Map::new(alloc),
    }
}

/// The items that are laid over. A value that is no list has none.
fn items_under(alloc: Global, base: Option<Value>) -> Vec<Value>
    ensures { items_view result.items ≡ items_below (option_map view base) }
{
    match base {
        Some(Value::Array(items)) => items,
        _ => Vec::new(alloc),
    }
}

/// A list with the copies of the items at its end.
fn join(mut list: Vec<Value>, items: &Vec<Value>) -> Result<Vec<Value>, AllocError>
    ensures { IfOk result (λ v. items_view v.items ≡ join_items (items_view list.items) (items_view items.now.items)) }
{
    for item in items {
        list.push(item.clone()?)?;
    }
    Ok(list)
}
