//! What a configuration has under the names that a fault is about: aliases, clock types, and the types that have numbers.

ghost use Rattle.std.specs.Prelude.{◌≡◌, IfOk, OnOk, map, option_map, string_bytes};
ghost use Rattle.serde_json.specs.View.{members_view, view};
ghost use Rattle.conf_fault.specs.Explanation.{Adds};
ghost use Rattle.conf_fault.specs.Found.{data_of};
ghost use Rattle.conf_fault.specs.Names.{known_names as names_known, map_of as map_in, other_names as names_but};
ghost use Rattle.conf_fault.specs.Wanted.{IsKnownName, IsLargestNumber, IsRoom, end_name as name_of_end, numbered_types as types_of};

use crate::expected::{push_names, push_nearest};
use crate::found::Found;
use crate::path::end_name;
use crate::source::Source;
use conf_tree::Step;
use serde_json::{Map, Value};
use std::alloc::{AllocError, Global};

/// Adds that the name of such a thing is expected, and the names but `own` that the map of the trace type has, with the one most like what stands there.
pub(crate) fn push_known(
    said: &mut String,
    found: &Found<'_>,
    thing: &str,
    map_name: &str,
    own: &str,
) -> Result<(), AllocError>
    ensures { OnOk result (Adds (IsKnownName found.now.source.text.now (data_of found.now.value) thing.now map_name.now own.now) (string_bytes said.old) (string_bytes said.new)) }
{
    let source = found.source;
    let tree = source.tree()?;
    let words = known_names(source.alloc, &tree, map_name, own)?;
    said.push_str(format!(in source.alloc; "the name of {thing} (there are ")?.as_str())?;
    push_names(said, source.alloc, words.as_slice())?;
    said.push(')')?;
    let Some(word) = found.text()? else {
        return Ok(());
    };
    push_nearest(said, word.as_str(), words.as_slice())
}

/// The names but `own` in the map of the trace type, in byte order.
fn known_names<'v>(
    alloc: Global,
    tree: &'v Option<Value>,
    map_name: &str,
    own: &str,
) -> Result<Vec<&'v str>, AllocError>
    ensures { IfOk result (λ names. map (λ n. n.now) names.items ≡ names_known map_name.now own.now (option_map view tree.now)) }
{
    let Some(tree) = tree else {
        return Ok(Vec::new(alloc));
    };
    match map_of(tree, map_name) {
        Some(members) => other_names(alloc, members, own),
        None => Ok(Vec::new(alloc)),
    }
}

/// The names of members but `own`.
fn other_names<'v>(
    alloc: Global,
    members: &'v Map<String, Value>,
    own: &str,
) -> Result<Vec<&'v str>, AllocError>
    ensures { IfOk result (λ names. map (λ n. n.now) names.items ≡ names_but own.now (members_view members.now.entries)) }
{
    let mut names = Vec::new(alloc);
    for (name, _value) in members.iter() {
        if name.as_str() != own {
            names.push(name.as_str())?;
        }
    }
    Ok(names)
}

/// The map of this name that the trace type has.
#[tactic(auto, unfolding(crate::specs::Names::map_of))]
fn map_of<'v>(tree: &'v Value, name: &str) -> Option<&'v Map<String, Value>>
    ensures { option_map (λ m. members_view m.now.entries) result ≡ map_in name.now (view tree.now) }
{
    tree.get("trace")?.get("type")?.get(name)?.as_object()
}

/// Adds that a feature has to be on, where it is off, and which number its field has to hold.
pub(crate) fn push_room(
    said: &mut String,
    found: &Found<'_>,
    path: &[Step],
) -> Result<(), AllocError>
    ensures { OnOk result (Adds (IsRoom (name_of_end path.now)) (string_bytes said.old) (string_bytes said.new)) }
{
    if found.source.is(found.layer().at, b'f') {
        said.push_str("true, or a field with ")?;
    }
    push_largest_number(found.source, said, path)
}

/// Adds room for the largest of the numbers that a feature tells apart.
fn push_largest_number(
    source: Source<'_>,
    said: &mut String,
    path: &[Step],
) -> Result<(), AllocError>
    ensures { OnOk result (Adds (IsLargestNumber (name_of_end path.now)) (string_bytes said.old) (string_bytes said.new)) }
{
    let types = match path {
        [_, _, Step::Key(map), Step::Key(stream), ..] if map.as_str() == "data-stream-types" => {
            source.property(&[map.as_str(), stream.as_str(), "event-record-types"])?
        }
        _ => source.property(&["data-stream-types"])?,
    };
    if let Some(types) = types
        && let Some(Value::Object(members)) = source.value_of(types.at)?
    {
        let count = members.len();
        let largest = count.saturating_sub(1);
        let things = numbered_types(end_name(path));
        return said.push_str(format!(in source.alloc;
            "room for the number {largest}, since {count} {things} have the numbers 0 to {largest}"
        )?.as_str());
    }
    said.push_str("room for the largest number that it must hold")
}

/// The types that a feature of this name tells apart by their numbers.
fn numbered_types(feature: &str) -> &'static str
    ensures { result.now ≡ types_of feature.now }
{
    if feature == "type-id-field-type" {
        "event record types"
    } else {
        "data stream types"
    }
}
