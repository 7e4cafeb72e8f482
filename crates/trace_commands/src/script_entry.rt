//! What is said of the entry where a script has a fault, by the JSON that its text is, and the names that there are.

ghost use Rattle.std.specs.Prelude.{◌≡◌, ◌++◌, ℕ, List, IfOk, OnOk, string_bytes};
ghost use Rattle.conf_tree.specs.Walk.{Reads};
ghost use Rattle.serde_json.specs.View.{view};
ghost use Rattle.trace_text.specs.ScriptFaults.{IsFirstFault};
ghost use Rattle.trace_commands.specs.ScriptLines.{SaysEntry, TellsKind, of_entry};

use crate::bad_value::{push_bad_extra, push_bad_field};
use crate::script_form::{push_event_property, push_property, push_value};
use conf_fault::push_cut;
use ctf_types::{Config, EventType, StreamType};
use serde_json::Value;
use std::alloc::{AllocError, Global};
use trace_text::{FaultyList, ScriptFault, ScriptFaultKind, ScriptObject, faulty_list};

/// Where a script has a fault.
#[derive(Clone, Copy)]
struct Place<'v> {
    list: FaultyList,
    /// The entry of the list, or the whole script.
    value: &'v Value,
}

/// What is said of the first fault of a script's value: the number of the entry, of an object of another form also the property, what stands there, what is wrong
/// with it, and of an unknown name those that there are.
pub fn said_of_fault(
    alloc: Global,
    config: &Config,
    script: &Value,
    fault: &ScriptFault,
) -> Result<String, AllocError>
    ensures { IfOk result (λ said. (text : List ℕ) → Reads text (view script.now) → IsFirstFault config.now text fault.now → SaysEntry config.now (view script.now) fault.now (string_bytes said)) }
{
    let list = faulty_list(alloc, config, script)?;
    let place = Place {
        list,
        value: entry_in(script, list, fault.at),
    };
    let mut said = String::new(alloc);
    push_wrong(alloc, &mut said, config, script, &place, fault.kind)?;
    placed(alloc, list, fault.at, said.as_str())
}

/// This, behind the place of the entry of this number in a list, if it is in one.
pub fn placed(
    alloc: Global,
    list: FaultyList,
    number: usize,
    said: &str,
) -> Result<String, AllocError>
    ensures { IfOk result (λ placed. string_bytes placed ≡ of_entry list number said.now) }
{
    match list {
        FaultyList::Neither => String::from_str(alloc, said),
        FaultyList::Streams => format!(in alloc; "streams/{number}: {said}"),
        FaultyList::Events => format!(in alloc; "events/{number}: {said}"),
    }
}

/// The entry of this number in a list of the script, or the script.
fn entry_in<'v>(script: &'v Value, list: FaultyList, number: usize) -> &'v Value {
    let entry = match list {
        FaultyList::Neither => None,
        FaultyList::Streams => entries(script, "streams").get(number),
        FaultyList::Events => entries(script, "events").get(number),
    };
    entry.unwrap_or(script)
}

/// Adds what stands there and what is wrong with it, or the property at which it is of another form.
fn push_wrong(
    alloc: Global,
    said: &mut String,
    config: &Config,
    script: &Value,
    place: &Place<'_>,
    kind: ScriptFaultKind,
) -> Result<(), AllocError>
    ensures { OnOk result (TellsKind kind (string_bytes said.new)) }
{
    if kind == ScriptFaultKind::Shape && push_form(alloc, said, place)? {
        return Ok(());
    }
    push_blamed(alloc, said, config, script, place, kind)?;
    let kind_words = format!(in alloc; ": {kind}")?;
    said.push_str(kind_words.as_str())?;
    push_known(alloc, said, config, script, place, kind)
}

/// Adds the property at which a script is of another form. Where the object itself is none, nothing is added, and the answer is false.
fn push_form(alloc: Global, said: &mut String, place: &Place<'_>) -> Result<bool, AllocError> {
    match place.list {
        FaultyList::Neither => push_property(alloc, said, place.value, ScriptObject::Whole),
        FaultyList::Streams => push_property(alloc, said, place.value, ScriptObject::Stream),
        FaultyList::Events => push_event_property(alloc, said, place.value),
    }
}

/// Adds the first value of an entry that no field takes, with its place. Where none is found, nothing is added, and the answer is false.
fn push_bad(
    alloc: Global,
    said: &mut String,
    config: &Config,
    script: &Value,
    place: &Place<'_>,
) -> Result<bool, AllocError> {
    match place.list {
        FaultyList::Neither => Ok(false),
        FaultyList::Streams => match stream_type_of(config, place.value) {
            Some(stream_type) => push_bad_extra(alloc, said, place.value, stream_type),
            None => Ok(false),
        },
        FaultyList::Events => match event_type_of(config, script, place.value) {
            Some((stream_type, event)) => {
                push_bad_field(alloc, said, place.value, stream_type, event)
            }
            None => Ok(false),
        },
    }
}

/// The value that no field takes, the name that is unknown, or the entry, by its first characters.
fn push_blamed(
    alloc: Global,
    said: &mut String,
    config: &Config,
    script: &Value,
    place: &Place<'_>,
    kind: ScriptFaultKind,
) -> Result<(), AllocError> {
    if kind == ScriptFaultKind::BadValue && push_bad(alloc, said, config, script, place)? {
        return Ok(());
    }
    match unknown_name(place, kind) {
        Some(name) => push_cut(said, name),
        None => push_value(alloc, said, place.value),
    }
}

/// The name at which an entry has a fault of this kind.
fn unknown_name<'v>(place: &Place<'v>, kind: ScriptFaultKind) -> Option<&'v str> {
    match (place.list, kind) {
        (FaultyList::Streams, ScriptFaultKind::NoSuchStream) => text_in(place.value, "type"),
        (FaultyList::Events, ScriptFaultKind::NoSuchStream) => stream_of(place.value),
        (FaultyList::Events, ScriptFaultKind::NoSuchEvent) => text_in(place.value, "event"),
        _ => None,
    }
}

/// The name of an event's stream: where it traces no event record, what its only property says.
fn stream_of(event: &Value) -> Option<&str> {
    match text_in(event, "trace") {
        Some(name) => Some(name),
        None => {
            let (_, value) = event.as_object()?.iter().next()?;
            value.as_str()
        }
    }
}

fn text_in<'v>(entry: &'v Value, name: &str) -> Option<&'v str> {
    entry.get(name)?.as_str()
}

/// What was expected of an unknown name, and the names that there are, by their first characters.
fn push_known(
    alloc: Global,
    said: &mut String,
    config: &Config,
    script: &Value,
    place: &Place<'_>,
    kind: ScriptFaultKind,
) -> Result<(), AllocError>
    ensures { OnOk result ((more : List ℕ) × (string_bytes said.new ≡ string_bytes said.old ++ more)) }
{
    let (expected, names) = match (place.list, kind) {
        (FaultyList::Streams, ScriptFaultKind::NoSuchStream) => {
            (": expected a data stream type", type_names(alloc, config)?)
        }
        (FaultyList::Events, ScriptFaultKind::NoSuchStream) => {
            (": expected a stream", stream_names(alloc, script)?)
        }
        (FaultyList::Events, ScriptFaultKind::NoSuchEvent) => {
            (
                "",
                event_names(alloc, type_of(config, script, place.value))?,
            )
        }
        _ => return Ok(()),
    };
    said.push_str(expected)?;
    if names.is_empty() {
        return said.push_str(" (there are none)");
    }
    said.push_str(" (there are: ")?;
    push_cut(said, names.as_str())?;
    said.push(')')
}

/// The names of the configuration's data stream types.
fn type_names(alloc: Global, config: &Config) -> Result<String, AllocError> {
    let mut names = String::new(alloc);
    for stream_type in config.streams.as_slice() {
        add_name(&mut names, stream_type.name.as_str())?;
    }
    Ok(names)
}

/// The names of the script's streams.
fn stream_names(alloc: Global, script: &Value) -> Result<String, AllocError> {
    let mut names = String::new(alloc);
    for entry in entries(script, "streams") {
        if let Some(name) = text_in(entry, "name") {
            add_name(&mut names, name)?;
        }
    }
    Ok(names)
}

/// The names of the event record types of a data stream type.
fn event_names(alloc: Global, stream_type: Option<&StreamType>) -> Result<String, AllocError> {
    let mut names = String::new(alloc);
    let Some(stream_type) = stream_type else {
        return Ok(names);
    };
    for event in stream_type.events.as_slice() {
        add_name(&mut names, event.name.as_str())?;
    }
    Ok(names)
}

/// The type of the stream of an event.
fn type_of<'c>(config: &'c Config, script: &Value, event: &Value) -> Option<&'c StreamType> {
    let name = stream_of(event)?;
    let stream = entries(script, "streams")
        .iter()
        .find(|entry| text_in(entry, "name") == Some(name))?;
    stream_type_of(config, stream)
}

/// The type that a stream's entry names.
fn stream_type_of<'c>(config: &'c Config, stream: &Value) -> Option<&'c StreamType> {
    let type_name = text_in(stream, "type")?;
    config
        .streams
        .as_slice()
        .iter()
        .find(|stream_type| stream_type.name.as_str() == type_name)
}

/// The type of an event that is traced, and that of its stream.
fn event_type_of<'c>(
    config: &'c Config,
    script: &Value,
    event: &Value,
) -> Option<(&'c StreamType, &'c EventType)> {
    let stream_type = type_of(config, script, event)?;
    let name = text_in(event, "event")?;
    let event_type = stream_type
        .events
        .as_slice()
        .iter()
        .find(|event_type| event_type.name.as_str() == name)?;
    Some((stream_type, event_type))
}

fn entries<'v>(script: &'v Value, name: &str) -> &'v [Value] {
    match script.get(name) {
        Some(Value::Array(entries)) => entries.as_slice(),
        _ => &[],
    }
}

fn add_name(names: &mut String, name: &str) -> Result<(), AllocError> {
    if !names.is_empty() {
        names.push_str(", ")?;
    }
    names.push_str(name)
}
