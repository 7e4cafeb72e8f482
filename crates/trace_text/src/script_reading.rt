//! A script is read.

ghost use Rattle.std.specs.Prelude.{◌≡◌, ◌⊎◌, ◌++◌, ◌∷◌, [], Ok, Err, IfOk, IfErr, OnOk};
ghost use Rattle.serde_json.specs.View.{view, items_view};
ghost use Rattle.trace_stack.specs.declared.event.Event.{Event};
ghost use Rattle.trace_text.specs.declared.script.Script.{Script};
ghost use Rattle.trace_text.specs.declared.script.ScriptStream.{ScriptStream};
ghost use Rattle.trace_text.specs.declared.script_fault.ScriptFaultKind.TheVariants.{OutOfMemory, Shape};
ghost use Rattle.trace_text.specs.Script.{IsScriptOf, lists_in as lists_in_of};
ghost use Rattle.trace_text.specs.ScriptFaults.{IsFirstFault};
ghost use Rattle.trace_text.specs.ScriptReading.{Gives, GivesAll, IsMemory, entries_from, entry_reading, event_reading, script_reading, stream_reading, wanted};

use crate::script::{Script, ScriptStream};
use crate::script_event::read_event_entry;
use crate::script_fault::{ScriptFault, ScriptFaultKind};
use crate::script_object::ScriptObject;
use crate::script_property::{check_names, needed_list, properties};
use crate::script_stream::read_stream_entry;
use ctf_types::{Config, ListOf};
use serde_json::Value;
use std::alloc::Global;
use trace_stack::Event;

/// Reads the text of a script.
///
/// A refusal is the first fault: one that lies in no entry, else that of the first entry that has one, streams before events.
pub fn read_script(alloc: Global, config: &Config, text: &[u8]) -> Result<Script, ScriptFault>
    ensures says { IfOk result (λ s. IsScriptOf config.now text.now s) }
    ensures first { IfErr result (λ fault. IsMemory fault ⊎ IsFirstFault config.now text.now fault) }

    // A text that says a script is read as it, or refused for want of memory.
    ensures only { (s : Script) → IsScriptOf config.now text.now s → IfOk result (λ read. read ≡ s) }
    ensures accepted { (s : Script) → IsScriptOf config.now text.now s → IfErr result IsMemory }
{
    match Value::from_slice(alloc, text) {
        Ok(value) => read_value(alloc, config, &value),
        Err(error) => {
            if error.is_memory() {
                Err(ScriptFault::of_entry(0, ScriptFaultKind::OutOfMemory))
            } else {
                Err(ScriptFault::of_entry(0, ScriptFaultKind::NotJson))
            }
        }
    }
}

#[tactic(auto, unfolding(crate::specs::ScriptReading::script_reading))]
fn read_value(alloc: Global, config: &Config, value: &Value) -> Result<Script, ScriptFault>
    ensures { GivesAll (λ s. s) result (script_reading config.now (view value.now)) }
{
    let (streams, events) = match lists_in(value) {
        Ok(lists) => lists,
        Err(kind) => return Err(ScriptFault::of_entry(0, kind)),
    };
    let streams = read_streams(alloc, config, streams)?;
    let events = read_events(alloc, config, streams.as_slice(), events)?;
    Ok(Script { streams, events })
}

/// The entries of the streams and those of the events.
pub(crate) fn lists_in(value: &Value) -> Result<(&[Value], &[Value]), ScriptFaultKind>
    ensures { Gives (λ l. (items_view l.0.now, items_view l.1.now)) result (wanted Shape (lists_in_of (view value.now))) }
{
    let members = properties(value)?;
    check_names(members, ScriptObject::Whole)?;
    let streams = needed_list(members, "streams")?;
    let events = needed_list(members, "events")?;
    Ok((streams, events))
}

pub(crate) fn read_streams(
    alloc: Global,
    config: &Config,
    entries: &[Value],
) -> Result<ListOf<ScriptStream>, ScriptFault>
    ensures { GivesAll (λ s. s) result (entries_from (entry_reading (stream_reading config.now)) [] 0 (items_view entries.now)) }
{
    let mut streams = ListOf::new(alloc);
    for (index, entry) in entries.iter().enumerate() {
        if let Err(kind) = push_stream(alloc, config, entry, &mut streams) {
            return Err(ScriptFault::of_entry(index, kind));
        }
    }
    Ok(streams)
}

fn push_stream(
    alloc: Global,
    config: &Config,
    entry: &Value,
    streams: &mut ListOf<ScriptStream>,
) -> Result<(), ScriptFaultKind>
    ensures pushed { OnOk result ((s : ScriptStream) × (entry_reading (stream_reading config.now) (view entry.now) ≡ Ok s) × (streams.new ≡ streams.old ++ s ∷ [])) }
    ensures refused { IfErr result (λ kind. (kind ≡ OutOfMemory) ⊎ (entry_reading (stream_reading config.now) (view entry.now) ≡ Err kind)) }
{
    let stream = read_stream_entry(alloc, config, entry)?;
    Ok(streams.push(stream)?)
}

fn read_events(
    alloc: Global,
    config: &Config,
    streams: &[ScriptStream],
    entries: &[Value],
) -> Result<ListOf<Event>, ScriptFault>
    ensures { GivesAll (λ e. e) result (entries_from (entry_reading (event_reading config.now streams.now)) [] 0 (items_view entries.now)) }
{
    let mut events = ListOf::new(alloc);
    for (index, entry) in entries.iter().enumerate() {
        if let Err(kind) = push_event(alloc, config, streams, entry, &mut events) {
            return Err(ScriptFault::of_entry(index, kind));
        }
    }
    Ok(events)
}

fn push_event(
    alloc: Global,
    config: &Config,
    streams: &[ScriptStream],
    entry: &Value,
    events: &mut ListOf<Event>,
) -> Result<(), ScriptFaultKind>
    ensures pushed { OnOk result ((e : Event) × (entry_reading (event_reading config.now streams.now) (view entry.now) ≡ Ok e) × (events.new ≡ events.old ++ e ∷ [])) }
    ensures refused { IfErr result (λ kind. (kind ≡ OutOfMemory) ⊎ (entry_reading (event_reading config.now streams.now) (view entry.now) ≡ Err kind)) }
{
    let event = read_event_entry(alloc, config, streams, entry)?;
    Ok(events.push(event)?)
}
