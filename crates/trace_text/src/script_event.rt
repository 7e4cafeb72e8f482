//! The events of a script.

ghost use Rattle.std.specs.Prelude.{◌≡◌, option_map};
ghost use Rattle.serde_json.specs.Find.{as_str};
ghost use Rattle.serde_json.specs.View.{view, items_view, members_view};
ghost use Rattle.trace_text.specs.declared.script_fault.ScriptFaultKind.TheVariants.{Shape, NoSuchStream, NoSuchEvent};
ghost use Rattle.trace_text.specs.ScriptEntries.{act_named as act_named_of, both, doing_in as doing_in_of, script_stream_named, event_named as event_named_of};
ghost use Rattle.trace_text.specs.ScriptReading.{Gives, wanted, tracing_made, doing_reading, tracing_reading, event_reading, entry_reading};

use crate::script::ScriptStream;
use crate::script_fault::ScriptFaultKind;
use crate::script_object::ScriptObject;
use crate::script_property::{check_names, list_in, properties, text_in};
use crate::script_stream::type_named;
use crate::script_value::structure_values;
use ctf_types::{Args, Config, EventType, StreamType};
use serde_json::{Map, Value};
use std::alloc::Global;
use trace_stack::{Act, Event};

/// The event of these streams that an entry of the list of events says.
#[tactic(auto, unfolding(crate::specs::ScriptReading::doing_reading))]
pub(crate) fn read_event_entry(
    alloc: Global,
    config: &Config,
    streams: &[ScriptStream],
    entry: &Value,
) -> Result<Event, ScriptFaultKind>
    ensures { Gives (λ e. e) result (entry_reading (event_reading config.now streams.now) (view entry.now)) }
{
    let members = properties(entry)?;
    match doing_in(members) {
        Some((act, name)) => {
            let (stream, _) = stream_named(streams, name)?;
            Ok(Event { stream, act })
        }
        None => read_tracing(alloc, config, streams, members),
    }
}

#[tactic(auto, unfolding(crate::specs::ScriptReading::tracing_reading))]
fn read_tracing(
    alloc: Global,
    config: &Config,
    streams: &[ScriptStream],
    members: &Map<String, Value>,
) -> Result<Event, ScriptFaultKind>
    ensures { Gives (λ e. e) result (tracing_reading config.now streams.now (members_view members.now.entries)) }
{
    check_names(members, ScriptObject::Tracing)?;
    let name = text_in(members, "trace")?;
    let event_name = text_in(members, "event")?;
    let common = list_in(members, "common")?;
    let specific = list_in(members, "specific")?;
    let payload = list_in(members, "payload")?;
    let (stream, script_stream) = stream_named(streams, name)?;
    let stream_type = type_named(config, script_stream.type_name.as_str())?;
    let event = event_named(stream_type.events.as_slice(), event_name)?;
    make_tracing(alloc, stream, stream_type, event, common, specific, payload)
}

#[tactic(auto, unfolding(crate::specs::ScriptReading::tracing_made))]
fn make_tracing(
    alloc: Global,
    stream: usize,
    stream_type: &StreamType,
    event: (usize, &EventType),
    common: &[Value],
    specific: &[Value],
    payload: &[Value],
) -> Result<Event, ScriptFaultKind>
    ensures { Gives (λ e. e) result (tracing_made stream stream_type.now (event.entry.0, event.entry.1.now) (items_view common.now) (items_view specific.now) (items_view payload.now)) }
{
    let (number, event_type) = event;
    let common = structure_values(alloc, &stream_type.common, common)?;
    let specific = structure_values(alloc, &event_type.specific, specific)?;
    let payload = structure_values(alloc, &event_type.payload, payload)?;
    let args = Args {
        common,
        specific,
        payload,
    };
    Ok(Event {
        stream,
        act: Act::Trace(number, args),
    })
}

/// The first stream of a name, and its number.
fn stream_named<'s>(
    streams: &'s [ScriptStream],
    name: &str,
) -> Result<(usize, &'s ScriptStream), ScriptFaultKind>
    ensures { Gives (λ s. (s.0, s.1.now)) result (wanted NoSuchStream (script_stream_named name.now 0 streams.now)) }
{
    for (number, stream) in streams.iter().enumerate() {
        if stream.name.as_str() == name {
            return Ok((number, stream));
        }
    }
    Err(ScriptFaultKind::NoSuchStream)
}

/// The first event record type of a name, and its number.
fn event_named<'t>(
    events: &'t [EventType],
    name: &str,
) -> Result<(usize, &'t EventType), ScriptFaultKind>
    ensures { Gives (λ e. (e.0, e.1.now)) result (wanted NoSuchEvent (event_named_of name.now 0 events.now)) }
{
    for (number, event) in events.iter().enumerate() {
        if event.name.as_str() == name {
            return Ok((number, event));
        }
    }
    Err(ScriptFaultKind::NoSuchEvent)
}

/// The act of an object whose only property is the act's word, and the name of the stream that is to do it.
fn doing_in(members: &Map<String, Value>) -> Option<(Act, &str)>
    ensures { option_map (λ d. (d.0, d.1.now)) result ≡ doing_in_of (members_view members.now.entries) }
{
    if members.len() != 1 {
        return None;
    }
    for (word, stream) in members.iter() {
        return doing(word.as_str(), stream);
    }
    None
}

fn doing<'v>(word: &str, stream: &'v Value) -> Option<(Act, &'v str)>
    ensures { option_map (λ d. (d.0, d.1.now)) result ≡ both (act_named_of word.now) (as_str (view stream.now)) }
{
    let act = act_named(word)?;
    let name = stream.as_str()?;
    Some((act, name))
}

#[tactic(auto, unfolding(crate::specs::ScriptEntries::act_named))]
fn act_named(word: &str) -> Option<Act>
    ensures { result ≡ act_named_of word.now }
{
    match word {
        "open" => Some(Act::OpenPacket),
        "close" => Some(Act::ClosePacket),
        "collect" => Some(Act::Collect),
        "enable" => Some(Act::Enable(true)),
        "disable" => Some(Act::Enable(false)),
        _ => None,
    }
}
