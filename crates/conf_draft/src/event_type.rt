//! Event record types (barectf 3.1, "Event record type object").
ghost use Rattle.std.specs.Prelude.{◌≡◌, Some, IsSome, IfOk, option_map};
ghost use Rattle.serde_json.specs.View.{view, members_view};
ghost use Rattle.conf_draft.specs.Events.{event_types as event_types_in, event_type as event_type_of, level_of};

use crate::lookup::object_or;
use crate::structure::structure;
use conf_tree::{member, optional};
use conf_values::as_natural;
use ctf_types::{EventType, ListOf, Text};
use serde_json::{Map, Value};
use std::alloc::{AllocError, Global};

/// The event record types of a data stream type, in byte order of their names, where the trace type has these log level
/// aliases.
#[tactic(auto, unfolding(crate::specs::Events::event_types))]
pub(crate) fn event_types(
    alloc: Global,
    stream_type: &Map<String, Value>,
    levels: &Map<String, Value>,
) -> Result<ListOf<EventType>, AllocError>
    requires { IsSome (event_types_in (members_view levels.now.entries) (members_view stream_type.now.entries)) }
    ensures { IfOk result (λ e. event_types_in (members_view levels.now.entries) (members_view stream_type.now.entries) ≡ Some e) }
{
    let mut events = ListOf::new(alloc);
    let empty = Map::new(alloc);
    for (name, value) in object_or(stream_type, "event-record-types", &empty).iter() {
        if let Value::Object(members) = value {
            events.push(event_type(alloc, name.as_str(), members, levels)?)?;
        }
    }
    Ok(events)
}

#[tactic(auto, unfolding(crate::specs::Events::event_type))]
fn event_type(
    alloc: Global,
    name: &str,
    members: &Map<String, Value>,
    levels: &Map<String, Value>,
) -> Result<EventType, AllocError>
    requires { IsSome (event_type_of (members_view levels.now.entries) name.now (members_view members.now.entries)) }
    ensures { IfOk result (λ e. event_type_of (members_view levels.now.entries) name.now (members_view members.now.entries) ≡ Some e) }
{
    let name = Text::from_str(alloc, name)?;
    let specific = structure(alloc, members, "specific-context-field-type")?;
    let payload = structure(alloc, members, "payload-field-type")?;
    Ok(EventType {
        name,
        log_level: log_level(optional(members, "log-level"), levels),
        specific,
        payload,
    })
}

/// The log level that a value is: a number, or the name of an alias of one.
fn log_level(value: Option<&Value>, levels: &Map<String, Value>) -> Option<u64>
    ensures { result ≡ level_of (members_view levels.now.entries) (option_map (λ v. view v.now) value.entry) }
{
    match value? {
        Value::String(name) => as_natural(member(levels, name.as_str())?),
        number => as_natural(number),
    }
}
