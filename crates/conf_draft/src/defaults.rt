//! What a property is that is left out, as its row in the table says.
ghost use Rattle.std.specs.Prelude.{◌≡◌};
ghost use Rattle.serde_json.specs.View.{members_view};
ghost use Rattle.conf_draft.specs.Defaults.{default_number as default_number_of, number_or_default as number_in, alignment_or_default as alignment_in, default_flag as default_flag_of, flag_or_default as flag_in, of_trace as of_trace_type, of_stream as of_stream_type, is_on as is_on_in};

use crate::lookup::{alignment, natural};
use conf_table::{Place, Presence, presence};
use conf_tree::optional;
use ctf_types::Text;
use serde_json::{Map, Value};

/// The number that the property `name` of an object at this place is, where it is left out. Where its row tells of none, it is 0.
fn default_number(place: Place, name: &str) -> u64
    ensures { result ≡ default_number_of place name.now }
{
    match presence(place, name) {
        Some(Presence::Number(number)) => number,
        _ => 0,
    }
}

/// The whole number from 0 to 2^64 - 1 that the property `name` of an object at this place is, or that of its row.
pub(crate) fn number_or_default(place: Place, members: &Map<String, Value>, name: &str) -> u64
    ensures { result ≡ number_in place name.now (members_view members.now.entries) }
{
    match natural(members, name) {
        Some(number) => number,
        None => default_number(place, name),
    }
}

/// The alignment in bits that the property `name` of an object at this place is, or that of its row.
pub(crate) fn alignment_or_default(place: Place, members: &Map<String, Value>, name: &str) -> u64
    ensures { result ≡ alignment_in place name.now (members_view members.now.entries) }
{
    match alignment(members, name) {
        Some(alignment) => alignment,
        None => default_number(place, name),
    }
}

/// The flag that the property `name` of an object at this place is, where it is left out. Where its row tells of none, it is off.
fn default_flag(place: Place, name: &str) -> bool
    ensures { result ≡ default_flag_of place name.now }
{
    presence(place, name) == Some(Presence::Flag(true))
}

/// The flag that the property `name` of an object at this place is, or that of its row.
#[tactic(auto, unfolding(crate::specs::Lookups::flag))]
pub(crate) fn flag_or_default(place: Place, members: &Map<String, Value>, name: &str) -> bool
    ensures { result ≡ flag_in place name.now (members_view members.now.entries) }
{
    match optional(members, name).and_then(Value::as_bool) {
        Some(flag) => flag,
        None => default_flag(place, name),
    }
}

/// What is there that a feature may be on with where it is left out.
#[derive(Clone, Copy)]
pub(crate) struct Given {
    /// The trace type has an identifier.
    uuid: bool,
    /// The data stream type has a default clock.
    clock: bool,
}

impl Given {
    /// In a trace type.
    pub(crate) fn of_trace(has_uuid: bool) -> Given
        ensures { result ≡ of_trace_type has_uuid }
    {
        Given {
            uuid: has_uuid,
            clock: false,
        }
    }

    /// In a data stream type with this default clock.
    pub(crate) fn of_stream(clock: &Option<Text>) -> Given
        ensures { result ≡ of_stream_type clock.now }
    {
        Given {
            uuid: false,
            clock: clock.is_some(),
        }
    }
}

/// Whether the feature `name` of an object at this place is on where it is left out.
pub(crate) fn is_on(place: Place, name: &str, given: Given) -> bool
    ensures { result ≡ is_on_in place name.now given }
{
    match presence(place, name) {
        Some(Presence::Flag(on)) => on,
        Some(Presence::WithIdentifier) => given.uuid,
        Some(Presence::WithClock) => given.clock,
        _ => false,
    }
}
