//! A script: the streams of a session, and what they are to do.

use ctf_types::{ListOf, Text, Values};
use trace_stack::Event;

/// The streams of a script, and their events in order. An event's stream is a number in the list of streams.
#[derive(Debug, Drop)]
pub struct Script {
    pub streams: ListOf<ScriptStream>,
    pub events: ListOf<Event>,
}

/// A stream of a script.
#[derive(Debug, Drop)]
pub struct ScriptStream {
    /// Any text: whether a session can have a stream of this name is judged by `names_fault`.
    pub name: Text,
    /// The name of its data stream type.
    pub type_name: Text,
    /// The readings of its clock, which do not fall.
    pub clock: ListOf<u64>,
    /// The values of the extra members of its packet context.
    pub extras: Values,
}
