//! Clock types (barectf 3.1, "Clock type object").
ghost use Rattle.std.specs.Prelude.{◌≡◌, ◌++◌, IfOk};
ghost use Rattle.serde_json.specs.View.{members_view};
ghost use Rattle.conf_draft.specs.Clocks.{clock_types as clock_types_in, clock_type as clock_type_of};

use crate::defaults::{flag_or_default, number_or_default};
use crate::lookup::{object_or, text, word};
use conf_table::Place;
use conf_tree::optional;
use conf_values::parsed;
use ctf_types::{ClockType, ListOf, Text};
use serde_json::{Map, Value};
use std::alloc::{AllocError, Global};

/// The clock types of a trace type, in byte order of their names.
#[tactic(auto, using(crate::proofs::Lists::behind_one), unfolding(crate::specs::Clocks::clock_types))]
pub(crate) fn clock_types(
    alloc: Global,
    trace_type: &Map<String, Value>,
) -> Result<ListOf<ClockType>, AllocError>
    ensures { IfOk result (λ c. c ≡ clock_types_in (members_view trace_type.now.entries)) }
{
    let mut clocks = ListOf::new(alloc);
    let empty = Map::new(alloc);
    for (name, value) in object_or(trace_type, "clock-types", &empty).iter() {
        if let Value::Object(members) = value {
            clocks.push(clock_type(alloc, name.as_str(), members)?)?;
        }
    }
    Ok(clocks)
}

#[tactic(auto, unfolding(crate::specs::Clocks::clock_type, crate::specs::Lookups::signed))]
fn clock_type(
    alloc: Global,
    name: &str,
    members: &Map<String, Value>,
) -> Result<ClockType, AllocError>
    ensures { IfOk result (λ c. c ≡ clock_type_of name.now (members_view members.now.entries)) }
{
    let empty = Map::new(alloc);
    let offset = object_or(members, "offset", &empty);
    let name = Text::from_str(alloc, name)?;
    let description = text(alloc, members, "description")?;
    Ok(ClockType {
        name,
        uuid: word(members, "uuid").and_then(|word| parsed(word)),
        description,
        frequency: number_or_default(Place::ClockType, members, "frequency"),
        precision: number_or_default(Place::ClockType, members, "precision"),
        offset_seconds: optional(offset, "seconds")
            .and_then(Value::as_i64)
            .unwrap_or(0),
        offset_cycles: number_or_default(Place::ClockOffset, offset, "cycles"),
        absolute: flag_or_default(Place::ClockType, members, "origin-is-unix-epoch"),
    })
}
