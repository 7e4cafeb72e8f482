//! The streams of a script.

ghost use Rattle.std.specs.Prelude.{◌≡◌, option_map};
ghost use Rattle.serde_json.specs.View.{view, items_view};
ghost use Rattle.trace_text.specs.declared.script_fault.ScriptFaultKind.TheVariants.{Shape, NoSuchStream};
ghost use Rattle.trace_text.specs.ScriptEntries.{natural as natural_of, readings_of, type_named as type_named_of};
ghost use Rattle.trace_text.specs.ScriptReading.{Gives, wanted, entry_reading, stream_made, stream_reading};

use crate::script::ScriptStream;
use crate::script_fault::ScriptFaultKind;
use crate::script_object::ScriptObject;
use crate::script_property::{check_names, list_in, properties, text_in};
use crate::script_value::structure_values;
use ctf_types::{Config, ListOf, StreamType, Text};
use plain_lists::both;
use serde_json::Value;
use std::alloc::Global;

/// The stream that an entry of the list of streams says.
#[tactic(auto, unfolding(crate::specs::ScriptReading::stream_reading))]
pub(crate) fn read_stream_entry(
    alloc: Global,
    config: &Config,
    entry: &Value,
) -> Result<ScriptStream, ScriptFaultKind>
    ensures { Gives (λ s. s) result (entry_reading (stream_reading config.now) (view entry.now)) }
{
    let members = properties(entry)?;
    check_names(members, ScriptObject::Stream)?;
    let name = text_in(members, "name")?;
    let type_name = text_in(members, "type")?;
    let extras = list_in(members, "extras")?;
    let clock = clock_of(alloc, list_in(members, "clock")?)?;
    let stream_type = type_named(config, type_name)?;
    make_stream(alloc, stream_type, name, type_name, clock, extras)
}

/// The first stream type of a name.
pub(crate) fn type_named<'c>(
    config: &'c Config,
    name: &str,
) -> Result<&'c StreamType, ScriptFaultKind>
    ensures { Gives (λ t. t.now) result (wanted NoSuchStream (type_named_of config.now name.now)) }
{
    let types = config.streams.as_slice();
    for stream_type in types {
        if stream_type.name.as_str() == name {
            return Ok(stream_type);
        }
    }
    Err(ScriptFaultKind::NoSuchStream)
}

#[tactic(auto, unfolding(crate::specs::ScriptReading::stream_made))]
fn make_stream(
    alloc: Global,
    stream_type: &StreamType,
    name: &str,
    type_name: &str,
    clock: ListOf<u64>,
    extras: &[Value],
) -> Result<ScriptStream, ScriptFaultKind>
    ensures { Gives (λ s. s) result (stream_made stream_type.now name.now type_name.now clock (items_view extras.now)) }
{
    let extras = structure_values(alloc, &stream_type.extras, extras)?;
    let (name, type_name) = both(
        Text::from_str(alloc, name),
        Text::from_str(alloc, type_name),
    )?;
    Ok(ScriptStream {
        name,
        type_name,
        clock,
        extras,
    })
}

/// Readings of a clock: whole numbers of 64 bits, none of them below the one before it.
fn clock_of(alloc: Global, items: &[Value]) -> Result<ListOf<u64>, ScriptFaultKind>
    ensures { Gives (λ r. r) result (wanted Shape (readings_of (items_view items.now))) }
{
    let mut readings = ListOf::new(alloc);
    let mut floor = 0;
    for item in items {
        let reading = natural(item)?;
        if reading < floor {
            return Err(ScriptFaultKind::Shape);
        }
        floor = reading;
        readings.push(reading)?;
    }
    Ok(readings)
}

fn natural(value: &Value) -> Result<u64, ScriptFaultKind>
    ensures { Gives (λ n. n) result (wanted Shape (natural_of (view value.now))) }
{
    match value.as_u64() {
        Some(number) => Ok(number),
        None => Err(ScriptFaultKind::Shape),
    }
}
