//! The features of a trace type and of a data stream type: fields that the tracer fills itself.
ghost use Rattle.std.specs.Prelude.{◌≡◌, Some, IsSome, IfOk};
ghost use Rattle.serde_json.specs.View.{members_view};
ghost use Rattle.conf_draft.specs.Features.{number_type, magic_type, byte_type, header as header_in, context as context_in, event_header as event_header_in, feature as feature_in, identifier as identifier_in, byte_of as byte_of_array, size as size_in, mapped as mapped_of, timestamp as timestamp_in};

use crate::defaults::{Given, is_on};
use crate::integer::integer;
use crate::lookup::object;
use conf_table::Place;
use conf_tree::optional;
use ctf_types::{Base, ContextFeatures, EventFeatures, HeaderFeatures, IntType, Text};
use serde_json::{Map, Value};
use std::alloc::{AllocError, Global};

/// The fields of the packet header, where the trace type may have an identifier.
#[tactic(auto, unfolding(crate::specs::Features::header))]
pub(crate) fn header(features: &Map<String, Value>, has_uuid: bool) -> HeaderFeatures
    requires { IsSome (header_in has_uuid (members_view features.now.entries)) }
    ensures { header_in has_uuid (members_view features.now.entries) ≡ Some result }
{
    let place = Place::TraceFeatures;
    let given = Given::of_trace(has_uuid);
    HeaderFeatures {
        magic: feature(place, features, "magic-field-type", given, magic()),
        uuid: identifier(place, features, "uuid-field-type", given),
        stream_id: feature(
            place,
            features,
            "data-stream-type-id-field-type",
            given,
            number(),
        ),
    }
}

/// The fields of a packet context, where a data stream type has this default clock.
#[tactic(auto, unfolding(crate::specs::Features::context))]
pub(crate) fn context(
    alloc: Global,
    packet: &Map<String, Value>,
    clock: &Option<Text>,
) -> Result<ContextFeatures, AllocError>
    requires { IsSome (context_in clock.now (members_view packet.now.entries)) }
    ensures { IfOk result (λ f. context_in clock.now (members_view packet.now.entries) ≡ Some f) }
{
    let place = Place::PacketFeatures;
    let given = Given::of_stream(clock);
    let begin = timestamp(
        alloc,
        place,
        packet,
        "beginning-timestamp-field-type",
        clock,
    )?;
    let end = timestamp(alloc, place, packet, "end-timestamp-field-type", clock)?;
    Ok(ContextFeatures {
        packet_size: size(place, packet, "total-size-field-type", given),
        content_size: size(place, packet, "content-size-field-type", given),
        timestamp_begin: begin,
        timestamp_end: end,
        events_discarded: feature(
            place,
            packet,
            "discarded-event-records-counter-snapshot-field-type",
            given,
            number(),
        ),
        packet_seq_num: feature(place, packet, "sequence-number-field-type", given, number()),
    })
}

/// The fields of an event record header, where a data stream type has this default clock.
#[tactic(auto, unfolding(crate::specs::Features::event_header))]
pub(crate) fn event_header(
    alloc: Global,
    event_record: &Map<String, Value>,
    clock: &Option<Text>,
) -> Result<EventFeatures, AllocError>
    requires { IsSome (event_header_in clock.now (members_view event_record.now.entries)) }
    ensures { IfOk result (λ f. event_header_in clock.now (members_view event_record.now.entries) ≡ Some f) }
{
    let place = Place::EventRecordFeatures;
    let given = Given::of_stream(clock);
    let timestamp = timestamp(alloc, place, event_record, "timestamp-field-type", clock)?;
    Ok(EventFeatures {
        id: feature(place, event_record, "type-id-field-type", given, number()),
        timestamp,
    })
}

/// The type of a field that is on, where it has none of its own.
fn number() -> IntType
    ensures { result ≡ number_type }
{
    IntType::new(64, 8, false, Base::Dec).unwrap()
}

/// The type of the magic number.
fn magic() -> IntType
    ensures { result ≡ magic_type }
{
    IntType::new(32, 8, false, Base::Hex).unwrap()
}

/// The type of each byte of an identifier.
fn byte() -> IntType
    ensures { result ≡ byte_type }
{
    IntType::new(8, 8, false, Base::Dec).unwrap()
}

/// The type of the field that a feature of an object at this place is, where it is on: its own, or this one.
#[tactic(auto, unfolding(crate::specs::Features::feature))]
fn feature(
    place: Place,
    members: &Map<String, Value>,
    name: &str,
    given: Given,
    otherwise: IntType,
) -> Option<IntType>
    requires { IsSome (feature_in place name.now given otherwise (members_view members.now.entries)) }
    ensures { feature_in place name.now given otherwise (members_view members.now.entries) ≡ Some result }
{
    match optional(members, name) {
        Some(Value::Bool(on)) => on.then_some(otherwise),
        Some(Value::Object(own)) => Some(integer(false, own)),
        _ => is_on(place, name, given).then_some(otherwise),
    }
}

/// The type of each byte of an identifier, where it is on.
#[tactic(auto, unfolding(crate::specs::Features::identifier))]
fn identifier(
    place: Place,
    members: &Map<String, Value>,
    name: &str,
    given: Given,
) -> Option<IntType>
    requires { IsSome (identifier_in place name.now given (members_view members.now.entries)) }
    ensures { identifier_in place name.now given (members_view members.now.entries) ≡ Some result }
{
    match optional(members, name) {
        Some(Value::Bool(on)) => on.then_some(byte()),
        Some(Value::Object(array)) => Some(byte_of(array)),
        _ => is_on(place, name, given).then_some(byte()),
    }
}

/// The type of an array's elements, which are bytes.
#[tactic(auto, unfolding(crate::specs::Features::byte_of))]
fn byte_of(array: &Map<String, Value>) -> IntType
    requires { IsSome (byte_of_array (members_view array.now.entries)) }
    ensures { byte_of_array (members_view array.now.entries) ≡ Some result }
{
    integer(false, object(array, "element-field-type").unwrap())
}

/// The type of a size, which is always on.
#[tactic(auto, unfolding(crate::specs::Features::size))]
fn size(place: Place, members: &Map<String, Value>, name: &str, given: Given) -> IntType
    requires { IsSome (size_in place name.now given (members_view members.now.entries)) }
    ensures { size_in place name.now given (members_view members.now.entries) ≡ Some result }
{
    feature(place, members, name, given, number()).unwrap_or(number())
}

/// The type of a timestamp, where it is on. It has the values of the default clock, where there is one.
#[tactic(auto, unfolding(crate::specs::Features::timestamp))]
fn timestamp(
    alloc: Global,
    place: Place,
    members: &Map<String, Value>,
    name: &str,
    clock: &Option<Text>,
) -> Result<Option<IntType>, AllocError>
    requires { IsSome (timestamp_in place name.now clock.now (members_view members.now.entries)) }
    ensures { IfOk result (λ t. timestamp_in place name.now clock.now (members_view members.now.entries) ≡ Some t) }
{
    match feature(place, members, name, Given::of_stream(clock), number()) {
        Some(integer) => Ok(Some(mapped(alloc, clock, integer)?)),
        None => Ok(None),
    }
}

/// An integer that is mapped to the clock, if there is one.
#[tactic(auto, unfolding(crate::specs::Features::mapped))]
fn mapped(alloc: Global, clock: &Option<Text>, integer: IntType) -> Result<IntType, AllocError>
    ensures { IfOk result (λ t. t ≡ mapped_of clock.now integer) }
{
    match clock {
        Some(name) => Ok(integer.with_clock(name.copy(alloc)?)),
        None => Ok(integer),
    }
}
