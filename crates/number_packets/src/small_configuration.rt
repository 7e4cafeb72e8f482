//! The configuration of the first path and its metadata: packets of numbers of 8 bits.

ghost use Rattle.std.specs.Prelude.{◌≡◌, ◌<◌, ◌≤◌, None, IfOk, false};
ghost use Rattle.ctf_types.specs.declared.FieldType.TheVariants.{Int};
ghost use Rattle.ctf_types.specs.declared.MemberType.TheVariants.{Plain};
ghost use Rattle.ctf_types.specs.Allowed.{IsMetadata};
ghost use Rattle.ctf_types.specs.AllowedConfig.{IsConfig};
ghost use Rattle.ctf_types.specs.MetadataOf.{metadata_of};
ghost use Rattle.number_packets.specs.SmallConfiguration as small;

use ctf_types::{
    Base, ByteOrder, Config, ContextFeatures, Event, EventFeatures, EventType, FieldType,
    HeaderFeatures, IntType, ListOf, MemberType, Members, Metadata, Stream, StreamType, StructType,
    Text,
};
use std::alloc::{AllocError, AllocFailed, Global};

/// One stream type `s` with one event record type `e`, whose payload is the number `v` of 8 bits. No clock, no identifier.
pub fn small_config(alloc: Global) -> Result<Config, AllocError>
    ensures is { IfOk result (λ c. c ≡ small.small_config) }
    ensures allowed { IfOk result (λ c. IsConfig c) }
    ensures has_metadata { IfOk result (λ c. metadata_of c ≡ small.small_metadata) }
{
    let mut streams = ListOf::new(alloc);
    streams.push(small_stream_type(alloc)?)?;
    Ok(Config {
        order: ByteOrder::Little,
        uuid: None,
        environment: ListOf::new(alloc),
        clocks: ListOf::new(alloc),
        header: HeaderFeatures {
            magic: Some(magic_type()),
            uuid: None,
            stream_id: None,
        },
        streams,
    })
}

fn small_stream_type(alloc: Global) -> Result<StreamType, AllocError>
    ensures { IfOk result (λ s. s ≡ small.small_stream_type) }
{
    let mut events = ListOf::new(alloc);
    events.push(small_event_type(alloc)?)?;
    Ok(StreamType {
        name: Text::from_str(alloc, "s")?,
        default_clock: None,
        context: ContextFeatures {
            packet_size: size_type(),
            content_size: size_type(),
            timestamp_begin: None,
            timestamp_end: None,
            events_discarded: None,
            packet_seq_num: None,
        },
        extras: no_struct(alloc),
        event_header: EventFeatures {
            id: None,
            timestamp: None,
        },
        common: no_struct(alloc),
        events,
    })
}

fn small_event_type(alloc: Global) -> Result<EventType, AllocError>
    ensures { IfOk result (λ e. e ≡ small.small_event_type) }
{
    Ok(EventType {
        name: Text::from_str(alloc, "e")?,
        log_level: None,
        specific: no_struct(alloc),
        payload: payload_type(alloc)?,
    })
}

/// What a reader of such packets knows: the metadata of that configuration.
pub fn small_metadata(alloc: Global) -> Result<Metadata, AllocError>
    ensures is { IfOk result (λ m. m ≡ small.small_metadata) }
    ensures allowed { IfOk result (λ m. IsMetadata m) }
{
    let mut streams = ListOf::new(alloc);
    streams.push(small_stream(alloc)?)?;
    Ok(Metadata {
        order: ByteOrder::Little,
        uuid: None,
        environment: ListOf::new(alloc),
        clocks: ListOf::new(alloc),
        header: small_header(alloc)?,
        streams,
    })
}

fn small_header(alloc: Global) -> Result<StructType, AllocError>
    ensures { IfOk result (λ s. s ≡ small.small_metadata.header) }
{
    let mut members = Members::new(alloc);
    members.push(Text::from_str(alloc, "magic")?, number(magic_type()))?;
    Ok(StructType {
        members,
        min_align: 8,
    })
}

fn small_stream(alloc: Global) -> Result<Stream, AllocError>
    ensures { IfOk result (λ s. s ≡ small.small_stream) }
{
    let mut events = ListOf::new(alloc);
    events.push(small_event(alloc)?)?;
    Ok(Stream {
        id: 0,
        context: small_context(alloc)?,
        event_header: no_struct(alloc),
        common: no_struct(alloc),
        events,
    })
}

fn small_context(alloc: Global) -> Result<StructType, AllocError>
    ensures { IfOk result (λ s. s ≡ small.small_stream.context) }
{
    let mut members = Members::new(alloc);
    members.push(Text::from_str(alloc, "packet_size")?, number(size_type()))?;
    members.push(Text::from_str(alloc, "content_size")?, number(size_type()))?;
    Ok(StructType {
        members,
        min_align: 8,
    })
}

fn small_event(alloc: Global) -> Result<Event, AllocError>
    ensures { IfOk result (λ e. e ≡ small.small_event) }
{
    Ok(Event {
        id: 0,
        name: Text::from_str(alloc, "e")?,
        log_level: None,
        specific: no_struct(alloc),
        fields: payload_type(alloc)?,
    })
}

fn payload_type(alloc: Global) -> Result<StructType, AllocError>
    ensures { IfOk result (λ s. s ≡ small.payload_type) }
{
    let mut members = Members::new(alloc);
    members.push(Text::from_str(alloc, "v")?, number(value_type()))?;
    Ok(StructType {
        members,
        min_align: 1,
    })
}

/// A structure without members: it is not there.
fn no_struct(alloc: Global) -> StructType
    ensures { result ≡ small.no_struct }
{
    StructType {
        members: Members::new(alloc),
        min_align: 1,
    }
}

fn number(int: IntType) -> MemberType
    ensures { result ≡ Plain (Int int) }
{
    MemberType::Plain(FieldType::Int(int))
}

fn size_type() -> IntType
    ensures { result ≡ small.size_type }
{
    unsigned(32, Base::Dec)
}

fn magic_type() -> IntType
    ensures { result ≡ small.magic_type }
{
    unsigned(32, Base::Hex)
}

fn value_type() -> IntType
    ensures { result ≡ small.value_type }
{
    unsigned(8, Base::Dec)
}

/// An unsigned number of this many bits at a multiple of 8 bits.
fn unsigned(size: u8, base: Base) -> IntType
    requires some { 0 < size }
    requires at_most_64 { size ≤ 64 }
    ensures size { result.size ≡ size }
    ensures align { result.align ≡ 8 }
    ensures unsigned { result.signed ≡ false }
    ensures base { result.base ≡ base }
    ensures no_clock { result.clock ≡ None }
{
    match IntType::new(size, 8, false, base) {
        Some(int) => int,
        None => unreachable!(),
    }
}
