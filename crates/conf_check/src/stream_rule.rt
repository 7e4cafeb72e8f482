//! What the parts of a configuration have to be together, stream type by stream type.
ghost use Rattle.std.specs.Prelude.{◌≡◌, ◌⊎◌, nat_lt};
ghost use Rattle.std.specs.List.{list_all, list_any};
ghost use Rattle.std.specs.Str.{bytes_eq};
ghost use Rattle.ctf_types.specs.FieldTypes.{chain_of};
ghost use Rattle.conf_tree.specs.Flaw.{flaw_of, IsMemory};
ghost use Rattle.conf_tree.specs.Reading.{Gives};
ghost use Rattle.conf_check.specs.Judgement.{in_type as in_type_is};
ghost use Rattle.conf_check.specs.StreamRules.{feature_flaw, timestamp_flaw, is_clocked as is_clocked_is, holds as holds_is, numbers_fit as numbers_fit_is, member_has_bits as member_has_bits_is, struct_has_bits as struct_has_bits_is, records_have_bits as records_have_bits_is, clock_is_there as clock_is_there_is, field_of as field_of_is, clocks_are_there as clocks_are_there_is, is_sized as is_sized_is, timestamps_sized as timestamps_sized_is, judged as judged_is, streams_judged as streams_judged_is};

use conf_tree::{At, ConfFault, FaultKind};
use ctf_types::{Config, FieldType, IntType, MemberType, StreamType, StructType, Text};
use std::alloc::Global;

/// A rule that each data stream type has to keep.
#[derive(Clone, Copy, Debug)]
pub(crate) enum StreamRule {
    /// The field of an event record type's number holds the largest of them.
    NumbersFit,
    /// An event record has at least one bit.
    RecordsHaveBits,
    /// The default clock is a clock type, and each timestamp has a clock.
    ClocksAreThere,
    /// A timestamp has 64 bits. An event record's may have fewer, 8 at least, where its packet has a beginning timestamp.
    TimestampsAreSized,
}

/// A fault of the trace type, seen from the configuration.
pub(crate) fn in_type(alloc: Global, fault: ConfFault) -> ConfFault
    ensures moved { IsMemory result ⊎ (flaw_of result ≡ in_type_is (flaw_of fault)) }
    ensures memory { IsMemory fault → IsMemory result }
{
    fault.in_property(alloc, "type").in_property(alloc, "trace")
}

/// The fault of a feature, seen from its data stream type.
#[tactic(auto, unfolding(crate::specs::StreamRules::feature_flaw))]
fn feature_fault(alloc: Global, group: &str, name: &str, kind: FaultKind) -> ConfFault
    ensures { IsMemory result ⊎ (flaw_of result ≡ feature_flaw group.now name.now kind) }
{
    At::Property(name)
        .fault(alloc, kind)
        .in_property(alloc, group)
        .in_property(alloc, "$features")
}

/// Whether the field holds each number up to the largest. One that is off holds nothing but 0.
#[tactic(auto, unfolding(crate::specs::StreamRules::holds))]
pub(crate) fn holds(largest: usize, feature: &Option<IntType>) -> bool
    ensures { result ≡ holds_is largest feature.now }
{
    match feature {
        None => largest == 0,
        Some(int) => int.size() == 64 || largest < 1 << int.size(),
    }
}

#[tactic(auto, unfolding(crate::specs::StreamRules::numbers_fit))]
fn numbers_fit(alloc: Global, stream: &StreamType) -> Result<(), ConfFault>
    ensures { Gives (λ _. tt) result (numbers_fit_is stream.now) }
{
    let largest = stream.events.len().saturating_sub(1);
    if holds(largest, &stream.event_header.id) {
        return Ok(());
    }
    let kind = FaultKind::FieldTooSmall;
    Err(feature_fault(alloc, "event-record", "type-id-field-type", kind))
}

/// Whether a field has bits: no array in it is empty.
fn field_has_bits(field: &FieldType) -> bool
    ensures { result ≡ list_all (λ n. nat_lt 0 n) (chain_of field.now).lengths }
{
    match field {
        FieldType::Int(_) | FieldType::Enum(_) | FieldType::Str => true,
        FieldType::Static(element, length) => *length > 0 && field_has_bits(element.field_type()),
    }
}

#[tactic(auto, unfolding(crate::specs::StreamRules::member_has_bits))]
fn member_has_bits(member: &MemberType) -> bool
    ensures { result ≡ member_has_bits_is member.now }
{
    match member {
        MemberType::Plain(field) => field_has_bits(field),
        MemberType::Dyn(_, _) => true,
    }
}

#[tactic(auto, unfolding(crate::specs::StreamRules::struct_has_bits))]
fn struct_has_bits(structure: &StructType) -> bool
    ensures { result ≡ struct_has_bits_is structure.now }
{
    for index in 0..structure.members.len() {
        if member_has_bits(structure.members.member_at(index)) {
            return true;
        }
    }
    false
}

#[tactic(auto, unfolding(crate::specs::StreamRules::records_have_bits, crate::specs::StreamRules::header_has_bits))]
fn records_have_bits(alloc: Global, stream: &StreamType) -> Result<(), ConfFault>
    ensures { Gives (λ _. tt) result (records_have_bits_is stream.now) }
{
    let header = stream.event_header.id.is_some()
        || stream.event_header.timestamp.is_some()
        || struct_has_bits(&stream.common);
    for event in stream.events.as_slice() {
        if !(header || struct_has_bits(&event.specific) || struct_has_bits(&event.payload)) {
            return Err(
                At::Property(event.name.as_str())
                    .fault(alloc, FaultKind::ZeroSizeRecord)
                    .in_property(alloc, "event-record-types"),
            );
        }
    }
    Ok(())
}

fn has_clock(config: &Config, name: &Text) -> bool
    ensures { result ≡ list_any (λ c. bytes_eq c.name name.now) config.now.clocks }
{
    let clocks = config.clocks.as_slice();
    clocks
        .iter()
        .any(|clock| clock.name.as_bytes() == name.as_bytes())
}

#[tactic(auto, unfolding(crate::specs::StreamRules::clock_is_there))]
fn clock_is_there(config: &Config, stream: &StreamType) -> bool
    ensures { result ≡ clock_is_there_is config.now.clocks stream.now.default_clock }
{
    match &stream.default_clock {
        None => true,
        Some(name) => has_clock(config, name),
    }
}

/// A timestamp of a data stream type: of its event records, or of the beginning or the end of its packets.
#[derive(Clone, Copy, Debug)]
enum Timestamp {
    Record,
    Beginning,
    End,
}

/// The timestamps in the order in which they are judged.
const TIMESTAMPS: [Timestamp; 3] = [Timestamp::Record, Timestamp::Beginning, Timestamp::End];

/// The field of a timestamp, if it is on.
#[tactic(auto, unfolding(crate::specs::StreamRules::field_of))]
fn field_of(stream: &StreamType, timestamp: Timestamp) -> &Option<IntType>
    ensures { result.now ≡ field_of_is stream.now timestamp }
{
    match timestamp {
        Timestamp::Record => &stream.event_header.timestamp,
        Timestamp::Beginning => &stream.context.timestamp_begin,
        Timestamp::End => &stream.context.timestamp_end,
    }
}

/// The fault of a timestamp, seen from its data stream type.
#[tactic(auto, unfolding(crate::specs::StreamRules::timestamp_flaw))]
fn timestamp_fault(alloc: Global, timestamp: Timestamp, kind: FaultKind) -> ConfFault
    ensures { IsMemory result ⊎ (flaw_of result ≡ timestamp_flaw timestamp kind) }
{
    let (group, name) = match timestamp {
        Timestamp::Record => ("event-record", "timestamp-field-type"),
        Timestamp::Beginning => ("packet", "beginning-timestamp-field-type"),
        Timestamp::End => ("packet", "end-timestamp-field-type"),
    };
    feature_fault(alloc, group, name, kind)
}

/// Whether a timestamp, if it is on, has a clock.
#[tactic(auto, unfolding(crate::specs::StreamRules::is_clocked))]
fn is_clocked(stream: &StreamType, timestamp: Timestamp) -> bool
    ensures { result ≡ is_clocked_is stream.now timestamp }
{
    stream.default_clock.is_some() || field_of(stream, timestamp).is_none()
}

#[tactic(auto, unfolding(crate::specs::StreamRules::clocks_are_there))]
fn clocks_are_there(alloc: Global, config: &Config, stream: &StreamType) -> Result<(), ConfFault>
    ensures { Gives (λ _. tt) result (clocks_are_there_is config.now.clocks stream.now) }
{
    if !clock_is_there(config, stream) {
        return Err(At::Property("$default-clock-type-name").fault(alloc, FaultKind::NoClock));
    }
    for timestamp in TIMESTAMPS {
        if !is_clocked(stream, timestamp) {
            return Err(timestamp_fault(alloc, timestamp, FaultKind::NoClock));
        }
    }
    Ok(())
}

/// Whether a timestamp, if it is on, has a size that tells clock values: 64 bits, or, where a packet has a beginning
/// timestamp, 8 at least for an event record's.
#[tactic(auto, unfolding(crate::specs::StreamRules::is_sized))]
fn is_sized(stream: &StreamType, timestamp: Timestamp) -> bool
    ensures { result ≡ is_sized_is stream.now timestamp }
{
    let Some(int) = field_of(stream, timestamp) else {
        return true;
    };
    match timestamp {
        Timestamp::Record if stream.context.timestamp_begin.is_some() => int.size() >= 8,
        Timestamp::Record | Timestamp::Beginning | Timestamp::End => int.size() == 64,
    }
}

#[tactic(auto, unfolding(crate::specs::StreamRules::timestamps_sized))]
fn timestamps_sized(alloc: Global, stream: &StreamType) -> Result<(), ConfFault>
    ensures { Gives (λ _. tt) result (timestamps_sized_is stream.now) }
{
    for timestamp in TIMESTAMPS {
        if !is_sized(stream, timestamp) {
            return Err(timestamp_fault(alloc, timestamp, FaultKind::TimestampSize));
        }
    }
    Ok(())
}

#[tactic(auto, unfolding(crate::specs::StreamRules::judged))]
fn judged(
    alloc: Global,
    rule: StreamRule,
    config: &Config,
    stream: &StreamType,
) -> Result<(), ConfFault>
    ensures { Gives (λ _. tt) result (judged_is rule config.now.clocks stream.now) }
{
    match rule {
        StreamRule::NumbersFit => numbers_fit(alloc, stream),
        StreamRule::RecordsHaveBits => records_have_bits(alloc, stream),
        StreamRule::ClocksAreThere => clocks_are_there(alloc, config, stream),
        StreamRule::TimestampsAreSized => timestamps_sized(alloc, stream),
    }
}

/// Refuses the first data stream type that breaks the rule.
#[tactic(auto, unfolding(crate::specs::StreamRules::streams_judged))]
pub(crate) fn check_each(alloc: Global, rule: StreamRule, config: &Config) -> Result<(), ConfFault>
    ensures { Gives (λ _. tt) result (streams_judged_is rule config.now) }
{
    for stream in config.streams.as_slice() {
        if let Err(fault) = judged(alloc, rule, config, stream) {
            let fault = fault.in_property(alloc, stream.name.as_str());
            return Err(in_type(alloc, fault.in_property(alloc, "data-stream-types")));
        }
    }
    Ok(())
}
