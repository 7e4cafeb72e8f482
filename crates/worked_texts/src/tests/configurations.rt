//! Small configurations are accepted, or refused with the first fault and its place; aliases and heirs are resolved, and values looked up.

use crate::tests::rows::{Asked, Look, Table, all_are_said};
use crate::tests::tables::{
    aliases, arrays, clock_types, clocked_streams, data_stream_features, data_stream_types,
    enumerations, environment, events, heirs, identified, inheritance, integers, limits, places,
    reserved_words, structures, trace_features, trace_types, trees, whole_texts,
};
use std::test::Fail;

/// No identifier is handed in.
const PLAIN: Asked = Asked::Configuration(None);

const IDENTIFIED: Asked = Asked::Configuration(Some(0x79e4_9040_21b5_42d4_a83b_646f_7866_6b62));

static INTEGERS: &[Table] = &[
    (PLAIN, places::FIELD, integers::FIELDS),
    (PLAIN, places::FIELD, enumerations::FIELDS),
];

#[test]
fn judges_integers_and_enumerations(rt: HostRuntime) -> Result<(), Fail> {
    all_are_said(&rt, rt.alloc(), INTEGERS)
}

static ARRAYS: &[Table] = &[
    (PLAIN, places::FIELD, arrays::FIELDS),
    (PLAIN, places::PAYLOAD, arrays::PAYLOADS),
];

#[test]
fn judges_arrays(rt: HostRuntime) -> Result<(), Fail> {
    all_are_said(&rt, rt.alloc(), ARRAYS)
}

static STRUCTURES: &[Table] = &[
    (PLAIN, places::PAYLOAD, structures::PAYLOADS),
    (PLAIN, places::EVENT, events::EVENTS),
];

#[test]
fn judges_structures_and_events(rt: HostRuntime) -> Result<(), Fail> {
    all_are_said(&rt, rt.alloc(), STRUCTURES)
}

static INHERITED_TYPES: &[Table] = &[
    (PLAIN, places::FIELD, inheritance::FIELDS),
    (PLAIN, places::PAYLOAD, inheritance::PAYLOADS),
    (PLAIN, places::TYPE, inheritance::TRACE_TYPES),
];

#[test]
fn judges_types_that_inherit(rt: HostRuntime) -> Result<(), Fail> {
    all_are_said(&rt, rt.alloc(), INHERITED_TYPES)
}

static STREAMS: &[Table] = &[(PLAIN, places::STREAM, data_stream_types::STREAMS)];

#[test]
fn judges_data_stream_types(rt: HostRuntime) -> Result<(), Fail> {
    all_are_said(&rt, rt.alloc(), STREAMS)
}

static STREAM_FEATURES: &[Table] = &[
    (PLAIN, places::PACKET, data_stream_features::PACKETS),
    (PLAIN, places::RECORD, data_stream_features::RECORDS),
];

#[test]
fn judges_features_of_data_stream_types(rt: HostRuntime) -> Result<(), Fail> {
    all_are_said(&rt, rt.alloc(), STREAM_FEATURES)
}

static CLOCKED: &[Table] = &[
    (
        PLAIN,
        places::CLOCKED_STREAM,
        clocked_streams::CLOCKED_STREAMS,
    ),
    (PLAIN, places::CLOCK, clock_types::CLOCKS),
];

#[test]
fn judges_streams_with_clocks(rt: HostRuntime) -> Result<(), Fail> {
    all_are_said(&rt, rt.alloc(), CLOCKED)
}

static TRACE_TYPES: &[Table] = &[
    (PLAIN, places::TYPE, trace_types::TRACE_TYPES),
    (PLAIN, places::ENVIRONMENT, environment::ENVIRONMENTS),
    (PLAIN, places::ROOT, whole_texts::ROOTS),
];

#[test]
fn judges_trace_types(rt: HostRuntime) -> Result<(), Fail> {
    all_are_said(&rt, rt.alloc(), TRACE_TYPES)
}

static TRACE_FEATURES: &[Table] = &[
    (PLAIN, places::FEATURES, trace_features::FEATURES),
    (PLAIN, places::TYPE, trace_features::TRACE_TYPES),
];

#[test]
fn judges_features_of_trace_types(rt: HostRuntime) -> Result<(), Fail> {
    all_are_said(&rt, rt.alloc(), TRACE_FEATURES)
}

static ALIASES: &[Table] = &[
    (PLAIN, places::LOG_LEVELS, aliases::LOG_LEVELS),
    (PLAIN, places::ALIASES, aliases::FIELD_TYPES),
    (IDENTIFIED, places::ROOT, identified::IDENTIFIED),
];

#[test]
fn judges_aliases_and_identifiers(rt: HostRuntime) -> Result<(), Fail> {
    all_are_said(&rt, rt.alloc(), ALIASES)
}

static RESERVED_WORDS: &[Table] = &[
    (PLAIN, places::PAYLOAD, reserved_words::PAYLOADS),
    (PLAIN, places::STREAM, reserved_words::STREAMS),
    (PLAIN, places::TYPE, reserved_words::TRACE_TYPES),
    (PLAIN, places::ENVIRONMENT, reserved_words::ENVIRONMENTS),
    (PLAIN, places::ALIASES, reserved_words::FIELD_TYPES),
    (PLAIN, places::LOG_LEVELS, reserved_words::LOG_LEVELS),
    (PLAIN, places::FIELD, reserved_words::FIELDS),
];

#[test]
fn judges_reserved_words(rt: HostRuntime) -> Result<(), Fail> {
    all_are_said(&rt, rt.alloc(), RESERVED_WORDS)
}

static LIMITS: &[Table] = &[
    (PLAIN, places::ENVIRONMENT, limits::ENVIRONMENTS),
    (PLAIN, places::TYPE, limits::TRACE_TYPES),
    (PLAIN, places::LOG_LEVELS, limits::LOG_LEVELS),
    (PLAIN, places::ALIASES, limits::FIELD_TYPES),
    (PLAIN, places::STREAM, limits::STREAMS),
    (PLAIN, places::PAYLOAD, limits::PAYLOADS),
    (PLAIN, places::EVENT, limits::EVENTS),
    (PLAIN, places::FIELD, limits::FIELDS),
    (PLAIN, places::ROOT, limits::ROOTS),
    (PLAIN, places::CLOCK, limits::CLOCKS),
];

#[test]
fn refuses_what_passes_a_limit(rt: HostRuntime) -> Result<(), Fail> {
    all_are_said(&rt, rt.alloc(), LIMITS)
}

/// Nothing of what was resolved is shown.
const RESOLVED: Asked = Asked::Resolved("/nothing");

const PAYLOAD: Asked = Asked::Resolved(
    "/trace/type/data-stream-types/s/event-record-types/e/payload-field-type",
);

static HEIRS: &[Table] = &[
    (PAYLOAD, places::ALIASES_AND_PAYLOAD, heirs::HEIRS),
    (RESOLVED, places::ALIASES_AND_PAYLOAD, heirs::FIRST_PLACES),
    (RESOLVED, places::ALIASES_AND_PAYLOAD, heirs::CIRCLES),
    (RESOLVED, places::ALIASES_AND_PAYLOAD, heirs::INHERITED),
    (
        RESOLVED,
        places::ALIASES_AND_PAYLOAD,
        heirs::INHERITED_BY_ALIASES,
    ),
    (RESOLVED, places::ALIASES_AND_EXTRAS, heirs::EXTRAS),
    (RESOLVED, places::ROOT, trees::TREES),
    (Asked::Value(Look::Digit), places::ROOT, trees::DIGITS),
    (
        Asked::Value(Look::NumberOrNone),
        places::ROOT,
        trees::NUMBERS,
    ),
    (Asked::Value(Look::FirstFlag), places::ROOT, trees::FLAGS),
    (Asked::Value(Look::TextLen), places::ROOT, trees::TEXTS),
];

#[test]
fn resolves_heirs_and_reads_trees(rt: HostRuntime) -> Result<(), Fail> {
    all_are_said(&rt, rt.alloc(), HEIRS)
}

static LEFT: &[Table] = &[
    (RESOLVED, places::ALIASES_AND_PAYLOAD, heirs::LEFT),
    (RESOLVED, places::ALIASES_AND_PAYLOAD, heirs::FULL),
    (RESOLVED, places::IN_TYPE, heirs::MANY_MEMBERS),
];

#[test]
fn counts_what_is_left_of_a_type(rt: HostRuntime) -> Result<(), Fail> {
    all_are_said(&rt, rt.alloc(), LEFT)
}

static HEAVY_HEIRS: &[Table] = &[(RESOLVED, places::ALIASES_AND_PAYLOAD, heirs::HEAVY_HEIRS)];

#[test]
fn ends_soon_on_heavy_heirs(rt: HostRuntime) -> Result<(), Fail> {
    all_are_said(&rt, rt.alloc(), HEAVY_HEIRS)
}

static MANY_ALIASES: &[Table] = &[
    (RESOLVED, places::ALIASES_AND_PAYLOAD, heirs::HEAVY_ALIASES),
    (RESOLVED, places::ALIASES_AND_PAYLOAD, heirs::MANY_ALIASES),
];

#[test]
fn ends_soon_on_many_aliases(rt: HostRuntime) -> Result<(), Fail> {
    all_are_said(&rt, rt.alloc(), MANY_ALIASES)
}

static LONG_CHAINS: &[Table] = &[
    (RESOLVED, places::ALIASES_AND_PAYLOAD, heirs::LONG_CHAINS),
    (RESOLVED, places::ALIASES_AND_PAYLOAD, heirs::GROWING),
    (RESOLVED, places::ALIASES_AND_PAYLOAD, heirs::OFTEN_NAMED),
];

#[test]
fn ends_soon_on_long_chains(rt: HostRuntime) -> Result<(), Fail> {
    all_are_said(&rt, rt.alloc(), LONG_CHAINS)
}
