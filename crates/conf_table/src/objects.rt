//! The properties of the objects that are no field types (barectf 3.1, "Configuration object" and the pages below it).

use crate::Content::{
    self, Anything, At, ClockName, Identifier, IdentifierOrAuto, Level, OneFlag, Text, Whole, Word,
};
use crate::Place::*;
use crate::Presence::{self, Needed, Number, OneOrder, Optional, WithClock, WithIdentifier};
use crate::{Row, Words};
use ctf_types::MAX_TEXT_BYTES;

/// The lowest and the highest number of 64 bits, one of which is the sign.
pub(crate) const LOWEST: i128 = -9223372036854775808;

pub(crate) const HIGHEST: i128 = 9223372036854775807;

/// The highest number of 64 bits without a sign.
pub(crate) const HIGHEST_UNSIGNED: i128 = 18446744073709551615;

/// A number of 64 bits without a sign.
const UNSIGNED: Content = Whole {
    low: 0,
    high: HIGHEST_UNSIGNED,
};

/// May be absent, and is then on, or off.
const ON: Presence = Presence::Flag(true);

const OFF: Presence = Presence::Flag(false);

pub(crate) static ROOT: [Row; 2] = [
    ("trace", Needed, At(Trace)),
    ("options", Optional, Anything),
];

pub(crate) static TRACE: [Row; 2] = [
    ("type", Needed, At(TraceType)),
    ("environment", Optional, At(Environment)),
];

pub(crate) static TRACE_TYPE: [Row; 8] = [
    ("trace-byte-order", OneOrder, Word(Words::ByteOrder)),
    ("native-byte-order", OneOrder, Word(Words::ByteOrder)),
    ("uuid", Optional, IdentifierOrAuto),
    ("clock-types", Optional, At(ClockTypes)),
    ("data-stream-types", Optional, At(StreamTypes)),
    ("$features", Optional, At(TraceFeatures)),
    ("$field-type-aliases", Optional, At(FieldTypeAliases)),
    ("$log-level-aliases", Optional, At(LogLevelAliases)),
];

pub(crate) static TRACE_FEATURES: [Row; 3] = [
    ("magic-field-type", ON, At(MagicFeature)),
    ("uuid-field-type", WithIdentifier, At(IdentifierFeature)),
    ("data-stream-type-id-field-type", ON, At(Feature)),
];

pub(crate) static CLOCK_TYPE: [Row; 7] = [
    (
        "frequency",
        Number(1000000000),
        Whole {
            low: 1,
            high: HIGHEST_UNSIGNED,
        },
    ),
    (
        "description",
        Optional,
        Text {
            most_bytes: MAX_TEXT_BYTES,
        },
    ),
    ("uuid", Optional, Identifier),
    ("precision", Number(0), UNSIGNED),
    ("offset", Optional, At(ClockOffset)),
    ("origin-is-unix-epoch", ON, Content::Flag),
    ("$c-type", Optional, Anything),
];

pub(crate) static CLOCK_OFFSET: [Row; 2] = [
    (
        "seconds",
        Number(0),
        Whole {
            low: LOWEST,
            high: HIGHEST,
        },
    ),
    ("cycles", Number(0), UNSIGNED),
];

pub(crate) static STREAM_TYPE: [Row; 6] = [
    ("$is-default", OFF, OneFlag),
    ("$default-clock-type-name", Optional, ClockName),
    ("$features", Optional, At(StreamFeatures)),
    (
        "packet-context-field-type-extra-members",
        Optional,
        At(ExtraMembers),
    ),
    (
        "event-record-common-context-field-type",
        Optional,
        At(StructureType),
    ),
    ("event-record-types", Optional, At(EventTypes)),
];

pub(crate) static STREAM_FEATURES: [Row; 2] = [
    ("packet", Optional, At(PacketFeatures)),
    ("event-record", Optional, At(EventRecordFeatures)),
];

pub(crate) static PACKET_FEATURES: [Row; 6] = [
    ("total-size-field-type", ON, At(SizeFeature)),
    ("content-size-field-type", ON, At(SizeFeature)),
    ("beginning-timestamp-field-type", WithClock, At(Feature)),
    ("end-timestamp-field-type", WithClock, At(Feature)),
    (
        "discarded-event-records-counter-snapshot-field-type",
        ON,
        At(Feature),
    ),
    ("sequence-number-field-type", OFF, At(Feature)),
];

pub(crate) static EVENT_RECORD_FEATURES: [Row; 2] = [
    ("type-id-field-type", ON, At(Feature)),
    ("timestamp-field-type", WithClock, At(Feature)),
];

pub(crate) static EVENT_TYPE: [Row; 3] = [
    ("log-level", Optional, Level { high: HIGHEST }),
    ("specific-context-field-type", Optional, At(StructureType)),
    ("payload-field-type", Optional, At(StructureType)),
];
