//! Where the texts of tables stand.

/// What stands before a text and behind it, and the path of its place.
pub type Place = (&'static str, &'static str, &'static str);

/// The whole text.
pub const ROOT: Place = ("", "", "");

/// The field type of the payload's member `v`.
pub const FIELD: Place = (
    r#"{"trace":{"type":{"trace-byte-order":"le","data-stream-types":{"s":{"$features":{"event-record":{"type-id-field-type":false}},"event-record-types":{"e":{"payload-field-type":{"class":"struct","members":[{"v":{"field-type":"#,
    "}}]}}}}}}}}",
    "trace/type/data-stream-types/s/event-record-types/e/payload-field-type/members/0/v/field-type",
);

/// The payload of `e`.
pub const PAYLOAD: Place = (
    r#"{"trace":{"type":{"trace-byte-order":"le","data-stream-types":{"s":{"$features":{"event-record":{"type-id-field-type":false}},"event-record-types":{"e":{"payload-field-type":"#,
    "}}}}}}}",
    "trace/type/data-stream-types/s/event-record-types/e/payload-field-type",
);

/// The event record type `e`, whose records have no number.
pub const EVENT: Place = (
    r#"{"trace":{"type":{"trace-byte-order":"le","data-stream-types":{"s":{"$features":{"event-record":{"type-id-field-type":false}},"event-record-types":{"e":"#,
    "}}}}}}",
    "trace/type/data-stream-types/s/event-record-types/e",
);

/// The features of the packets of `s`.
pub const PACKET: Place = (
    r#"{"trace":{"type":{"trace-byte-order":"le","data-stream-types":{"s":{"$features":{"packet":"#,
    "}}}}}}",
    "trace/type/data-stream-types/s/$features/packet",
);

/// The features of the event records of `s`.
pub const RECORD: Place = (
    r#"{"trace":{"type":{"trace-byte-order":"le","data-stream-types":{"s":{"$features":{"event-record":"#,
    "}}}}}}",
    "trace/type/data-stream-types/s/$features/event-record",
);

/// The data stream type `s`.
pub const STREAM: Place = (
    r#"{"trace":{"type":{"trace-byte-order":"le","data-stream-types":{"s":"#,
    "}}}}",
    "trace/type/data-stream-types/s",
);

/// The data stream type `s` beside a clock type `clk`.
pub const CLOCKED_STREAM: Place = (
    r#"{"trace":{"type":{"trace-byte-order":"le","clock-types":{"clk":{}},"data-stream-types":{"s":"#,
    "}}}}",
    "trace/type/data-stream-types/s",
);

/// The clock type `clk`.
pub const CLOCK: Place = (
    r#"{"trace":{"type":{"trace-byte-order":"le","clock-types":{"clk":"#,
    "}}}}",
    "trace/type/clock-types/clk",
);

/// The trace type's features.
pub const FEATURES: Place = (
    r#"{"trace":{"type":{"trace-byte-order":"le","$features":"#,
    "}}}",
    "trace/type/$features",
);

/// The trace type's field type aliases.
pub const ALIASES: Place = (
    r#"{"trace":{"type":{"trace-byte-order":"le","$field-type-aliases":"#,
    "}}}",
    "trace/type/$field-type-aliases",
);

/// The trace type's log level aliases.
pub const LOG_LEVELS: Place = (
    r#"{"trace":{"type":{"trace-byte-order":"le","$log-level-aliases":"#,
    "}}}",
    "trace/type/$log-level-aliases",
);

/// The trace type.
pub const TYPE: Place = (r#"{"trace":{"type":"#, "}}", "trace/type");

/// The trace's environment.
pub const ENVIRONMENT: Place = (
    r#"{"trace":{"type":{"trace-byte-order":"le"},"environment":"#,
    "}}",
    "trace/environment",
);

/// Aliases, and behind `PAYLOAD` a payload.
pub const ALIASES_AND_PAYLOAD: Place = (
    r#"{"trace":{"type":{"$field-type-aliases":{"#,
    "}}}}}}}",
    "",
);

/// Aliases, and behind `EXTRAS` the extra members of a packet context.
pub const ALIASES_AND_EXTRAS: Place = (
    r#"{"trace":{"type":{"$field-type-aliases":{"#,
    "]}}}}}",
    "",
);

/// What stands in a trace type.
pub const IN_TYPE: Place = (r#"{"trace":{"type":{"#, "}}}", "");
