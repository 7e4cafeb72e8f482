//! Configurations of the rows, from their JSON.

ghost use Rattle.std.specs.Prelude.{IfOk, IfSome};
ghost use Rattle.ctf_types.specs.AllowedConfig.{IsConfig};

use conf_check::configure;
use ctf_types::Config;
use std::alloc::{AllocError, Global};
use std::test::Fail;
use uuid::Uuid;

/// One stream type `s` with one event record type `e`; the words in capitals are put in by each row.
pub const SMALL: &str =
    r#"{"trace":{"type":{"trace-byte-order":"le","uuid":UUID,"$features":{"data-stream-type-id-field-type":STREAM_ID},"data-stream-types":{"s":{"$features":{"packet":{"total-size-field-type":SIZE,"content-size-field-type":SIZE,"discarded-event-records-counter-snapshot-field-type":DISCARDED,"sequence-number-field-type":SEQUENCE},"event-record":{"type-id-field-type":false}},"packet-context-field-type-extra-members":EXTRAS,"event-record-types":{"e":{"payload-field-type":{"class":"struct","members":PAYLOAD}}}}},"$field-type-aliases":ALIASES}}}"#;

/// What a word of `SMALL` is where a row says nothing of it.
static PLAIN: &[(&str, &str)] = &[
    ("UUID", "null"),
    ("STREAM_ID", "false"),
    ("SIZE", r#"{"class":"uint","size":32}"#),
    ("DISCARDED", "false"),
    ("SEQUENCE", "false"),
    ("EXTRAS", "[]"),
    (
        "PAYLOAD",
        r#"[{"v":{"field-type":{"class":"uint","size":8}}}]"#,
    ),
    ("ALIASES", "{}"),
];

/// Two event record types with a clock, in big-endian order.
pub const CLOCKED: &str =
    r#"{"trace":{"type":{"native-byte-order":"be","clock-types":{"clk":{}},"$features":{"data-stream-type-id-field-type":false},"data-stream-types":{"s":{"$default-clock-type-name":"clk","$features":{"packet":{"total-size-field-type":"u16","content-size-field-type":"u16","discarded-event-records-counter-snapshot-field-type":"u8","sequence-number-field-type":"u8"},"event-record":{"type-id-field-type":"u8"}},"event-record-types":{"a":{"payload-field-type":{"class":"struct","members":[{"n":{"field-type":{"class":"sint","size":16}}}]}},"b":{"payload-field-type":{"class":"struct","members":[{"s":{"field-type":{"class":"str"}}}]}}}}},"$field-type-aliases":{"u8":{"class":"uint","size":8},"u16":{"class":"uint","size":16}}}}}"#;

/// An unsigned integer of 8 bits.
pub const NARROW: &str = r#"{"class":"uint","size":8}"#;

/// Pieces of a text, each with what stands in its place.
pub type Changes = &'static [(&'static str, &'static str)];

/// `SMALL` with an id of 1 bit before its payload: a number of 1 bit, and a dynamic array of such numbers.
pub const WITH_BITS: Changes = &[
    (
        r#""type-id-field-type":false"#,
        r#""type-id-field-type":{"class":"uint","size":1,"alignment":1}"#,
    ),
    (
        "PAYLOAD",
        r#"[{"p":{"field-type":{"class":"uint","size":1,"alignment":1}}},{"a":{"field-type":{"class":"dynamic-array","element-field-type":{"class":"uint","size":1,"alignment":1}}}}]"#,
    ),
];

/// `SMALL` or `CLOCKED` with these changes, and with the plain words where no change speaks of them.
pub fn changed(alloc: Global, text: &str, changes: Changes) -> Result<String, AllocError> {
    let mut text = String::from_str(alloc, text)?;
    for (piece, other) in changes {
        text = text.replace(alloc, *piece, other)?;
    }
    plain(alloc, text)
}

fn plain(alloc: Global, text: String) -> Result<String, AllocError> {
    let mut text = text;
    for (word, meaning) in PLAIN {
        text = text.replace(alloc, *word, meaning)?;
    }
    Ok(text)
}

/// The configuration of this text, with this identifier where one is handed in.
pub fn configured(alloc: Global, text: &str, number: Option<u128>) -> Result<Config, Fail>
    ensures { IfOk result (λ c. IsConfig c) }
{
    let config = configure(alloc, text.as_bytes(), number.map(Uuid::from_u128))?;
    Ok(config)
}

/// The configuration of this text, or None: a thread answers no fault.
pub fn config_of(alloc: Global, text: &str) -> Option<Config>
    ensures { IfSome result (λ c. IsConfig c) }
{
    match configure(alloc, text.as_bytes(), None) {
        Ok(config) => Some(config),
        Err(_) => None,
    }
}

/// The small configuration with these words in the place of its own.
pub fn small(alloc: Global, changes: Changes) -> Result<Config, Fail>
    ensures { IfOk result (λ c. IsConfig c) }
{
    configured(alloc, changed(alloc, SMALL, changes)?.as_str(), None)
}
