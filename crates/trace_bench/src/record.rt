//! The event records that are measured.

ghost use Rattle.std.specs.Prelude.{IfOk};
ghost use Rattle.ctf_types.specs.AllowedConfig.{IsConfig};

use crate::fault::BenchFault;
use conf_check::configure;
use ctf_types::{Args, Bytes, Config, Value, Values};
use std::alloc::{AllocError, Global};

/// What an event record has.
#[derive(Clone, Copy, Debug, PartialEq, Eq)]
pub enum Record {
    /// A byte of payload, and nothing else.
    Byte,
    /// A number of 8 bits, a clock value of 64 bits, and a byte.
    Clocked,
    /// A number of 8 bits, a clock value of 64 bits, and a text of 12 bytes.
    Texted,
}

const HEAD: &str =
    r#"{"trace":{"type":{"native-byte-order":"le","clock-types":{"ticks":{}},"data-stream-types":{"s":{"#;

const WITHOUT_HEADER: &str = r#""$features":{"event-record":{"type-id-field-type":false}}"#;

const WITH_HEADER: &str =
    r#""$default-clock-type-name":"ticks","$features":{"event-record":{"type-id-field-type":{"class":"uint","size":8},"timestamp-field-type":{"class":"uint","size":64,"alignment":8}}}"#;

const PAYLOAD: &str =
    r#","event-record-types":{"e":{"payload-field-type":{"class":"struct","members":[{"v":{"field-type":"#;

const NUMBER: &str = r#"{"class":"uint","size":8}"#;

const TEXT: &str = r#"{"class":"str"}"#;

const END: &str = "}}]}}}}}}}}";

impl Record {
    pub fn named(word: &str) -> Option<Record> {
        match word {
            "byte" => Some(Record::Byte),
            "clocked" => Some(Record::Clocked),
            "text" => Some(Record::Texted),
            _ => None,
        }
    }

    /// A configuration whose one stream type, `s`, has one event record type of such records.
    pub fn configuration(self, alloc: Global) -> Result<String, AllocError> {
        let (header, field) = match self {
            Record::Byte => (WITHOUT_HEADER, NUMBER),
            Record::Clocked => (WITH_HEADER, NUMBER),
            Record::Texted => (WITH_HEADER, TEXT),
        };
        format!(in alloc; "{HEAD}{header}{PAYLOAD}{field}{END}")
    }

    /// What that configuration says.
    pub fn configured(self, alloc: Global) -> Result<Config, BenchFault>
        ensures { IfOk result (λ config. IsConfig config) }
    {
        let text = self.configuration(alloc)?;
        match configure(alloc, text.as_bytes(), None) {
            Ok(config) => Ok(config),
            Err(_) => Err(BenchFault::Configuration),
        }
    }

    /// A call's arguments.
    pub fn args(self, alloc: Global) -> Result<Args, AllocError> {
        let value = match self {
            Record::Byte | Record::Clocked => Value::Unsigned(7),
            Record::Texted => Value::Text(Bytes::from_slice(alloc, b"twelve bytes")?),
        };
        Ok(Args {
            common: Values::new(alloc),
            specific: Values::new(alloc),
            payload: Values::from_vec(vec![in alloc; value]?),
        })
    }
}
