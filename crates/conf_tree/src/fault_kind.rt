//! What can be wrong at a place of a configuration.
ghost use Rattle.std.specs.Prelude.{Some};
ghost use Rattle.conf_tree.specs.FaultWords.{kind_words};

use crate::MAX_LEVELS;
use ctf_types::MAX_NAME_BYTES;
use std::error::Error;
use std::fmt;

/// What is wrong with a configuration, without the place.
///
/// At one place the kind that stands first in this list is the one that is answered.
#[derive(Clone, Copy, Debug, PartialEq, Eq)]
pub enum FaultKind {
    NotJson,
    TooDeep,
    WrongKind,
    NotWhole,
    Missing,
    Unknown,
    NoSuchAlias,
    InheritCycle,
    OutOfRange,
    BadName,
    ReservedName,
    NameClash,
    FieldTooSmall,
    ZeroSizeRecord,
    NoClock,
    NoUuid,
    Limit,
    TwoOrders,
    TimestampSize,
    OutOfMemory,
}

impl fmt::Display for FaultKind {
    ghost output = { λ kind. Some (kind_words kind) };

    fn fmt<W: fmt::Write>(&self, f: &mut fmt::Formatter<W>) -> fmt::Result {
        let words = match self {
            FaultKind::NotJson => "not JSON: expected one JSON value in UTF-8",
            FaultKind::TooDeep => {
                return write!(
                    f,
                    "nested too deep: expected at most {MAX_LEVELS} levels of objects and lists"
                );
            }
            FaultKind::WrongKind =>
                "wrong kind of value: expected the kind that this place asks for",
            FaultKind::NotWhole =>
                "not a whole number: expected one of 64 bits, without fraction or exponent",
            FaultKind::Missing => "property is missing: expected a value here",
            FaultKind::Unknown =>
                "unknown property: expected only the ones that this object can have",
            FaultKind::NoSuchAlias =>
                "no such alias: expected the name of an alias of this configuration",
            FaultKind::InheritCycle =>
                "alias inherits from itself: expected a chain of aliases that ends",
            FaultKind::OutOfRange => "value out of range: expected one that this place allows",
            FaultKind::BadName => {
                return write!(
                    f,
                    "bad name: expected a letter or `_`, then letters, digits or `_`, {MAX_NAME_BYTES} bytes at most"
                );
            }
            FaultKind::ReservedName =>
                "reserved word: expected a name that the metadata language does not use itself",
            FaultKind::NameClash =>
                "name is taken: expected one that nothing else in this structure has",
            FaultKind::FieldTooSmall =>
                "field is too small: expected room for the largest number that it must hold",
            FaultKind::ZeroSizeRecord =>
                "event record without bits: expected an integer, an enumeration or a string in it",
            FaultKind::NoClock => "no clock: expected a default clock type that the trace type has",
            FaultKind::NoUuid => "no UUID: expected one for this trace",
            FaultKind::Limit => "past a limit of size: expected fewer or smaller parts",
            FaultKind::TwoOrders =>
                "two byte orders: expected only one of `trace-byte-order` and `native-byte-order`",
            FaultKind::TimestampSize =>
                "timestamp field of a wrong size: expected 64 bits, or in event records 8 to 64 where the packet has its beginning timestamp",
            FaultKind::OutOfMemory => "out of memory",
        };
        f.write_str(words)
    }
}

impl Error for FaultKind {}
