//! A row of the table: a property's name, whether it has to be there, and what its value is.

use crate::{Place, Words};

/// A property of an object: its name, whether it has to be there, and what its value is.
pub type Row = (&'static str, Presence, Content);

/// Whether a property has to be there, and what holds where it is absent or null.
#[derive(Clone, Copy, Debug, PartialEq, Eq)]
pub enum Presence {
    Needed,
    /// May be absent.
    Optional,
    /// May be absent, and is then this number.
    Number(u64),
    /// May be absent, and is then this flag.
    Flag(bool),
    /// May be absent, and is then `decimal`.
    Decimal,
    /// May be absent, and is then 8 where the size is a multiple of 8, else 1.
    ByteAlignment,
    /// Just one of the two byte orders has to be there.
    OneOrder,
    /// May be absent, and is then true where the trace type has a UUID.
    WithIdentifier,
    /// May be absent, and is then true where the data stream type has a default clock.
    WithClock,
    /// May be absent, and is gone once the configuration is resolved.
    UntilResolved,
}

/// What a value is.
#[derive(Clone, Copy, Debug, PartialEq, Eq)]
pub enum Content {
    /// A whole number: `low`, `high` or any number between.
    Whole {
        low: i128,
        high: i128,
    },
    /// A power of two, `high` at most.
    PowerOfTwo {
        high: u64,
    },
    Flag,
    /// A flag that is true at one entry of its map at most.
    OneFlag,
    /// A text that people read, of so many bytes at most, without control characters but newline and tab.
    Text {
        most_bytes: u64,
    },
    /// The name of a clock type.
    ClockName,
    /// A UUID as text.
    Identifier,
    /// A UUID as text, or the word `auto`.
    IdentifierOrAuto,
    /// One of these words.
    Word(Words),
    /// The word of a class of field types that may stand here.
    Class,
    /// A whole number in this range, or a text of so many bytes at most.
    WholeOrText {
        low: i128,
        high: i128,
        most_bytes: u64,
    },
    /// A whole number from 0 on, or the name of an alias of one.
    Level {
        high: i128,
    },
    /// What stands at this place: an object, a map, a list or a field type.
    At(Place),
    Anything,
}

/// What the entries of a map, or the items of a list, are found by.
#[derive(Clone, Copy, Debug, PartialEq, Eq)]
pub enum Keys {
    /// By a name: a letter or `_`, then letters, digits or `_`.
    Name,
    /// By a name that the metadata language does not use itself.
    PlainName,
    /// By a text that people read.
    Label,
    /// By their place.
    Index,
}

/// What a map or a list holds.
#[derive(Clone, Copy, Debug, PartialEq, Eq)]
pub struct Entries {
    pub keys: Keys,
    /// The most that there are, if there is a limit.
    pub most: Option<u64>,
    pub content: Content,
}
