//! Why the arguments of a tracing call are refused.

ghost use Rattle.std.specs.Prelude.{Some};
ghost use Rattle.data_types.specs.FaultWords.{arg_words};

use std::error::Error;
use std::fmt;

/// The first fault of a call's arguments. They are looked at in this order: the event, then the common context, the specific context and the payload;
/// in each the number of values, then the values in their order, the elements of a list after its length.
#[derive(Clone, Copy, Debug, PartialEq, Eq)]
pub enum ArgFault {
    /// No event record type has this number.
    NoSuchEvent,
    /// A structure has another number of members.
    Count,
    /// A value is of another kind than its field.
    Kind,
    /// A number is outside its field's range.
    Range,
    /// A string holds a zero byte.
    ZeroByte,
    /// A list has another length than its array, or more than 2^32 - 1 elements.
    Length,
}

impl fmt::Display for ArgFault {
    ghost output = { λ fault. Some (arg_words fault) };

    fn fmt<W: fmt::Write>(&self, f: &mut fmt::Formatter<W>) -> fmt::Result {
        f.write_str(match self {
            ArgFault::NoSuchEvent => "no event record type has this number",
            ArgFault::Count => "the structure has another number of members",
            ArgFault::Kind => "a value is of another kind than its field",
            ArgFault::Range => "a number is outside its field's range",
            ArgFault::ZeroByte => "a string holds a zero byte",
            ArgFault::Length => {
                "a list has another length than its array, or more than 2^32 - 1 elements"
            }
        })
    }
}

impl Error for ArgFault {}
