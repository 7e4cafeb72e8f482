//! Finds the metadata that the blocks of a TSDL metadata text mean.
#![tactic(auto)]

/// What is meant. A function that uses it means nothing where nothing is meant here.
macro_rules! meant {
    ($meaning:expr) => {
        match $meaning {
            Some(meaning) => meaning,
            None => return Ok(None),
        }
    };
}

/// What has to hold. A function that uses it means nothing where this does not.
macro_rules! holds {
    ($condition:expr) => {
        if !$condition {
            return Ok(None);
        }
    };
}

mod array;
mod clock;
mod enumeration;
mod environment;
mod integer;
mod judge;
mod known;
mod laws;
mod lookup;
mod member;
mod numbered;
mod room;
mod scope_rule;
mod stream;
mod structure;
mod text;
mod text_streams;
mod trace;
mod value;

pub use judge::{Survey, first_flaw};
pub use laws::denoted_is_allowed;
pub use text::metadata_of;
pub use value::{natural, signed_of, whole};
