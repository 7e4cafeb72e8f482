//! Why a text goes on no further as JSON.

ghost use Rattle.std.specs.Prelude.{◌≡◌, ◌++◌, OnOk, string_bytes};
ghost use Rattle.conf_fault.specs.Stop.{reason_words};

use std::alloc::{AllocError, Global};

/// The most objects and lists in one another.
pub(crate) const MOST_LEVELS: usize = 127;

/// The place at which a text goes on no further as JSON, and why.
#[derive(Clone, Copy)]
pub(crate) struct Stop {
    pub at: usize,
    pub reason: Reason,
}

/// Why a text goes on no further at a place.
#[derive(Clone, Copy)]
pub(crate) enum Reason {
    /// No JSON value goes on so.
    NotJson,
    /// The bracket opens one level too many.
    TooDeep,
    /// The number that ends there is too large for a float.
    TooLarge,
    /// The half of a character that begins there has no other half.
    HalfCharacter,
}

/// Adds what was expected where a text goes on no further for this reason.
#[tactic(auto, unfolding(crate::specs::Stop::reason_words))]
pub(crate) fn push_reason(
    alloc: Global,
    said: &mut String,
    reason: Reason,
) -> Result<(), AllocError>
    ensures { OnOk result (string_bytes said.new ≡ string_bytes said.old ++ reason_words reason) }
{
    match reason {
        Reason::NotJson => said.push_str("one JSON value in UTF-8"),
        Reason::TooDeep => said.push_str(format!(in alloc;
            "at most {MOST_LEVELS} objects and lists in one another"
        )?.as_str()),
        Reason::TooLarge => said.push_str("a number from -1.797e308 to 1.797e308"),
        Reason::HalfCharacter => said.push_str("the other half of the character (`\\uXXXX`)"),
    }
}
