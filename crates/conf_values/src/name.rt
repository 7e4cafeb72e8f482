//! The names of a configuration, and the words that are no names.
ghost use Rattle.std.specs.Prelude.{◌≡◌, IfErr};
ghost use Rattle.conf_tree.specs.Reading.{Gives};
ghost use Rattle.conf_values.specs.Name.{name_of, plain_name_of, is_reserved as is_reserved_of};

use conf_tree::{ConfFault, FaultKind};
use ctf_types::{MAX_NAME_BYTES, is_identifier, is_unused_keyword};
use std::alloc::Global;

/// Refuses a name that is no identifier of 255 bytes at most.
#[tactic(auto, unfolding(crate::specs::Name::name_of))]
pub fn check_name(alloc: Global, name: &str) -> Result<(), ConfFault>
    ensures { Gives (λ _. tt) result (name_of name.now) }
{
    if is_identifier(name) && name.len() <= MAX_NAME_BYTES {
        Ok(())
    } else {
        Err(ConfFault::here(alloc, FaultKind::BadName))
    }
}

/// Whether the metadata language has the word for itself: the words that nothing here writes, and those that metadata is written with.
#[tactic(auto, unfolding(crate::specs::Name::is_reserved))]
fn is_reserved(word: &str) -> bool
    ensures { result ≡ is_reserved_of word.now }
{
    is_unused_keyword(word)
        || matches!(
            word,
            "align"
                | "clock"
                | "enum"
                | "env"
                | "event"
                | "integer"
                | "signed"
                | "stream"
                | "string"
                | "struct"
                | "trace"
        )
}

/// Refuses a name that is no identifier of 255 bytes at most, or that is a reserved word.
#[tactic(auto, unfolding(crate::specs::Name::plain_name_of))]
pub fn check_plain_name(alloc: Global, name: &str) -> Result<(), ConfFault>
    ensures { Gives (λ _. tt) result (plain_name_of name.now) }
{
    check_name(alloc, name)?;
    if is_reserved(name) {
        Err(ConfFault::here(alloc, FaultKind::ReservedName))
    } else {
        Ok(())
    }
}
