//! Integer field types (barectf 3.1, "Integer field type objects").
ghost use Rattle.std.specs.Prelude.{◌≡◌, Some, IsSome};
ghost use Rattle.serde_json.specs.View.{members_view};
ghost use Rattle.conf_draft.specs.Integers.{integer as integer_of, made as made_of};

use crate::lookup::{alignment, natural, word};
use conf_values::base_word;
use ctf_types::{Base, IntType};
use serde_json::{Map, Value};

/// The integer type that an object of an integer class is.
#[tactic(auto, unfolding(crate::specs::Integers::integer, crate::specs::Integers::size_of, crate::specs::Integers::align_of, crate::specs::Integers::base_of))]
pub(crate) fn integer(signed: bool, members: &Map<String, Value>) -> IntType
    requires { IsSome (integer_of signed (members_view members.now.entries)) }
    ensures { integer_of signed (members_view members.now.entries) ≡ Some result }
{
    let size = natural(members, "size").unwrap_or(0);
    let default_align = if size % 8 == 0 { 8 } else { 1 };
    let align = alignment(members, "alignment").unwrap_or(default_align);
    let base = word(members, "preferred-display-base").and_then(|word| base_word(word));
    made(size, align, signed, base.unwrap_or(Base::Dec))
}

/// The integer type of this size and this alignment in bits.
#[tactic(auto, unfolding(crate::specs::Integers::made))]
fn made(size: u64, align: u64, signed: bool, base: Base) -> IntType
    requires { IsSome (made_of size align signed base) }
    ensures { made_of size align signed base ≡ Some result }
{
    IntType::new(size as u8, align as u32, signed, base).unwrap()
}
