//! What the entries of an enumeration mean (CTF 1.8.3, section 4.1.8).

ghost use Rattle.std.specs.Prelude.{int_le, ◌≡◌, ◌∷◌, IfOk};
ghost use Rattle.tsdl_meaning.specs.Words.{each, signed_of, high_of, entry_meaning, enum_meaning};

use crate::room::with_room;
use crate::value::{Meant, signed_of};
use ctf_types::{EnumType, IntType, ListOf, MAX_RANGES, Mapping, Text};
use std::alloc::Global;
use tsdl_grammar::{Entries, Entry, Label, Number};

/// The enumeration over an integer type, of no more ranges than the limit.
#[tactic(auto, unfolding(tsdl_grammar::specs::MemberMeaning::enum_meaning))]
pub(crate) fn enum_meaning(alloc: Global, int: IntType, entries: &Entries) -> Meant<EnumType>
    ensures { IfOk result (λ t. t ≡ enum_meaning int entries.now) }
{
    let made = match entries {
        Entries::Empty => Some(ListOf::new(alloc)),
        Entries::Listed(first, rest, _) => {
            holds!(rest.len() < MAX_RANGES);
            mappings_of(alloc, first, rest.as_slice())?
        }
    };
    Ok(made.map(|mappings| EnumType { int, mappings }))
}

fn mappings_of(alloc: Global, first: &Entry, others: &[Entry]) -> Meant<ListOf<Mapping>>
    ensures { IfOk result (λ ms. ms ≡ each entry_meaning (first.now ∷ others.now)) }
{
    let mut mappings = with_room(alloc, others.len().saturating_add(1))?;
    mappings.push(meant!(entry_meaning(alloc, first)?))?;
    for entry in others {
        mappings.push(meant!(entry_meaning(alloc, entry)?))?;
    }
    Ok(Some(mappings))
}

/// A label and its range, where the range does not fall.
#[tactic(auto, unfolding(tsdl_grammar::specs::MemberMeaning::entry_meaning))]
fn entry_meaning(alloc: Global, entry: &Entry) -> Meant<Mapping>
    ensures { IfOk result (λ m. m ≡ entry_meaning entry.now) }
{
    holds!(rises(entry));
    let low = signed_of(entry.low);
    let high = high_of(low, entry.high);
    let (Label::Quoted(label) | Label::Bare(label)) = &entry.label;
    let label = label.copy(alloc)?;
    Ok(Some(Mapping { label, low, high }))
}

/// Whether a range does not fall.
pub(crate) fn rises(entry: &Entry) -> bool
    ensures { result ≡ int_le (signed_of entry.now.low) (high_of (signed_of entry.now.low) entry.now.high) }
{
    let low = signed_of(entry.low);
    low <= high_of(low, entry.high)
}

/// The upper end of a range: one number is its own range.
fn high_of(low: i128, high: Option<Number>) -> i128
    ensures { result ≡ high_of low high }
{
    high.map_or(low, signed_of)
}
