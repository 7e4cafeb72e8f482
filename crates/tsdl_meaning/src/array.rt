//! Arrays, by the lengths in their brackets (CTF 1.8.3, section 4.2.3). The first length is the outermost array's.

ghost use Rattle.std.specs.Prelude.{◌≡◌, ◌≤◌, IfOk, nat_lt, nat_le};
ghost use Rattle.tsdl_meaning.specs.Words.{MAX_ELEMENTS, list_all, Leaf, each, field_of, arrays_of, elements_of, are_lengths, count_of};

use crate::room::with_room;
use crate::value::{Meant, natural};
use ctf_types::{Element, FieldType, ListOf, MAX_ARRAYS, MAX_ELEMENTS};
use std::alloc::{AllocError, Global};
use tsdl_grammar::Bracket;

/// Arrays of these lengths.
#[tactic(auto, unfolding(ctf_types::specs::Allowed::elements_of))]
pub(crate) fn arrays_of(
    alloc: Global,
    field: FieldType,
    lengths: &[u64],
) -> Result<FieldType, AllocError>
    requires { elements_of lengths.now ≤ MAX_ELEMENTS }
    ensures { (leaf : Leaf) → field ≡ field_of leaf → IfOk result (λ t. t ≡ arrays_of leaf lengths.now) }
{
    match lengths {
        [] => Ok(field),
        [outer, inner @ ..] => {
            let element = arrays_of(alloc, field, inner)?;
            Ok(FieldType::Static(Element::new(alloc, element)?, *outer as u32))
        }
    }
}

/// Whether these are the lengths of arrays in one another, no deeper and of no more elements than the limits.
pub(crate) fn are_lengths(lengths: &[u64]) -> bool
    ensures { result ≡ are_lengths lengths.now }
{
    lengths.len() <= MAX_ARRAYS && are_few(lengths)
}

/// Whether arrays of these lengths have no more elements than the limit, a length of 0 counted as 1.
#[tactic(auto, unfolding(ctf_types::specs::Allowed::elements_of))]
fn are_few(lengths: &[u64]) -> bool
    ensures { result ≡ nat_le (elements_of lengths.now) MAX_ELEMENTS }
{
    let mut elements = 1u64;
    for length in lengths {
        elements = elements.saturating_mul((*length).max(1));
    }
    elements <= MAX_ELEMENTS
}

/// Whether none of the lengths is 0.
pub(crate) fn have_bits(lengths: &[u64]) -> bool
    ensures { result ≡ list_all (nat_lt 0) lengths.now }
{
    lengths.iter().all(|length| *length > 0)
}

/// The lengths in brackets, where each has a number.
pub(crate) fn counts_of(alloc: Global, brackets: &[Bracket]) -> Meant<ListOf<u64>>
    ensures { IfOk result (λ ns. ns ≡ each count_of brackets.now) }
{
    let mut counts = with_room(alloc, brackets.len())?;
    for bracket in brackets {
        let Bracket::Count(number) = bracket else {
            return Ok(None);
        };
        counts.push(meant!(natural(*number)))?;
    }
    Ok(Some(counts))
}
