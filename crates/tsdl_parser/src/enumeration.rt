//! Reads the entries of enumerations.

ghost use Rattle.std.specs.Prelude.{◌≡◌, IfOk};
ghost use Rattle.tsdl_parser.specs.Rules.{shown, Gives, label_at, high_at, entry_at, is_labelled, next_entry_at, entries_at};

use crate::expected::Expected;
use crate::halt::{Halt, Missing, Unread, expecting, going_on};
use crate::parsing::{Read, begins, mark_at, next_atom, number_at};
use crate::repetition::{Repeated, Start, all_at};
use std::alloc::{AllocError, Global};
use tsdl_grammar::{Atom, Atoms, Closing, Entries, Entry, Label, Mark, Number};

#[tactic(auto, unfolding(crate::specs::Rules::label_at))]
fn label_at(alloc: Global, atoms: Atoms<'_>) -> Read<'_, Label>
    ensures { Gives (λ x. (x.0, shown x.1)) result (label_at (shown atoms.entry)) }
{
    let (first, rest) = next_atom(alloc, atoms)?;
    match first {
        Some(Atom::Text(text)) => Ok((Label::Quoted(text), rest)),
        Some(Atom::Word(word)) => Ok((Label::Bare(word), rest)),
        _ => Err(Unread::Halted(Halt::before(atoms, Expected::Label, &[]))),
    }
}

/// The upper end of a range, if one follows.
#[tactic(auto, unfolding(crate::specs::Parsing::begins, crate::specs::Parsing::mark_at, crate::specs::Rules::high_at))]
fn high_at(alloc: Global, atoms: Atoms<'_>) -> Read<'_, Option<Number>>
    ensures { Gives (λ x. (x.0, shown x.1)) result (high_at (shown atoms.entry)) }
{
    if !begins(Mark::Ellipsis, atoms) {
        return Ok((None, atoms));
    }
    let (high, rest) = number_at(alloc, atoms.behind(), Expected::Number)?;
    Ok((Some(high), rest))
}

#[tactic(auto, unfolding(crate::specs::Rules::entry_at))]
fn entry_at(alloc: Global, atoms: Atoms<'_>) -> Read<'_, Entry>
    ensures { Gives (λ x. (x.0, shown x.1)) result (entry_at (shown atoms.entry)) }
{
    let (label, rest) = label_at(alloc, atoms)?;
    let rest = expecting(mark_at(Mark::Equals, rest), Expected::LabelMark);
    let (low, rest) = number_at(alloc, going_on(rest, &[Missing::Zero])?, Expected::Number)?;
    let (high, rest) = high_at(alloc, rest)?;
    Ok((Entry { label, low, high }, rest))
}

#[tactic(auto, unfolding(crate::specs::Rules::is_labelled))]
pub(crate) fn is_labelled(alloc: Global, atoms: Atoms<'_>) -> Result<bool, AllocError>
    ensures { IfOk result (λ b. b ≡ is_labelled (shown atoms.entry)) }
{
    let (first, _) = next_atom(alloc, atoms)?;
    Ok(matches!(first, Some(Atom::Text(_) | Atom::Word(_))))
}

impl Repeated for Entry {
    ghost item = { next_entry_at };

    #[tactic(auto, unfolding(crate::specs::Rules::next_entry_at))]
    fn item_at(alloc: Global, atoms: Atoms<'_>) -> Read<'_, Entry> {
        entry_at(alloc, mark_at(Mark::Comma, atoms)?)
    }
}

/// What stands between an enumeration's braces.
#[tactic(auto, unfolding(crate::specs::Rules::entries_at, crate::specs::Rules::listed_at, crate::specs::Rules::closing_at), using(crate::proofs::Repeated::shortens, crate::proofs::Entries::next_spells))]
pub(crate) fn entries_at(alloc: Global, atoms: Atoms<'_>) -> Read<'_, Entries>
    ensures { Gives (λ x. (x.0, shown x.1)) result (entries_at (shown atoms.entry)) }
{
    if !is_labelled(alloc, atoms)? {
        return Ok((Entries::Empty, atoms));
    }
    let (first, rest) = entry_at(alloc, atoms)?;
    let (others, rest) = all_at(alloc, rest, Start::NextEntry)?;
    let (closing, rest) = if begins(Mark::Comma, rest) {
        (Closing::Comma, mark_at(Mark::Comma, rest)?)
    } else {
        (Closing::Plain, rest)
    };
    Ok((Entries::Listed(first, others, closing), rest))
}

/// What is expected behind the entries of an enumeration.
pub(crate) fn expected_behind(entries: &Entries) -> Expected {
    match entries {
        Entries::Empty | Entries::Listed(_, _, Closing::Comma) => Expected::Label,
        Entries::Listed(first, others, Closing::Plain) => {
            match others.as_slice().last().unwrap_or(first).high {
                None => Expected::EntryMark,
                Some(_) => Expected::RangeMark,
            }
        }
    }
}
