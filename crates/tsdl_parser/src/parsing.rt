//! What the rules of the grammar are made of: marks, words and numbers at the front of a list of atoms.

ghost use Rattle.std.specs.Prelude.{◌≡◌, ◌∷◌, [], IfOk, MatchOption};
ghost use Rattle.tsdl_grammar.specs.Fronts.{shown};
ghost use Rattle.tsdl_parser.specs.Parsing.{Gives, begins, closed_by, mark_at, word_at, names, keyword_at, number_at};

use crate::expected::Expected;
use crate::halt::{Halt, Missing, Unread};
use ctf_types::Text;
use std::alloc::{AllocError, Global};
use tsdl_grammar::{Atom, Atoms, Front, Mark, Number, Sign, TokenKind};

/// What stands at the front of some atoms, and the atoms behind it.
pub(crate) type Read<'a, T, E = Unread> = Result<(T, Atoms<'a>), E>;

/// The first atom, where there is one, in memory of its own, and the atoms behind it.
pub(crate) fn next_atom(alloc: Global, atoms: Atoms<'_>) -> Read<'_, Option<Atom>, AllocError>
    ensures { IfOk result (λ x. MatchOption x.0 (shown atoms.entry ≡ []) (λ a. shown atoms.entry ≡ a ∷ shown x.1)) }
{
    match atoms.front {
        Some(front) => Ok((Some(front.atom(alloc)?), atoms.behind())),
        None => Ok((None, atoms)),
    }
}

/// Whether the first atom is this mark.
#[tactic(auto, unfolding(crate::specs::Parsing::begins))]
pub(crate) fn begins(mark: Mark, atoms: Atoms<'_>) -> bool
    ensures { result ≡ begins mark (shown atoms.entry) }
{
    let kind = atoms.front.map(|front| front.kind);
    matches!(kind, Some(TokenKind::Mark(found)) if found == mark)
}

/// What stands behind this mark.
#[tactic(auto, unfolding(crate::specs::Parsing::begins, crate::specs::Parsing::mark_at))]
pub(crate) fn mark_at(mark: Mark, atoms: Atoms<'_>) -> Result<Atoms<'_>, Unread>
    ensures { Gives (λ x. shown x) result (mark_at mark (shown atoms.entry)) }
{
    if begins(mark, atoms) {
        return Ok(atoms.behind());
    }
    let halt = Halt::before(atoms, Expected::Mark(mark), &[Missing::Mark(mark)]);
    Err(Unread::Halted(halt))
}

/// What was read, where this mark stands behind it.
pub(crate) fn closed_by<'a, T: Drop>(mark: Mark, read: (T, Atoms<'a>)) -> Read<'a, T>
    ensures { Gives (λ x. (x.0, shown x.1)) result (closed_by mark (read.entry.0, shown read.entry.1)) }
{
    let (value, rest) = read;
    Ok((value, mark_at(mark, rest)?))
}

/// A word.
#[tactic(auto, unfolding(crate::specs::Parsing::word_at))]
pub(crate) fn word_at(alloc: Global, atoms: Atoms<'_>, expected: Expected) -> Read<'_, Text>
    ensures { Gives (λ x. (x.0, shown x.1)) result (word_at (shown atoms.entry)) }
{
    let (first, rest) = next_atom(alloc, atoms)?;
    match first {
        Some(Atom::Word(word)) => Ok((word, rest)),
        _ => Err(Unread::Halted(Halt::before(atoms, expected, &[]))),
    }
}

/// Whether the first atom is this word.
#[tactic(auto, unfolding(crate::specs::Parsing::names))]
pub(crate) fn names(keyword: &str, atoms: Atoms<'_>) -> bool
    ensures { result ≡ names keyword.now (shown atoms.entry) }
{
    let is_word = |front: Front<'_>| front.word().is_some_and(|word| word == keyword);
    atoms.front.is_some_and(is_word)
}

/// What stands behind this word.
#[tactic(auto, unfolding(crate::specs::Parsing::names, crate::specs::Parsing::keyword_at))]
pub(crate) fn keyword_at<'a>(
    keyword: &str,
    atoms: Atoms<'a>,
    expected: Expected,
) -> Result<Atoms<'a>, Unread>
    ensures { Gives (λ x. shown x) result (keyword_at keyword.now (shown atoms.entry)) }
{
    if names(keyword, atoms) {
        return Ok(atoms.behind());
    }
    Err(Unread::Halted(Halt::before(atoms, expected, &[])))
}

/// A number with its sign. Where none stands, a sign without a literal is not kept.
#[tactic(auto, unfolding(crate::specs::Parsing::number_at, crate::specs::Parsing::signed_at))]
pub(crate) fn number_at(alloc: Global, atoms: Atoms<'_>, expected: Expected) -> Read<'_, Number>
    ensures { Gives (λ x. (x.0, shown x.1)) result (number_at (shown atoms.entry)) }
{
    let (first, rest) = next_atom(alloc, atoms)?;
    let (sign, place, (second, rest)) = match first {
        Some(Atom::Mark(Mark::Plus)) => (Some(Sign::Plus), rest, next_atom(alloc, rest)?),
        Some(Atom::Mark(Mark::Minus)) => (Some(Sign::Minus), rest, next_atom(alloc, rest)?),
        first => (None, atoms, (first, rest)),
    };
    let Some(Atom::Number(literal)) = second else {
        return Err(Unread::Halted(Halt {
            dropped: if sign.is_some() { 1 } else { 0 },
            ..Halt::before(place, expected_number(place, expected), &[Missing::Zero])
        }));
    };
    Ok((Number { sign, literal }, rest))
}

/// What was expected in front of these atoms: a smaller number, where one stands there that is too large.
fn expected_number(atoms: Atoms<'_>, expected: Expected) -> Expected {
    match atoms.front {
        Some(front) if matches!(front.kind, TokenKind::Number) => Expected::SmallerNumber,
        _ => expected,
    }
}
