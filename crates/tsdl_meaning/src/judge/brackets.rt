//! The first flaw of a member's brackets: how many there are, how long they are, and which members they name.

ghost use Rattle.std.specs.Prelude.{◌≡◌, List, [], ◌∷◌, ◌++◌, None, IsSome, IfOk, IfErr, MatchOption};
ghost use Rattle.tsdl_meaning.specs.Words.{flat_map, Bracket, Leaf, bracketed, word, bracket_toks, StopsAmong, StopsWhere, IsBehindBrackets, IsInBracket, Adds, PassesLimit, KeepsLimits, AreBrackets};
ghost use Rattle.tsdl_grammar.specs.declared.tree.Bracket.TheVariants as brackets;

use crate::judge::value::judge_number;
use crate::member::length_place;
use ctf_types::{MAX_ARRAYS, MAX_ELEMENTS, Members, Text};
use std::alloc::Global;
use tsdl_flaw::{Flaw, Limit, Remedy, Spelled, Stop};
use tsdl_grammar::{Bracket, Number};

/// The brackets so far.
#[derive(Clone, Copy)]
struct Lengths {
    is_sequence: bool,
    /// How many numbers stand in brackets.
    count: usize,
    /// How many elements they make, a length of 0 counted as 1.
    elements: u64,
}

impl Lengths {
    /// Adds a length. Answers the limit that it passes, if there is one.
    fn add(&mut self, length: u64) -> Option<Limit>
        ensures adds { MatchOption result (Adds self.old length self.new) (λ _. PassesLimit self.old length) }
        ensures keeps { result ≡ None → KeepsLimits self.old length self.new }
    {
        let elements = self.elements.saturating_mul(length.max(1));
        if self.is_sequence && length == 0 {
            return Some(Limit::SequenceElements);
        }
        if self.count >= MAX_ARRAYS {
            return Some(Limit::Arrays);
        }
        if elements > MAX_ELEMENTS {
            return Some(Limit::Elements);
        }
        self.count += 1;
        self.elements = elements;
        None
    }
}

/// `{ "[" (number | identifier) "]" }`, behind these members.
#[tactic(auto, using(crate::proofs::FlawlessTypes::no_brackets))]
pub(crate) fn judge_brackets(
    alloc: Global,
    before: &Members,
    brackets: &[Bracket],
    at: usize,
) -> Result<(), Stop>
    ensures meant { (leaf : Leaf) → IfOk result (λ _. IsSome (bracketed before.now leaf brackets.now)) }
    ensures fault { IfErr result (StopsAmong at (flat_map bracket_toks brackets.now)) }
{
    let mut lengths = Lengths {
        is_sequence: false,
        count: 0,
        elements: 1,
    };
    let mut next = at;
    for bracket in brackets {
        judge_bracket(alloc, before, &mut lengths, bracket, next)?;
        next = next.saturating_add(bracket.length());
    }
    Ok(())
}

/// `"[" (number | identifier) "]"`.
fn judge_bracket(
    alloc: Global,
    before: &Members,
    lengths: &mut Lengths,
    bracket: &Bracket,
    at: usize,
) -> Result<(), Stop>
    ensures meant { IfOk result (λ _. (done : List Bracket) → AreBrackets before.now done lengths.old → AreBrackets before.now (done ++ bracket.now ∷ []) lengths.new) }
    ensures fault { IfErr result (λ s. (done : List Bracket) → AreBrackets before.now done lengths.old → StopsWhere (IsBehindBrackets done) at (bracket_toks bracket.now) s) }
{
    let place = at.saturating_add(1);
    match bracket {
        Bracket::Count(number) => {
            let length = judge_number(number, place)?;
            match lengths.add(length) {
                None => Ok(()),
                Some(limit) => Err(Stop::at(place, number, Flaw::Limit(limit))),
            }
        }
        Bracket::Member(name) => judge_name(alloc, before, lengths, name, place),
    }
}

/// A name in a bracket, which is the first one: an unsigned integer member before.
fn judge_name(
    alloc: Global,
    before: &Members,
    lengths: &mut Lengths,
    name: &Text,
    at: usize,
) -> Result<(), Stop>
    ensures meant { IfOk result (λ _. (done : List Bracket) → AreBrackets before.now done lengths.old → AreBrackets before.now (done ++ brackets.Member name.now ∷ []) lengths.new) }
    ensures fault { IfErr result (StopsWhere IsInBracket at (word name.now ∷ [])) }
{
    if lengths.is_sequence || lengths.count > 0 {
        let name = String::from_str(alloc, name.as_str())?;
        return Err(Stop::at_atom(at, Flaw::Unsupported(name, Remedy::Instead("a number"))));
    }
    if length_place(before, name.as_str()).is_none() {
        return Err(Stop::at_atom(at, Flaw::BadLength));
    }
    lengths.is_sequence = true;
    Ok(())
}
