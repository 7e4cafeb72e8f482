//! Where a text stops spelling blocks, what was expected there, and how the text could go on. The rule that stops says what
//! it lacks, and each rule around it adds what closes it.

ghost use Rattle.std.specs.Prelude.{◌≡◌, ◌-◌, ◌^◌, ◌<◌, ◌≤◌, ◌++◌, length, take};
ghost use Rattle.tsdl_grammar.specs.Fronts.{atoms_in, shown};
ghost use Rattle.tsdl_parser.specs.Halting.{Alike};
ghost use Rattle.tsdl_parser.specs.declared.halt.Unread.TheVariants.{Memory};

use crate::expected::Expected;
use arrayvec::ArrayVec;
use std::alloc::AllocError;
use tsdl_grammar::{Atoms, Mark, atom_count};

/// An atom that a text could go on with.
#[derive(Clone, Copy, Debug, Default, PartialEq, Eq)]
pub enum Missing {
    Mark(Mark),
    Word(&'static str),
    /// The number 0.
    #[default]
    Zero,
}

impl Missing {
    /// The atom as it is written.
    pub fn spelling(self) -> &'static str {
        match self {
            Missing::Mark(mark) => mark.spelling(),
            Missing::Word(word) => word,
            Missing::Zero => "0",
        }
    }
}

pub(crate) const OPEN_BRACE: Missing = Missing::Mark(Mark::OpenBrace);

pub(crate) const CLOSE_BRACE: Missing = Missing::Mark(Mark::CloseBrace);

pub(crate) const CLOSE_BRACKET: Missing = Missing::Mark(Mark::CloseBracket);

pub(crate) const CLOSE_PARENTHESIS: Missing = Missing::Mark(Mark::CloseParenthesis);

pub(crate) const SEMICOLON: Missing = Missing::Mark(Mark::Semicolon);

/// Any name.
pub(crate) const NAME: Missing = Missing::Word("_");

/// More than any text lacks, which is at most 12 atoms.
const MOST_MISSING: usize = 16;

/// Why no blocks were read.
#[derive(Debug, Drop)]
pub enum Unread {
    /// Memory ran out.
    Memory,
    /// The atoms spell none.
    Halted(Halt),
}

impl From<AllocError> for Unread {
    ghost from_gives = { λ _ e. e ≡ Memory };

    fn from(_e: AllocError) -> Unread {
        Unread::Memory
    }
}

/// A place where the atoms of a text stop spelling blocks, and a text that goes on from there: the atoms that are
/// kept and then the rest spell blocks.
#[derive(Debug, Drop)]
pub struct Halt {
    /// How many atoms are left from the place on: none at the end of the text.
    pub left: usize,
    /// How many atoms before the place begin something that is not whole there, and are not kept.
    pub dropped: usize,
    /// What was expected at the place.
    pub expected: Expected,
    /// What the kept atoms go on with, up to the end of a text.
    pub rest: ArrayVec<Missing, MOST_MISSING>,
}

impl Halt {
    /// The halt in front of these atoms, from where a text could go on with what is missing.
    pub(crate) fn before(atoms: Atoms<'_>, expected: Expected, missing: &[Missing]) -> Halt
        ensures { result.left ≡ length (shown atoms.entry) }
    {
        let mut rest = ArrayVec::new();
        let _fits = rest.try_extend_from_slice(missing);
        Halt {
            left: left(atoms),
            dropped: 0,
            expected,
            rest,
        }
    }

    /// The index of the place among so many atoms of a text, which is their number at the end.
    pub fn at(&self, count: usize) -> usize
        ensures place { result ≡ count - self.now.left }
        ensures within { result ≤ count }
    {
        count.saturating_sub(self.left)
    }

    /// How many atoms are kept, of a text of so many atoms.
    pub fn kept(&self, count: usize) -> usize
        ensures before { result ≡ count - self.now.left - self.now.dropped }
        ensures within { result ≤ count }
    {
        self.at(count).saturating_sub(self.dropped)
    }
}

/// How many atoms are left.
fn left(atoms: Atoms<'_>) -> usize
    ensures { result ≡ length (shown atoms.entry) }
{
    match atoms.front {
        Some(_) => 1 + left_behind(atoms.text, atoms.count, atoms.more),
        None => 0,
    }
}

/// How many atoms the first one is followed by: those of a text, at most so many, and those of another text.
#[tactic(auto, using(tsdl_grammar::proofs::AtomsAhead::few))]
fn left_behind(text: &[u8], count: usize, more: &[u8]) -> usize
    ensures count { result ≡ length (take count (atoms_in text.now) ++ atoms_in more.now) }
    ensures small { result < 2 ^ 64 - 1 }
{
    atom_count(text).min(count) + atom_count(more)
}

/// What was found, or the same halt with what is missing here behind its rest.
pub(crate) fn going_on<T>(mut found: Result<T, Unread>, missing: &[Missing]) -> Result<T, Unread>
    ensures { Alike found result }
{
    if let Err(Unread::Halted(halt)) = &mut found {
        let _fits = halt.rest.try_extend_from_slice(missing);
    }
    found
}

/// What was found, or the same halt with this expected.
pub(crate) fn expecting<T>(found: Result<T, Unread>, expected: Expected) -> Result<T, Unread>
    ensures { Alike found result }
{
    match found {
        Err(Unread::Halted(halt)) => Err(Unread::Halted(Halt { expected, ..halt })),
        other => other,
    }
}

/// What was found, or the same halt with none of these atoms kept.
pub(crate) fn back_to<T>(mut found: Result<T, Unread>, atoms: Atoms<'_>) -> Result<T, Unread>
    ensures { Alike found result }
{
    if let Err(Unread::Halted(halt)) = &mut found {
        halt.dropped = left(atoms).saturating_sub(halt.left);
        halt.rest.clear();
    }
    found
}
