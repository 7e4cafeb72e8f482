//! The token at the front of a text, and the atoms of a text one after the other, without a list of them.
#![tactic(auto, using(crate::proofs::AtomsAhead::few, crate::proofs::AtomsAhead::nothing_behind))]

ghost use Rattle.std.specs.Prelude.{◌≡◌, ◌∷◌, ◌++◌, [], length, take, option_map, IfOk, IfSome, MatchOption};
ghost use Rattle.tsdl_grammar.specs.Fronts.{atoms_in, meant, word_in, shown};

use crate::atom::{Atom, meaning};
use crate::piece::{Piece, piece_at, text_in};
use crate::token::TokenKind;
use std::alloc::{AllocError, Global};

/// A token at the front of a text: its kind, and the bytes that are it.
#[derive(Clone, Copy, Debug)]
pub struct Front<'a> {
    pub kind: TokenKind,
    pub bytes: &'a [u8],
}

impl Front<'_> {
    /// What the token means.
    pub fn atom(&self, alloc: Global) -> Result<Atom, AllocError>
        ensures { IfOk result (λ a. a ≡ meant self.now) }
    {
        meaning(alloc, self.kind, self.bytes)
    }

    /// The word that the token is, if it is one.
    pub fn word(&self) -> Option<&str>
        ensures { option_map (λ w. w.now) result ≡ word_in (meant self.now) }
    {
        match self.kind {
            TokenKind::Identifier => text_in(self.bytes),
            TokenKind::Number | TokenKind::Text | TokenKind::Mark(_) => None,
        }
    }
}

/// The first token of a text behind blanks and comments, and the text behind it. None where no other token starts.
pub fn first_token(text: &[u8]) -> Option<(Front<'_>, &[u8])>
    ensures { MatchOption result (atoms_in text.now ≡ []) (λ x. atoms_in text.now ≡ meant x.0 ∷ atoms_in x.1.now) }
{
    let mut rest = text;
    while let Some(cut) = piece_at(rest) {
        let (bytes, behind) = rest.split_at(cut.len);
        match cut.piece {
            Piece::Blank | Piece::Comment => rest = behind,
            Piece::Token(kind) => return Some((Front { kind, bytes }, behind)),
        }
    }
    None
}

/// The number of atoms of a text.
pub fn atom_count(text: &[u8]) -> usize
    ensures { result ≡ length (atoms_in text.now) }
{
    let mut count = 0;
    let mut rest = text;
    while let Some((_, behind)) = first_token(rest) {
        count += 1;
        rest = behind;
    }
    count
}

/// Atoms one after the other: the first ones of a text, at most so many, and behind them those of another text.
#[derive(Clone, Copy, Debug)]
pub struct Atoms<'a> {
    /// The token of the first atom, None where there is no atom.
    pub front: Option<Front<'a>>,
    /// The text behind it.
    pub text: &'a [u8],
    /// How many more atoms of this text there are at most.
    pub count: usize,
    /// The text of the atoms behind those.
    pub more: &'a [u8],
}

impl<'a> Atoms<'a> {
    /// All atoms of a text.
    pub fn of(text: &'a [u8]) -> Atoms<'a>
        ensures { shown result ≡ atoms_in text.now }
    {
        Atoms::with_more(&[], 0, text)
    }

    /// The first atoms of a text, at most so many.
    pub fn up_to(text: &'a [u8], count: usize) -> Atoms<'a>
        ensures { shown result ≡ take count (atoms_in text.now) }
    {
        Atoms::with_more(text, count, &[])
    }

    /// The first atoms of a text, at most so many, and behind them those of another text.
    pub fn with_more(text: &'a [u8], count: usize, more: &'a [u8]) -> Atoms<'a>
        ensures { shown result ≡ take count (atoms_in text.now) ++ atoms_in more.now }
    {
        if let Some(left) = count.checked_sub(1) {
            if let Some((front, behind)) = first_token(text) {
                return Atoms {
                    front: Some(front),
                    text: behind,
                    count: left,
                    more,
                };
            }
        }
        let (front, behind) = first_token(more).unzip();
        Atoms {
            front,
            text: &[],
            count: 0,
            more: behind.unwrap_or(&[]),
        }
    }

    /// The atoms behind the first one.
    pub fn behind(&self) -> Atoms<'a>
        ensures { IfSome self.now.front (λ front. shown self.now ≡ meant front ∷ shown result) }
    {
        Atoms::with_more(self.text, self.count, self.more)
    }
}
