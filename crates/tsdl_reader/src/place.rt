//! What stands at a place among the atoms of a text.

ghost use Rattle.std.specs.Prelude.{◌≡◌, IfOk, slice_get};
ghost use Rattle.tsdl_grammar.specs.Fronts.{atoms_in};

use ctf_types::is_among;
use std::alloc::{AllocError, Global};
use tsdl_grammar::{Atom, Mark, TokenKind, first_token};

/// The atom of this index, None behind the last one.
pub(crate) fn atom_at(alloc: Global, text: &[u8], at: usize) -> Result<Option<Atom>, AllocError>
    ensures { IfOk result (λ atom. atom ≡ slice_get (atoms_in text.now) at) }
{
    let mut before = at;
    let mut rest = text;
    while let Some((front, behind)) = first_token(rest) {
        if before == 0 {
            return Ok(Some(front.atom(alloc)?));
        }
        before -= 1;
        rest = behind;
    }
    Ok(None)
}

/// Whether the atom of this index is a word.
pub(crate) fn is_word(alloc: Global, text: &[u8], at: usize) -> Result<bool, AllocError> {
    Ok(matches!(atom_at(alloc, text, at)?, Some(Atom::Word(_))))
}

/// Whether the atom of this index is one of these words.
pub(crate) fn has_word(
    alloc: Global,
    text: &[u8],
    at: usize,
    words: &[&str],
) -> Result<bool, AllocError> {
    match atom_at(alloc, text, at)? {
        Some(Atom::Word(word)) => Ok(is_among(word.as_str(), words)),
        Some(Atom::Number(_) | Atom::Text(_) | Atom::Mark(_) | Atom::TooLarge) | None => Ok(false),
    }
}

/// Whether the atom of this index is this mark.
pub(crate) fn has_mark(
    alloc: Global,
    text: &[u8],
    at: usize,
    mark: Mark,
) -> Result<bool, AllocError> {
    match atom_at(alloc, text, at)? {
        Some(Atom::Mark(found)) => Ok(found == mark),
        Some(Atom::Number(_) | Atom::Text(_) | Atom::Word(_) | Atom::TooLarge) | None => Ok(false),
    }
}

/// How many braces stand open before the atom of this index.
pub(crate) fn braces_open(text: &[u8], at: usize) -> usize {
    let mut open = 0usize;
    let mut before = at;
    let mut rest = text;
    while let Some((front, behind)) = first_token(rest) {
        if before == 0 {
            break;
        }
        match front.kind {
            TokenKind::Mark(Mark::OpenBrace) => open = open.saturating_add(1),
            TokenKind::Mark(Mark::CloseBrace) => open = open.saturating_sub(1),
            TokenKind::Identifier | TokenKind::Number | TokenKind::Text | TokenKind::Mark(_) => {}
        }
        before -= 1;
        rest = behind;
    }
    open
}
