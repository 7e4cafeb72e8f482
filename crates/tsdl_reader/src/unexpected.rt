//! What is wrong where something else is expected than what stands there.

ghost use Rattle.std.specs.Prelude.{IfOk, slice_get};
ghost use Rattle.tsdl_grammar.specs.Fronts.{atoms_in};
ghost use Rattle.tsdl_grammar.specs.Halts.{IsHalt};
ghost use Rattle.tsdl_meaning.specs.PacketSizes.{IfSizesMissed};
ghost use Rattle.tsdl_reader.specs.Reading.{IsFaultOf, IsFlawOf};

use crate::place::{atom_at, braces_open, has_mark, has_word, is_word};
use crate::unexpected_word::flaw_of_word;
use std::alloc::{AllocError, Global};
use tsdl_flaw::{Fault, Flaw, Stop};
use tsdl_grammar::{Atom, Mark};
use tsdl_parser::Expected;

/// The words that blocks begin with.
const BLOCK_WORDS: &[&str] = &["trace", "env", "clock", "stream", "event"];

/// The fault of a text at the atom where it stops spelling blocks, since something else is expected there.
pub(crate) fn unexpected(alloc: Global, text: &[u8], at: usize, expected: Expected) -> Stop
    requires { IsHalt (atoms_in text.now) at }
    ensures fault { IsFaultOf (atoms_in text.now) result }
    ensures sizes { IfSizesMissed result ⊥ }
{
    let end = at.saturating_add(1);
    match flaw_at(alloc, text, at, expected) {
        Ok(flaw) => Stop::Fault(Fault { at, end, flaw }),
        Err(_) => Stop::NoMemory,
    }
}

/// What is wrong with the atom of this index, or with the end of the text, where something else is expected.
fn flaw_at(alloc: Global, text: &[u8], at: usize, expected: Expected) -> Result<Flaw, AllocError>
    ensures { IfOk result (IsFlawOf (slice_get (atoms_in text.now) at)) }
{
    if let Some(words) = words_around(alloc, text, at, expected)? {
        return Ok(Flaw::Syntax(words));
    }
    match atom_at(alloc, text, at)? {
        Some(Atom::Word(word)) => flaw_of_word(alloc, text, at, word.as_str(), expected),
        Some(Atom::Mark(Mark::Comma | Mark::CloseBrace))
            if matches!(expected, Expected::LabelMark) => { Ok(Flaw::LabelWithoutValue) }
        _ => Ok(Flaw::Syntax(expected.words())),
    }
}

/// What is expected at a place where what stands around it tells more than what was expected: where a block begins inside
/// of another one or of a structure, that one may not be closed, and before some semicolons more can stand.
fn words_around(
    alloc: Global,
    text: &[u8],
    at: usize,
    expected: Expected,
) -> Result<Option<&'static str>, AllocError> {
    let before = at.saturating_sub(1);
    let (words, holds) = match expected {
        Expected::ItemMark => (
            "`=` or `:=`, or a `}` that closes the block before",
            block_begins(alloc, text, before)?,
        ),
        Expected::Mark(Mark::Equals) => (
            "`=`, or a `}` that closes the block before",
            block_begins(alloc, text, before)?,
        ),
        Expected::Member => (
            "`integer`, `enum`, `string`, or a `}` that closes the structure before",
            block_begins(alloc, text, at)?,
        ),
        Expected::Mark(Mark::Semicolon) => return words_before_semicolon(alloc, text, before),
        _ => return Ok(None),
    };
    Ok(if holds { Some(words) } else { None })
}

/// Whether a block begins at the atom of this index: its word, and a brace.
fn block_begins(alloc: Global, text: &[u8], at: usize) -> Result<bool, AllocError> {
    Ok(
        has_word(alloc, text, at, BLOCK_WORDS)?
            && has_mark(alloc, text, at.saturating_add(1), Mark::OpenBrace)?,
    )
}

/// What is expected behind the atom of this index where a semicolon is, if more can stand there: the length of an array
/// behind a member, and an alignment behind a structure.
fn words_before_semicolon(
    alloc: Global,
    text: &[u8],
    at: usize,
) -> Result<Option<&'static str>, AllocError> {
    if ends_a_member(alloc, text, at)? {
        Ok(Some("`[` or `;`"))
    } else if has_mark(alloc, text, at, Mark::CloseBrace)? && braces_open(text, at) > 1 {
        Ok(Some("`align` or `;`"))
    } else {
        Ok(None)
    }
}

/// Whether a member ends with the atom of this index, before its semicolon: with a bracket, or with its name, which
/// stands behind the braces of its type or behind `string`.
fn ends_a_member(alloc: Global, text: &[u8], at: usize) -> Result<bool, AllocError> {
    if has_mark(alloc, text, at, Mark::CloseBracket)? {
        return Ok(true);
    }
    let before = at.saturating_sub(1);
    Ok(
        is_word(alloc, text, at)?
            && (has_mark(alloc, text, before, Mark::CloseBrace)?
                || has_word(alloc, text, before, &["string"])?),
    )
}
