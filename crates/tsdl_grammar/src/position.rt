//! Faults of a metadata text as people read them: with line, column and what stands there.

ghost use Rattle.std.specs.Prelude.{◌≡◌, ◌≤◌, length, take, min, IfOk, string_bytes};
ghost use Rattle.tsdl_grammar.specs.{FaultWords.{IsFoundAt, IsSaidOf}, Positions.{column_after, line_after}};

use crate::piece::piece_at;
use crate::wrong_character::{LONGEST_CHARACTER, in_quotes, wrong_character};
use std::alloc::{AllocError, Global};

/// How many bytes of a text a message shows.
const LONGEST_SHOWN: usize = 40;

/// A place in a text as editors count it, both from 1. A column counts bytes.
#[derive(Clone, Copy, Debug, PartialEq, Eq)]
pub struct Position {
    pub line: usize,
    pub column: usize,
}

/// The line and the column of a byte of a text, or of the text's end.
pub fn position_of(text: &[u8], place: usize) -> Position
    requires { place ≤ length text.now }
    ensures line { result.line ≡ line_after (take place text.now) }
    ensures column { result.column ≡ column_after (take place text.now) }
{
    let before = &text[..place];
    let mut column = 1;
    for b in before {
        column = if *b == b'\n' { 1 } else { column + 1 };
    }
    let line = 1 + before.iter().filter(|b| **b == b'\n').count();
    Position { line, column }
}

/// What stands at a byte of a text, in words, with its line and its column. A place behind the text is its end.
pub fn found_at(alloc: Global, text: &[u8], place: usize) -> Result<String, AllocError>
    ensures { IfOk result (λ said. IsFoundAt text.now (min place (length text.now)) (string_bytes said)) }
{
    let place = place.min(text.len());
    let Position { line, column } = position_of(text, place);
    let found = standing(alloc, &text[place..])?;
    format!(in alloc; "byte {place}, line {line}, column {column}: found {found}")
}

/// What stands at the front of some bytes, in words.
fn standing(alloc: Global, bytes: &[u8]) -> Result<String, AllocError>
    ensures { IfOk result (λ found. IsSaidOf bytes.now (string_bytes found)) }
{
    if bytes.is_empty() {
        return String::from_str(alloc, "the end of the text");
    }
    let Some(cut) = piece_at(bytes) else {
        return wrong_character(alloc, bytes);
    };
    let piece = &bytes[..cut.len];
    if piece.len() <= LONGEST_SHOWN {
        in_quotes(alloc, piece)
    } else {
        let front = in_quotes(alloc, front_of(piece))?;
        format!(in alloc; "{front}...")
    }
}

/// What a message shows of a long piece: so much of its front that no character is cut.
fn front_of(piece: &[u8]) -> &[u8] {
    let mut len = LONGEST_SHOWN;
    for _ in 1..LONGEST_CHARACTER {
        // a byte of a character but not its first
        if piece.get(len).is_some_and(|b| *b & 0xc0 == 0x80) {
            len = len.saturating_sub(1);
        }
    }
    piece.get(..len).unwrap_or(piece)
}
