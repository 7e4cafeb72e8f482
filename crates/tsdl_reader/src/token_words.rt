//! Why no token starts where none does, in words.

use std::alloc::{AllocError, Global};
use tsdl_flaw::CONVERTED;
use tsdl_grammar::{Mark, TokenKind, escaped_byte, first_token};

/// What is wrong with the bytes of a text from a place on at which no token begins, None where the first one is a wrong
/// character.
pub(crate) fn token_words(
    alloc: Global,
    text: &[u8],
    place: usize,
) -> Result<Option<String>, AllocError> {
    let words = match text.get(place..).unwrap_or(&[]) {
        [b'"', content @ ..] => return Ok(Some(string_words(alloc, content)?)),
        [b'<' | b'>', ..] => return Ok(Some(angle_words(alloc, text, place)?)),
        [b'/', b'*', ..] => "this comment has no end",
        [b'*', b'/', ..] => "no comment ends here: comments do not nest",
        [b'*', ..] => "`*` is TSDL that is not read here",
        [b'\'', ..] => "character constants are TSDL that is not read here",
        _ => return Ok(None),
    };
    Ok(Some(String::from_str(alloc, words)?))
}

/// What is wrong with the mark of a variant. A text with names of types before it is converted, as that of a tracer which
/// writes variants around the numbers and the times of its events; a variant in an event itself stays.
fn angle_words(alloc: Global, text: &[u8], place: usize) -> Result<String, AllocError> {
    let before = text.get(..place).unwrap_or(text);
    let remedy = if names_types(before) && !ends_in_event(before) {
        CONVERTED
    } else {
        ""
    };
    format!(in alloc; "`<` and `>` are TSDL that is not read here{remedy}")
}

/// Whether a type gets a name in a text.
fn names_types(text: &[u8]) -> bool {
    let mut rest = text;
    while let Some((front, behind)) = first_token(rest) {
        if matches!(front.word(), Some("typealias" | "typedef")) {
            return true;
        }
        rest = behind;
    }
    false
}

/// Whether the last word of a text outside of braces is the one of an event block.
fn ends_in_event(text: &[u8]) -> bool {
    let mut in_event = false;
    let mut open = 0usize;
    let mut rest = text;
    while let Some((front, behind)) = first_token(rest) {
        match front.kind {
            TokenKind::Mark(Mark::OpenBrace) => open = open.saturating_add(1),
            TokenKind::Mark(Mark::CloseBrace) => open = open.saturating_sub(1),
            TokenKind::Identifier if open == 0 => in_event = front.word() == Some("event"),
            TokenKind::Identifier | TokenKind::Number | TokenKind::Text | TokenKind::Mark(_) => {}
        }
        rest = behind;
    }
    in_event
}

/// What is wrong with a string, of which the first quote is passed.
fn string_words(alloc: Global, content: &[u8]) -> Result<String, AllocError> {
    let mut after_backslash = false;
    for b in content {
        if after_backslash {
            if escaped_byte(*b).is_none() {
                return escape_words(alloc, *b);
            }
            after_backslash = false;
        } else if *b == b'"' {
            return String::from_str(alloc, "this string is no UTF-8");
        } else if *b == b'\n' {
            break;
        } else {
            after_backslash = *b == b'\\';
        }
    }
    String::from_str(alloc, "this string has no closing quote in its line")
}

/// What is wrong with a backslash before a byte.
fn escape_words(alloc: Global, b: u8) -> Result<String, AllocError> {
    if matches!(b, b'0'..=b'7' | b'x' | b'u' | b'U') {
        String::from_str(alloc, "numeric escapes are TSDL that is not read here")
    } else if b.is_ascii_graphic() {
        format!(in alloc; "this string has `\\{}`, which is no escape", char::from(b))
    } else {
        String::from_str(alloc, "this string has a backslash that begins no escape")
    }
}
