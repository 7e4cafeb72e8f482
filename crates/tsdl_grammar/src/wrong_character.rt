//! A character at which no token begins, as people read it.

ghost use Rattle.std.specs.Prelude.{◌≡◌, ◌<◌, ◌≤◌, ◌++◌, length, encode_utf8, IfOk, MatchOption, string_bytes};
ghost use Rattle.std.specs.{Char.digit_char, Str.StartsWithNoChar};
ghost use Rattle.tsdl_grammar.specs.WrongCharacters.{BeginsWith, IsCharacterWords, IsQuoted, IsWrongCharacter, by_bytes, is_seen};

use crate::piece::text_in;
use std::alloc::{AllocError, Global};

/// How many bytes a character has at most.
pub(crate) const LONGEST_CHARACTER: usize = 4;

/// The first character of bytes at which no token begins, in quotes: as it is, or by its bytes where it is not seen. The first
/// byte where they begin with no whole character.
pub(crate) fn wrong_character(alloc: Global, bytes: &[u8]) -> Result<String, AllocError>
    requires { 0 < length bytes.now }
    ensures { IfOk result (λ found. IsWrongCharacter bytes.now (string_bytes found)) }
{
    match first_character(bytes) {
        Some(character) => character_words(alloc, character),
        None => by_bytes(alloc, &bytes[..1]),
    }
}

/// Bytes in quotes as a text.
pub(crate) fn in_quotes(alloc: Global, bytes: &[u8]) -> Result<String, AllocError>
    ensures { IfOk result (λ found. IsQuoted bytes.now (string_bytes found)) }
{
    let text = String::from_utf8_lossy(alloc, bytes)?;
    format!(in alloc; "{text:?}")
}

/// The character in UTF-8 with which some bytes begin.
fn first_character(bytes: &[u8]) -> Option<char>
    ensures { MatchOption result (StartsWithNoChar bytes.now) (λ c. BeginsWith c bytes.now) }
{
    let most = bytes.len().min(LONGEST_CHARACTER);
    for len in 1..most + 1 {
        if let Some(text) = text_in(&bytes[..len]) {
            return text.chars().next();
        }
    }
    None
}

fn character_words(alloc: Global, character: char) -> Result<String, AllocError>
    ensures { IfOk result (λ found. IsCharacterWords character (string_bytes found)) }
{
    let mut bytes = [0u8; LONGEST_CHARACTER];
    if character.is_ascii() {
        in_quotes(alloc, character.encode_utf8(&mut bytes).as_bytes())
    } else if is_seen(character) {
        format!(in alloc; "\"{character}\"")
    } else {
        by_bytes(alloc, character.encode_utf8(&mut bytes).as_bytes())
    }
}

/// Whether a character is seen where it stands alone.
fn is_seen(character: char) -> bool
    ensures { result ≡ is_seen character }
{
    !(character.is_control()
        || character.is_whitespace()
        || matches!(
            character,
            '\u{ad}'
                | '\u{61c}'
                | '\u{200b}'..='\u{200f}'
                | '\u{202a}'..='\u{202e}'
                | '\u{2060}'..='\u{206f}'
                | '\u{feff}'
        ))
}

/// Bytes in quotes, each by two hexadecimal digits.
fn by_bytes(alloc: Global, bytes: &[u8]) -> Result<String, AllocError>
    ensures { IfOk result (λ found. string_bytes found ≡ by_bytes bytes.now) }
{
    let mut found = String::from_str(alloc, "\"")?;
    for byte in bytes {
        found.push_str("\\x")?;
        found.push(digit(*byte / 16))?;
        found.push(digit(*byte % 16))?;
    }
    found.push_str("\"")?;
    Ok(found)
}

/// A hexadecimal digit in lower case.
fn digit(number: u8) -> char
    requires { number < 16 }
    ensures { result ≡ digit_char number }
{
    char::from_digit(u32::from(number), 16).unwrap_or('0')
}
