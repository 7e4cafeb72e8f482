//! Where a text stops being JSON, and whether it looks like YAML.

ghost use Rattle.std.specs.Prelude.{◌≡◌, ◌++◌, IfOk, MatchOption, OnOk, string_bytes};
ghost use Rattle.conf_fault.specs.LineColumn.{IsPlaceIn};
ghost use Rattle.conf_fault.specs.Explanation.{Adds, BeginsNone, BeginsWith, IsFoundWords, IsNotJson, character_words};
ghost use Rattle.conf_fault.specs.Stop.{IsStop};

use crate::json_front::longest_front;
use crate::line_column::{LineColumn, line_column, push_place};
use crate::source::Source;
use crate::stop::{Stop, push_reason};
use std::alloc::{AllocError, Global};
use std::str;

/// Adds where a text stops being JSON.
pub(crate) fn push_not_json(source: Source<'_>, said: &mut String) -> Result<(), AllocError>
    ensures { OnOk result (Adds (IsNotJson source.entry.text.now) (string_bytes said.old) (string_bytes said.new)) }
{
    let stop = json_end(source.alloc, source.text)?;
    push_place(source.alloc, said, line_column(source.text, stop.at))?;
    said.push_str("not JSON: found ")?;
    push_found(said, &source.text[stop.at..])?;
    said.push_str(": expected ")?;
    push_reason(source.alloc, said, stop.reason)?;
    if !looks_like_yaml(source.text) {
        return Ok(());
    }
    said.push_str("; this looks like YAML, of which tools/yaml_to_json makes JSON")
}

/// The place of the first byte with which a text is no longer the beginning of a JSON text, or of its end, where more has to follow.
///
/// A byte of no whole character in UTF-8 is such a byte, and so are the bracket that opens one level more than `MOST_LEVELS`, the last digit of a number
/// too large for a float, and the backslash of half a character (`\ud800`).
pub fn json_place(alloc: Global, text: &[u8]) -> Result<LineColumn, AllocError>
    ensures { IfOk result (IsPlaceIn text.now) }
{
    let stop = json_end(alloc, text)?;
    Ok(line_column(text, stop.at))
}

fn json_end(alloc: Global, text: &[u8]) -> Result<Stop, AllocError>
    ensures { IfOk result (IsStop text.now) }
{
    let readable = match str::from_utf8(text) {
        Ok(_) => text.len(),
        Err(error) => error.valid_up_to(),
    };
    longest_front(alloc, &text[..readable])
}

/// Adds what stands at the front of some bytes.
fn push_found(said: &mut String, bytes: &[u8]) -> Result<(), AllocError>
    ensures { OnOk result (Adds (IsFoundWords bytes.now) (string_bytes said.old) (string_bytes said.new)) }
{
    if bytes.is_empty() {
        return said.push_str("the end of the text");
    }
    match first_character(bytes) {
        Some(character) => push_quoted(said, character),
        None => said.push_str("a byte that is no UTF-8"),
    }
}

fn push_quoted(said: &mut String, character: char) -> Result<(), AllocError>
    ensures { OnOk result (string_bytes said.new ≡ string_bytes said.old ++ character_words character) }
{
    if character == '\u{feff}' {
        return said.push_str("a byte order mark");
    }
    said.push_str("`")?;
    said.push(character)?;
    said.push_str("`")
}

/// The character in UTF-8 with which some bytes begin.
fn first_character(bytes: &[u8]) -> Option<char>
    ensures { MatchOption result (BeginsNone bytes.now) (BeginsWith bytes.now) }
{
    for len in 0..bytes.len().min(4) {
        if let Ok(text) = str::from_utf8(&bytes[..len + 1]) {
            return text.chars().next();
        }
    }
    None
}

/// Whether a text begins, behind a byte order mark and empty lines, with a comment, with `---` or `%YAML`, with a tag, with an item of a list, as `- a`,
/// or with a name and a colon, as `trace:` or `"trace" :`.
fn looks_like_yaml(text: &[u8]) -> bool {
    let text = without_mark(text).trim_ascii_start();
    text.starts_with(b"#".as_slice())
        || text.starts_with(b"- ".as_slice())
        || text.starts_with(b"---".as_slice())
        || text.starts_with(b"%YAML".as_slice())
        || text.starts_with(b"!".as_slice())
        || begins_with_key(text)
}

/// A text behind the byte order mark with which it begins, if it does.
fn without_mark(text: &[u8]) -> &[u8] {
    match first_character(text) {
        Some('\u{feff}') => text.get(3..).unwrap_or(&[]),
        _ => text,
    }
}

/// Whether a text begins with a name, in quotes of one kind or in none, and a colon.
fn begins_with_key(text: &[u8]) -> bool {
    let quote = text.first().filter(|byte| matches!(**byte, b'"' | b'\''));
    let start = usize::from(quote.is_some());
    let name = &text[start..];
    let length = name.iter().take_while(|byte| is_of_a_name(**byte)).count();
    let end = length.saturating_add(start);
    let behind = name.get(end..).unwrap_or(&[]);
    length > 0
        && (quote.is_none() || name.get(length) == quote)
        && behind.iter().find(|byte| **byte != b' ') == Some(&b':')
}

fn is_of_a_name(byte: u8) -> bool {
    byte.is_ascii_alphanumeric() || matches!(byte, b'$' | b'_' | b'-')
}
