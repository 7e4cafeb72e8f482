//! How far a text goes on as JSON.

ghost use Rattle.std.specs.Prelude.{◌≡◌, ◌-◌, drop, take, IfErr, IfOk, IfSome, Some};
ghost use Rattle.std.specs.Float.Ieee.{binary64};
ghost use Rattle.std.specs.Float.Parse.{parse_float};
ghost use Rattle.conf_fault.specs.Stop.{EndsInDigit, IsHalf, IsStop, Stops};

use crate::source::is_space;
use crate::stop::{MOST_LEVELS, Reason, Stop};
use std::alloc::{AllocError, Global};
use std::str;

/// What stands before a byte.
#[derive(Clone, Copy, PartialEq, Eq)]
enum Before {
    Nothing,
    /// A bracket that opens, a comma or a colon.
    Mark(u8),
    Name,
    Value,
}

impl Before {
    /// Whether a name can follow in an object.
    fn takes_name(self) -> bool {
        matches!(self, Before::Mark(b'{' | b','))
    }

    /// Whether a value can follow, in an object or not.
    fn takes_value(self, in_object: bool) -> bool {
        match self {
            Before::Nothing | Before::Mark(b'[' | b':') => true,
            Before::Mark(b',') => !in_object,
            Before::Mark(_) | Before::Name | Before::Value => false,
        }
    }

    /// Whether a text, a number or a word that begins with this byte can follow, in an object or not.
    fn takes_scalar(self, byte: u8, in_object: bool) -> bool {
        self.takes_value(in_object) || (in_object && byte == b'"' && self.takes_name())
    }

    /// What a text, a number or a word is behind this, in an object or not.
    fn scalar(self, in_object: bool) -> Before {
        if in_object && self.takes_name() {
            Before::Name
        } else {
            Before::Value
        }
    }

    /// Whether the object or list can end.
    fn ends(self) -> bool {
        matches!(self, Before::Value | Before::Mark(b'{' | b'['))
    }
}

/// The place of the first byte with which a text in UTF-8 is no longer the beginning of a JSON text, or of its end, and why it is.
pub(crate) fn longest_front(alloc: Global, text: &[u8]) -> Result<Stop, AllocError>
    ensures { IfOk result (IsStop text.now) }
{
    let mut closing: Vec<u8> = Vec::new(alloc);
    let mut before = Before::Nothing;
    let mut next = 0usize;
    for at in 0..text.len() {
        let byte = text[at];
        let in_object = closing.last() == Some(&b'}');
        before = match byte {
            _ if at < next || is_space(byte) => before,
            b'{' | b'[' if before.takes_value(in_object) => {
                if closing.len() >= MOST_LEVELS {
                    return Ok(Stop {
                        at,
                        reason: Reason::TooDeep,
                    });
                }
                closing.push(closing_of(byte))?;
                Before::Mark(byte)
            }
            b'}' | b']' if closing.last() == Some(&byte) && before.ends() => {
                let _closed = closing.pop();
                Before::Value
            }
            b',' if before == Before::Value && !closing.is_empty() => Before::Mark(b','),
            b':' if before == Before::Name => Before::Mark(b':'),
            _ if before.takes_scalar(byte, in_object) => {
                match scalar_end(text, at) {
                    Ok(end) => next = end,
                    Err(stop) => return Ok(within(text, stop)),
                }
                before.scalar(in_object)
            }
            _ => return Ok(no_json(at)),
        };
    }
    Ok(no_json(text.len()))
}

/// The bracket that closes what this one opens.
fn closing_of(bracket: u8) -> u8 {
    if bracket == b'{' { b'}' } else { b']' }
}

/// Where no JSON value goes on so.
fn no_json(at: usize) -> Stop
    ensures at { result.at ≡ at }
    ensures reason { result.reason ≡ Reason.NotJson }
{
    Stop {
        at,
        reason: Reason::NotJson,
    }
}

/// The stop, at the text's end where its place is behind it.
fn within(text: &[u8], stop: Stop) -> Stop
    requires { Stops text.now stop }
    ensures { IsStop text.now result }
{
    Stop {
        at: stop.at.min(text.len()),
        ..stop
    }
}

/// The end of the text, the number or the word that begins at a place, or the place of the byte with which it is none.
fn scalar_end(text: &[u8], at: usize) -> Result<usize, Stop>
    ensures { IfErr result (Stops text.now) }
{
    match text.get(at) {
        Some(b'"') => string_end(text, at),
        Some(b't') => word_end(text, at, b"true"),
        Some(b'f') => word_end(text, at, b"false"),
        Some(b'n') => word_end(text, at, b"null"),
        _ => number_end(text, at),
    }
}

fn string_end(text: &[u8], from: usize) -> Result<usize, Stop>
    ensures { IfErr result (Stops text.now) }
{
    let mut next = from.saturating_add(1);
    for at in from..text.len() {
        if at < next {
            continue;
        }
        match text[at] {
            b'"' => return Ok(at + 1),
            b'\\' => next = escape_end(text, at)?,
            0..=31 => return Err(no_json(at)),
            _ => {}
        }
    }
    Err(no_json(text.len()))
}

fn escape_end(text: &[u8], at: usize) -> Result<usize, Stop>
    ensures { IfErr result (Stops text.now) }
{
    match text.get(at.saturating_add(1)) {
        Some(b'u') => character_end(text, at),
        Some(b'"' | b'\\' | b'/' | b'b' | b'f' | b'n' | b'r' | b't') => Ok(at.saturating_add(2)),
        _ => Err(no_json(at.saturating_add(1))),
    }
}

/// Half of a character by its number, from `d800` on the first and from `dc00` on the second.
#[derive(Clone, Copy, PartialEq, Eq)]
enum Half {
    First,
    Second,
}

/// The end of a character by its number, or by both halves of it. A half alone is none where it begins.
fn character_end(text: &[u8], at: usize) -> Result<usize, Stop>
    ensures { IfErr result (Stops text.now) }
{
    let end = code_end(text, at)?;
    let Some(half) = half_of(rest_of(text, at)) else {
        return Ok(end);
    };
    match code_end(text, end) {
        Ok(other) if half == Half::First && half_of(rest_of(text, end)) == Some(Half::Second) => {
            Ok(other)
        }
        Err(stop) if half == Half::First && stop.at >= text.len() => Err(stop),
        _ => Err(Stop {
            at,
            reason: Reason::HalfCharacter,
        }),
    }
}

/// Which half of a character some bytes begin with by its number, if with one.
fn half_of(bytes: &[u8]) -> Option<Half>
    ensures { IfSome result (λ _. IsHalf bytes.now) }
{
    match bytes {
        [
            b'\\',
            b'u',
            b'd' | b'D',
            b'8' | b'9' | b'a' | b'b' | b'A' | b'B',
            ..
        ] => Some(Half::First),
        [b'\\', b'u', b'd' | b'D', b'c'..=b'f' | b'C'..=b'F', ..] => Some(Half::Second),
        _ => None,
    }
}

/// The end of `\u` and four hexadecimal digits.
fn code_end(text: &[u8], at: usize) -> Result<usize, Stop>
    ensures { IfErr result (Stops text.now) }
{
    let start = word_end(text, at, b"\\u")?;
    let end = start.saturating_add(4);
    for place in start..end {
        if !text.get(place).is_some_and(|byte| byte.is_ascii_hexdigit()) {
            return Err(no_json(place));
        }
    }
    Ok(end)
}

fn word_end(text: &[u8], at: usize, word: &[u8]) -> Result<usize, Stop>
    ensures { IfErr result (Stops text.now) }
{
    let mut end = at;
    for byte in word {
        if text.get(end) != Some(byte) {
            return Err(no_json(end));
        }
        end = end.saturating_add(1);
    }
    Ok(end)
}

/// A number that is too large for a float is none where it ends.
fn number_end(text: &[u8], from: usize) -> Result<usize, Stop>
    ensures { IfErr result (Stops text.now) }
{
    let end = number_form_end(text, from)?;
    match float_of(text, from, end) {
        Some(number) if number.is_finite() => Ok(end),
        Some(_) => Err(Stop {
            at: end.saturating_sub(1),
            reason: Reason::TooLarge,
        }),
        None => Err(no_json(end.saturating_sub(1))),
    }
}

/// The float nearest to the number that stands between two places.
fn float_of(text: &[u8], from: usize, end: usize) -> Option<f64>
    ensures { IfSome result (λ number. parse_float binary64 (take (end - from) (drop from text.now)) ≡ Some number) }
{
    let number = text.get(from..end)?;
    str::from_utf8(number).ok()?.parse::<f64>().ok()
}

/// The end of a number by its form.
fn number_form_end(text: &[u8], from: usize) -> Result<usize, Stop>
    ensures err { IfErr result (Stops text.now) }
    ensures digit { IfOk result (EndsInDigit text.now) }
{
    let start = if text.get(from) == Some(&b'-') {
        from.saturating_add(1)
    } else {
        from
    };
    let whole = whole_end(text, start)?;
    let fraction = fraction_end(text, whole)?;
    exponent_end(text, fraction)
}

fn whole_end(text: &[u8], from: usize) -> Result<usize, Stop>
    ensures err { IfErr result (Stops text.now) }
    ensures digit { IfOk result (EndsInDigit text.now) }
{
    match text.get(from) {
        Some(b'0') => Ok(from + 1),
        _ => digits_end(text, from),
    }
}

/// The end of the fraction that begins at a place, or that place where none does.
fn fraction_end(text: &[u8], from: usize) -> Result<usize, Stop>
    requires { EndsInDigit text.now from }
    ensures err { IfErr result (Stops text.now) }
    ensures digit { IfOk result (EndsInDigit text.now) }
{
    match text.get(from) {
        Some(b'.') => digits_end(text, from.saturating_add(1)),
        _ => Ok(from),
    }
}

/// The end of the exponent that begins at a place, or that place where none does.
fn exponent_end(text: &[u8], from: usize) -> Result<usize, Stop>
    requires { EndsInDigit text.now from }
    ensures err { IfErr result (Stops text.now) }
    ensures digit { IfOk result (EndsInDigit text.now) }
{
    if !matches!(text.get(from), Some(b'e' | b'E')) {
        return Ok(from);
    }
    let signed = matches!(text.get(from.saturating_add(1)), Some(b'+' | b'-'));
    digits_end(text, from.saturating_add(if signed { 2 } else { 1 }))
}

fn digits_end(text: &[u8], from: usize) -> Result<usize, Stop>
    ensures err { IfErr result (Stops text.now) }
    ensures digit { IfOk result (EndsInDigit text.now) }
{
    let digits = rest_of(text, from).iter();
    let count = digits.take_while(|byte| byte.is_ascii_digit()).count();
    if count == 0 {
        return Err(no_json(from));
    }
    Ok(from.saturating_add(count))
}

/// A text from a place on.
fn rest_of(text: &[u8], from: usize) -> &[u8]
    ensures { result.now ≡ drop from text.now }
{
    text.get(from..).unwrap_or(&[])
}
