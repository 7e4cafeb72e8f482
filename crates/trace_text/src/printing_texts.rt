//! Strings, names and labels.

ghost use Rattle.std.specs.Prelude.{◌≡◌, ◌<◌, ◌≤◌, false, length, take, drop};
ghost use Rattle.std.specs.Fmt.{digit_glyph};
ghost use Rattle.std.specs.List.{flat_map, position, position_or_len};
ghost use Rattle.trace_text.specs.PrintedPages.{Says};
ghost use Rattle.trace_text.specs.PrintedTexts.{hexadecimal_escape, string_byte, name_byte, text_byte, is_escaped, string_text, name_text};

use crate::printing_page::{Page, say, say_bytes};
use ctf_types::Text;
use std::io::Write;

/// Strings stand in quotes, names and labels do not.
#[derive(Clone, Copy)]
pub(crate) enum TextForm {
    Quoted,
    Bare,
}

/// A string in quotes, with escapes.
pub(crate) fn say_string<W: Write>(writer: &mut W, page: &mut Page, bytes: &[u8])
    ensures { Says (W.contents writer.old) page.old (W.contents writer.new) page.new (string_text bytes.now) }
{
    say(writer, page, "\"");
    say_text(writer, page, TextForm::Quoted, bytes);
    say(writer, page, "\"");
}

/// A name or a label, without quotes.
pub(crate) fn say_name<W: Write>(writer: &mut W, page: &mut Page, name: &Text)
    ensures { Says (W.contents writer.old) page.old (W.contents writer.new) page.new (name_text name.now) }
{
    say_text(writer, page, TextForm::Bare, name.as_bytes());
}

/// The bytes of a text. Those up to an escape are said at once.
fn say_text<W: Write>(writer: &mut W, page: &mut Page, form: TextForm, bytes: &[u8])
    ensures { Says (W.contents writer.old) page.old (W.contents writer.new) page.new (flat_map (text_byte form) bytes.now) }
{
    let mut rest = bytes;
    while !rest.is_empty() {
        let (plain, others) = rest.split_at(plain_len(form, rest));
        say_bytes(writer, page, plain);
        rest = say_first(writer, page, form, others);
    }
}

/// How many bytes stand before the first that has an escape.
fn plain_len(form: TextForm, bytes: &[u8]) -> usize
    ensures plain { result ≡ position_or_len (is_escaped form) bytes.now }
    ensures within { result ≤ length bytes.now }
{
    first_escape(form, bytes).unwrap_or(bytes.len())
}

fn first_escape(form: TextForm, bytes: &[u8]) -> Option<usize>
    ensures { result ≡ position (is_escaped form) bytes.now }
{
    bytes.iter().position(|b| is_escaped(form, *b))
}

/// Says the first byte, where there is one, and answers those behind it.
fn say_first<'a, W: Write>(
    writer: &mut W,
    page: &mut Page,
    form: TextForm,
    bytes: &'a [u8],
) -> &'a [u8]
    ensures says { Says (W.contents writer.old) page.old (W.contents writer.new) page.new (flat_map (text_byte form) (take 1 bytes.now)) }
    ensures behind { result.now ≡ drop 1 bytes.now }
{
    match bytes {
        [] => bytes,
        [first, others @ ..] => {
            say_byte(writer, page, form, *first);
            others
        }
    }
}

/// Whether a byte stands as an escape.
fn is_escaped(form: TextForm, b: u8) -> bool
    ensures { result ≡ is_escaped form b }
{
    match form {
        TextForm::Quoted => b < 0x20 || b > 0x7e || b == b'\\' || b == b'"',
        TextForm::Bare => b < 0x20 || b == 0x7f,
    }
}

fn say_byte<W: Write>(writer: &mut W, page: &mut Page, form: TextForm, b: u8)
    ensures { Says (W.contents writer.old) page.old (W.contents writer.new) page.new (text_byte form b) }
{
    match form {
        TextForm::Quoted => say_string_byte(writer, page, b),
        TextForm::Bare => say_name_byte(writer, page, b),
    }
}

#[tactic(auto, unfolding(crate::specs::PrintedTexts::string_byte))]
fn say_string_byte<W: Write>(writer: &mut W, page: &mut Page, b: u8)
    ensures { Says (W.contents writer.old) page.old (W.contents writer.new) page.new (string_byte b) }
{
    match b {
        b'\\' => say(writer, page, "\\\\"),
        b'"' => say(writer, page, "\\\""),
        b'\n' => say(writer, page, "\\n"),
        b'\t' => say(writer, page, "\\t"),
        _ => {
            if b < 0x20 || b > 0x7e {
                say_escape(writer, page, b);
            } else {
                say_bytes(writer, page, &[b]);
            }
        }
    }
}

#[tactic(auto, unfolding(crate::specs::PrintedTexts::name_byte))]
fn say_name_byte<W: Write>(writer: &mut W, page: &mut Page, b: u8)
    ensures { Says (W.contents writer.old) page.old (W.contents writer.new) page.new (name_byte b) }
{
    if b < 0x20 || b == 0x7f {
        say_string_byte(writer, page, b);
    } else {
        say_bytes(writer, page, &[b]);
    }
}

/// `\x` and two digits.
fn say_escape<W: Write>(writer: &mut W, page: &mut Page, b: u8)
    ensures { Says (W.contents writer.old) page.old (W.contents writer.new) page.new (hexadecimal_escape b) }
{
    say(writer, page, "\\x");
    say_bytes(writer, page, &[digit(b / 16), digit(b % 16)]);
}

/// A hexadecimal digit, in lower case.
fn digit(value: u8) -> u8
    requires { value < 16 }
    ensures { result ≡ digit_glyph false value }
{
    if value < 10 {
        b'0' + value
    } else {
        b'a' + (value - 10)
    }
}
