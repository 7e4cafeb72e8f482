//! Texts that others wrote, on one line.

ghost use Rattle.std.specs.Fmt.{WritesOnOk};
ghost use Rattle.std.specs.Prelude.{◌≡◌, ◌<◌, encode_utf8};
ghost use Rattle.std.specs.Char.{digit_char};
ghost use Rattle.std.specs.List.{flat_map};
ghost use Rattle.conf_tree.specs.OneLine.{escaped_byte, shown, shown_character, steers as is_steering};

use std::fmt;

/// A text that others wrote, printed on one line: newline and tab by what stands for them in C, and by their bytes in UTF-8, as `\x1b` or
/// `\xe2\x80\xae`, the other control characters, the marks that turn the direction of a line, and those that end one.
#[derive(Clone, Copy, Debug)]
pub struct OneLine<'t>(pub &'t str);

impl fmt::Display for OneLine<'_> {
    ghost use Rattle.std.specs.Prelude.{Some};
    ghost use Rattle.conf_tree.specs.OneLine.{shown};

    ghost output = { λ line. Some (shown line.0.now) };

    fn fmt<W: fmt::Write>(&self, f: &mut fmt::Formatter<W>) -> fmt::Result {
        write_shown(self.0, f)
    }
}

fn write_shown<W: fmt::Write>(text: &str, f: &mut fmt::Formatter<W>) -> fmt::Result
    ensures { WritesOnOk W.write_str_gives f.old result (shown text.now) f.new }
{
    for character in text.chars() {
        write_character(character, f)?;
    }
    Ok(())
}

fn write_character<W: fmt::Write>(character: char, f: &mut fmt::Formatter<W>) -> fmt::Result
    ensures { WritesOnOk W.write_str_gives f.old result (shown_character character) f.new }
{
    if character == '\n' {
        return f.write_str("\\n");
    }
    if character == '\t' {
        return f.write_str("\\t");
    }
    if steers(character) {
        return write_escaped(character, f);
    }
    f.write_char(character)
}

/// Whether a character is not seen, but tells a terminal or a reader's program how to show others.
fn steers(character: char) -> bool
    ensures { result ≡ is_steering character }
{
    character.is_control()
        || matches!(
            character,
            '\u{61c}' | '\u{200e}' | '\u{200f}' | '\u{2028}'..='\u{202e}' | '\u{2066}'..='\u{2069}'
        )
}

/// Writes the bytes of a character in UTF-8, each by two hexadecimal digits.
fn write_escaped<W: fmt::Write>(character: char, f: &mut fmt::Formatter<W>) -> fmt::Result
    ensures { WritesOnOk W.write_str_gives f.old result (flat_map escaped_byte (encode_utf8 character)) f.new }
{
    let mut bytes = [0u8; 4];
    for byte in character.encode_utf8(&mut bytes).as_bytes() {
        write_byte(*byte, f)?;
    }
    Ok(())
}

fn write_byte<W: fmt::Write>(byte: u8, f: &mut fmt::Formatter<W>) -> fmt::Result
    ensures { WritesOnOk W.write_str_gives f.old result (escaped_byte byte) f.new }
{
    let high = digit(byte / 16);
    let low = digit(byte % 16);
    write!(f, "\\x{high}{low}")
}

/// A hexadecimal digit in lower case.
fn digit(number: u8) -> char
    requires { number < 16 }
    ensures { result ≡ digit_char number }
{
    char::from_digit(u32::from(number), 16).unwrap_or('0')
}
