//! The numbers of the input: one a line.

ghost use Rattle.std.specs.Prelude.{◌≡◌, ◌≢◌, ◌∷◌, [], ◌≤◌, ◌<◌, ℕ, true, length, IfOk};
ghost use Rattle.std.specs.Char.{is_ascii_digit};
ghost use Rattle.std.specs.List.{list_all, position};
ghost use Rattle.number_packets.specs.Lines.{number_in, numbers_in, decimal_after, is_newline, lines_of};

use std::alloc::{AllocFailed, Global};
use thiserror::Error;

/// Why lines are not numbers.
#[derive(Debug, Drop, Error)]
pub enum LineFault {
    /// The first line that says no number, counted from 1.
    #[error("bad line {0}")]
    Bad(usize),
    #[error("out of memory")]
    OutOfMemory,
}

impl<T: Drop> From<AllocFailed<T>> for LineFault {
    ghost use Rattle.number_packets.specs.declared.lines.LineFault.TheVariants.{OutOfMemory};

    ghost from_gives = { λ _ e. e ≡ OutOfMemory };

    fn from(_: AllocFailed<T>) -> LineFault {
        LineFault::OutOfMemory
    }
}

/// The numbers that the lines of a text say, one a line, in their order. The last line needs no newline.
pub fn read_numbers(alloc: Global, text: &[u8]) -> Result<Vec<u8>, LineFault>
    ensures numbers { IfOk result (λ found. numbers_in text.now ≡ Ok found.items) }
    ensures first_bad { (n : ℕ) → result ≡ Err (LineFault.Bad n) → numbers_in text.now ≡ Err n }
{
    let mut numbers = Vec::new(alloc);
    let mut place = 1;
    let mut rest = text;
    while !rest.is_empty() {
        let (line, left) = first_line(rest);
        match line_number(line) {
            Some(number) => numbers.push(number)?,
            None => return Err(LineFault::Bad(place)),
        }
        rest = left;
        place += 1;
    }
    Ok(numbers)
}

/// The first line of a text, without its newline, and what follows it.
fn first_line(text: &[u8]) -> (&[u8], &[u8])
    requires { text.now ≢ [] }
    ensures first { lines_of text.now ≡ result.0.now ∷ lines_of result.1.now }
    ensures shorter { length result.1.now < length text.now }
{
    match newline_at(text) {
        Some(end) => (&text[..end], &text[end + 1..]),
        None => (text, &[]),
    }
}

/// Where the first newline stands.
fn newline_at(text: &[u8]) -> Option<usize>
    ensures { result ≡ position is_newline text.now }
{
    text.iter().position(|c| *c == b'\n')
}

/// The number that a line says: one to three digits of ASCII with a value of at most 255. Anything else says none: a sign, a blank, nothing.
fn line_number(line: &[u8]) -> Option<u8>
    ensures { result ≡ number_in line.now }
{
    if line.is_empty() || line.len() > 3 || !are_digits(line) {
        return None;
    }
    u8::try_from(decimal(line)).ok()
}

fn are_digits(line: &[u8]) -> bool
    ensures { result ≡ list_all is_ascii_digit line.now }
{
    line.iter().all(|c| c.is_ascii_digit())
}

fn decimal(line: &[u8]) -> u16
    requires short { length line.now ≤ 3 }
    requires digits { list_all is_ascii_digit line.now ≡ true }
    ensures { result ≡ decimal_after 0 line.now }
{
    let mut number = 0u16;
    for digit in line {
        number = number * 10 + u16::from(*digit - b'0');
    }
    number
}
