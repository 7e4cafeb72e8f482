//! The longest piece at the front of a text: a blank, a comment or a token.

ghost use Rattle.std.specs.Prelude.{◌≡◌, ◌<◌, ◌≤◌, ◌+◌, true, false, length, option_map, IfSome, MatchOption};
ghost use Rattle.std.specs.{Char.{is_ascii_digit, is_ascii_hexdigit}, List.prefix_len, Str.is_utf8};
ghost use Rattle.tsdl_grammar.specs.Bytes.{is_name_byte, is_octal_digit, is_suffix, not_newline};
ghost use Rattle.tsdl_grammar.specs.Pieces.{piece_at, mark_at, mark_cut, close_len, content_len, number_len, digits_len};

use crate::escapes::escaped_byte;
use crate::token::{Mark, TokenKind};

/// A blank or a comment, which stands between tokens, or a token.
#[derive(Clone, Copy, Debug, PartialEq, Eq)]
pub enum Piece {
    Blank,
    Comment,
    Token(TokenKind),
}

/// A piece at the front of a text, and its length in bytes.
#[derive(Clone, Copy, Debug, PartialEq, Eq)]
pub struct Cut {
    pub piece: Piece,
    pub len: usize,
}

/// The longest piece at the front of the bytes, if one begins there.
#[tactic(auto, using(crate::proofs::Runs::runs_within), unfolding(crate::specs::Pieces::piece_at, crate::specs::Pieces::text_at, crate::specs::Pieces::comment_at))]
pub(crate) fn piece_at(bytes: &[u8]) -> Option<Cut>
    ensures value { result ≡ piece_at bytes.now }
    ensures within { IfSome result (λ c. (0 < c.len) × (c.len ≤ length bytes.now)) }
{
    let (b, after) = bytes.split_first()?;
    let (piece, len) = match *b {
        b' ' | 9..=13 => (Piece::Blank, 1),
        b'a'..=b'z' | b'A'..=b'Z' | b'_' => {
            (Piece::Token(TokenKind::Identifier), 1 + name_len(after))
        }
        b'0'..=b'9' => (Piece::Token(TokenKind::Number), number_len(bytes)),
        b'"' => {
            let len = content_len(after)?;
            text_in(&after[..len])?;
            (Piece::Token(TokenKind::Text), 2 + len)
        }
        b'/' => match after {
            [b'/', line @ ..] => (Piece::Comment, 2 + line_len(line)),
            [b'*', inner @ ..] => (Piece::Comment, 2 + close_len(inner)?),
            _ => return None,
        },
        _ => {
            let (mark, len) = mark_at(*b, after)?;
            (Piece::Token(TokenKind::Mark(mark)), len)
        }
    };
    Some(Cut { piece, len })
}

/// How many name bytes stand at the front.
fn name_len(bytes: &[u8]) -> usize
    ensures { result ≡ prefix_len is_name_byte bytes.now }
{
    bytes
        .iter()
        .take_while(|b| b.is_ascii_alphanumeric() || **b == b'_')
        .count()
}

fn decimal_len(bytes: &[u8]) -> usize
    ensures { result ≡ prefix_len is_ascii_digit bytes.now }
{
    bytes.iter().take_while(|b| b.is_ascii_digit()).count()
}

fn hexadecimal_len(bytes: &[u8]) -> usize
    ensures { result ≡ prefix_len is_ascii_hexdigit bytes.now }
{
    bytes.iter().take_while(|b| b.is_ascii_hexdigit()).count()
}

fn octal_len(bytes: &[u8]) -> usize
    ensures { result ≡ prefix_len is_octal_digit bytes.now }
{
    bytes
        .iter()
        .take_while(|b| b'0' <= **b && **b <= b'7')
        .count()
}

fn suffix_len(bytes: &[u8]) -> usize
    ensures { result ≡ prefix_len is_suffix bytes.now }
{
    bytes
        .iter()
        .take_while(|b| **b == b'u' || **b == b'U' || **b == b'l' || **b == b'L')
        .count()
}

fn line_len(bytes: &[u8]) -> usize
    ensures { result ≡ prefix_len not_newline bytes.now }
{
    bytes.iter().take_while(|b| **b != b'\n').count()
}

/// Bytes as a text, None where they are no UTF-8.
pub(crate) fn text_in(bytes: &[u8]) -> Option<&str>
    ensures { MatchOption result (is_utf8 bytes.now ≡ false) (λ t. (t.now ≡ bytes.now) × (is_utf8 bytes.now ≡ true)) }
{
    std::str::from_utf8(bytes).ok()
}

/// How many bytes of a string stand before its closing quote.
fn content_len(bytes: &[u8]) -> Option<usize>
    ensures value { result ≡ content_len false bytes.now }
    ensures within { IfSome result (λ n. n < length bytes.now) }
{
    let mut len = 0;
    let mut after_backslash = false;
    for b in bytes {
        if after_backslash {
            escaped_byte(*b)?;
            after_backslash = false;
        } else if *b == b'"' {
            return Some(len);
        } else if *b == b'\n' {
            return None;
        } else {
            after_backslash = *b == b'\\';
        }
        len += 1;
    }
    None
}

/// The bytes up to and with the first `*/`.
fn close_len(bytes: &[u8]) -> Option<usize>
    ensures value { result ≡ close_len bytes.now }
    ensures within { IfSome result (λ n. n ≤ length bytes.now) }
{
    let mut passed = 0;
    let mut rest = bytes;
    while let [b, after @ ..] = rest {
        if *b == b'*' && after.first() == Some(&b'/') {
            return Some(passed + 2);
        }
        passed += 1;
        rest = after;
    }
    None
}

/// The bytes of a number literal with its suffix.
#[tactic(auto, using(crate::proofs::Runs::runs_within), unfolding(crate::specs::Pieces::number_len))]
fn number_len(bytes: &[u8]) -> usize
    ensures value { result ≡ number_len bytes.now }
    ensures some { 0 < length bytes.now → 0 < result }
    ensures within { result ≤ length bytes.now }
{
    let digits = digits_len(bytes);
    digits + suffix_len(&bytes[digits..]).min(3)
}

/// The prefix and the digits of a number literal.
#[tactic(auto, using(crate::proofs::Runs::runs_within))]
fn digits_len(bytes: &[u8]) -> usize
    ensures value { result ≡ digits_len bytes.now }
    ensures some { 0 < length bytes.now → 0 < result }
    ensures within { result ≤ length bytes.now }
{
    match bytes {
        [] => 0,
        [b'0', b'x', h, after @ ..] if h.is_ascii_hexdigit() => 3 + hexadecimal_len(after),
        [b'0', after @ ..] => 1 + octal_len(after),
        [_, after @ ..] => 1 + decimal_len(after),
    }
}

/// The mark that begins with a byte, of which more may follow, and its length.
#[tactic(auto, unfolding(crate::specs::Pieces::mark_at))]
fn mark_at(b: u8, after: &[u8]) -> Option<(Mark, usize)>
    ensures value { option_map (λ m. mark_cut m.0 m.1) result ≡ mark_at b after.now }
    ensures within { IfSome result (λ m. (0 < m.1) × (m.1 ≤ 1 + length after.now)) }
{
    Some(match (b, after) {
        (b':', [b'=', ..]) => (Mark::Assign, 2),
        (b'.', [b'.', b'.', ..]) => (Mark::Ellipsis, 3),
        (b'{', _) => (Mark::OpenBrace, 1),
        (b'}', _) => (Mark::CloseBrace, 1),
        (b'[', _) => (Mark::OpenBracket, 1),
        (b']', _) => (Mark::CloseBracket, 1),
        (b'(', _) => (Mark::OpenParenthesis, 1),
        (b')', _) => (Mark::CloseParenthesis, 1),
        (b';', _) => (Mark::Semicolon, 1),
        (b',', _) => (Mark::Comma, 1),
        (b':', _) => (Mark::Colon, 1),
        (b'=', _) => (Mark::Equals, 1),
        (b'-', _) => (Mark::Minus, 1),
        (b'+', _) => (Mark::Plus, 1),
        (b'.', _) => (Mark::Dot, 1),
        _ => return None,
    })
}
