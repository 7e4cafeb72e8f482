//! Strings as they stand between quotes, and the bytes that they stand for.

ghost use Rattle.std.specs.Prelude.{◌≡◌, false, IfOk};
ghost use Rattle.tsdl_grammar.specs.Escapes.{escaped_byte, unescaped, escaped};

use std::alloc::{AllocError, Global};

/// The byte that a letter after a backslash stands for, if it is an escape.
pub fn escaped_byte(letter: u8) -> Option<u8>
    ensures { result ≡ escaped_byte letter }
{
    match letter {
        b'\\' | b'"' | b'\'' | b'?' => Some(letter),
        b'a' => Some(7),
        b'b' => Some(8),
        b'f' => Some(12),
        b'n' => Some(b'\n'),
        b'r' => Some(b'\r'),
        b't' => Some(b'\t'),
        b'v' => Some(11),
        _ => None,
    }
}

/// The bytes that a string stands for, from what stands between its quotes.
pub fn unescape(alloc: Global, bytes: &[u8]) -> Result<Vec<u8>, AllocError>
    ensures { IfOk result (λ v. v.items ≡ unescaped bytes.now) }
{
    let mut text = Vec::new(alloc);
    let mut after_backslash = false;
    for b in bytes {
        if after_backslash {
            text.push(escaped_byte(*b).unwrap_or(*b))?;
            after_backslash = false;
        } else if *b == b'\\' {
            after_backslash = true;
        } else {
            text.push(*b)?;
        }
    }
    Ok(text)
}

/// A text as it is written between quotes: a backslash, a quote, a newline and a tab by their escapes.
pub fn escape(alloc: Global, text: &[u8]) -> Result<Vec<u8>, AllocError>
    ensures { IfOk result (λ v. v.items ≡ escaped text.now) }
{
    let mut bytes = Vec::new(alloc);
    for b in text {
        match b {
            b'\\' => bytes.extend_from_slice(b"\\\\")?,
            b'"' => bytes.extend_from_slice(b"\\\"")?,
            b'\n' => bytes.extend_from_slice(b"\\n")?,
            b'\t' => bytes.extend_from_slice(b"\\t")?,
            _ => bytes.push(*b)?,
        }
    }
    Ok(bytes)
}
