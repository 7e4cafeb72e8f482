//! Reading strings (CTF 1.8.3, section 4.2.5).

ghost use Rattle.std.specs.Prelude.{◌≡◌, ◌==◌, ◌*◌, ◌≤◌, [], length, position, IfOk};
ghost use Rattle.std.specs.Bool.{OnTrue};
ghost use Rattle.ctf_types.specs.Bits.{bit_of};
ghost use Rattle.ctf_types.specs.Chain.{ByteString};
ghost use Rattle.ctf_types.specs.Datum.{Text};
ghost use Rattle.ctf_types.specs.Values.{datum_of};
ghost use Rattle.value_codec.specs.Reading.{field_at, text_at, Gives};

use crate::ReadFault;
use crate::read_start::aligned_start;
use ctf_types::{ByteOrder, Bytes, Value};
use std::alloc::Global;

/// How many bytes a text may have whose memory is kept for the next one. A longer one gives its memory back: else a place that a file filled with
/// a long text once would hold its memory under every short text that comes after.
const LONGEST_KEPT: usize = 64;

/// The bytes of a string without its zero byte, and the position after that byte, in bits.
pub(crate) fn read_text(
    alloc: Global,
    bytes: &[u8],
    at: u64,
    limit: u64,
    order: ByteOrder,
) -> Result<(Bytes, u64), ReadFault>
    requires ordered { at ≤ limit }
    requires inside { limit ≤ 8 * length bytes.now }
    ensures text { Gives (λ read. read) result (text_at order (bit_of order bytes.now) limit at) }
    ensures within { IfOk result (λ read. read.1 ≤ limit) }
{
    let (text, end) = find_text(bytes, at, limit, order)?;
    Ok((Bytes::from_slice(alloc, text)?, end))
}

/// Reads a string in the place of a value, and answers the position after its zero byte, in bits.
/// It takes memory where the value is no text of at most `LONGEST_KEPT` bytes, or has no room.
pub(crate) fn reread_text(
    alloc: Global,
    bytes: &[u8],
    at: u64,
    limit: u64,
    order: ByteOrder,
    held: &mut Value,
) -> Result<u64, ReadFault>
    requires ordered { at ≤ limit }
    requires inside { limit ≤ 8 * length bytes.now }
    ensures value { Gives (λ end. (datum_of held.new, end)) result (field_at order (bit_of order bytes.now) limit ByteString [] at) }
    ensures within { IfOk result (λ end. end ≤ limit) }
{
    let (text, end) = find_text(bytes, at, limit, order)?;
    if !is_refilled(held, text) {
        *held = Value::Text(Bytes::from_slice(alloc, text)?);
    }
    Ok(end)
}

/// Puts these bytes in the place of a text that is kept and has room, and answers whether it did.
fn is_refilled(held: &mut Value, text: &[u8]) -> bool
    ensures { OnTrue result (datum_of held.new ≡ Text text.now) }
{
    match held {
        Value::Text(kept) => {
            if kept.len() > LONGEST_KEPT {
                return false;
            }
            kept.refill(text)
        }
        Value::Unsigned(_) | Value::Signed(_) | Value::List(_) => false,
    }
}

/// Where the bytes of a string stand without its zero byte, and the position after that byte, in bits.
/// The bytes of a string are whole bytes of the packet in both orders: they are found at once.
fn find_text(bytes: &[u8], at: u64, limit: u64, order: ByteOrder) -> Result<(&[u8], u64), ReadFault>
    requires ordered { at ≤ limit }
    requires inside { limit ≤ 8 * length bytes.now }
    ensures text { Gives (λ read. (read.0.now, read.1)) result (text_at order (bit_of order bytes.now) limit at) }
    ensures within { IfOk result (λ read. read.1 ≤ limit) }
{
    let start = aligned_start(at, limit, 8)?;
    if start == limit {
        return Err(ReadFault::PastEnd);
    }
    let rest = &bytes[(start / 8) as usize..(limit / 8) as usize];
    let Some(len) = text_len(rest) else {
        return Err(ReadFault::NoTerminator);
    };
    Ok((&rest[..len], start + 8 * (len as u64 + 1)))
}

/// How many bytes stand before the first zero byte.
fn text_len(bytes: &[u8]) -> Option<usize>
    ensures { result ≡ position (λ c. c == 0) bytes.now }
{
    bytes.iter().position(|byte| *byte == 0)
}
