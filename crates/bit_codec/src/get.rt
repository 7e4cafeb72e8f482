//! Reading a number at any bit position of a byte slice (CTF 1.8.3, section 4.1.5).

ghost use Rattle.std.specs.Prelude.{◌≡◌, ◌+◌, ◌*◌, ◌^◌, ◌<◌, ◌≤◌, length};
ghost use Rattle.ctf_types.specs.Bits.{bit_of, number_at};

use crate::in_byte::{get_in_byte, size_in_byte};
use crate::number_parts::join;
use crate::word::{get_8, get_16, get_32, get_64};
use ctf_types::ByteOrder;

/// Reads the number that the `n` bits from the bit position `at` on are.
///
/// Position and size are in bits, from 1 to 64 of them. The first bit is the least significant one of the number in
/// little-endian order, and the most significant one in big-endian order. A signed number comes as its two's complement
/// in `n` bits.
pub fn get_bits(bytes: &[u8], at: u64, n: u8, order: ByteOrder) -> u64
    requires some { 0 < n }
    requires at_most_64 { n ≤ 64 }
    requires position { at + n < 2 ^ 64 }
    requires within { at + n ≤ 8 * length bytes.now }
    ensures number { result ≡ number_at order (bit_of order bytes.now) at n }
    ensures below { result < 2 ^ n }
{
    match order {
        ByteOrder::Little => get_in_order(bytes, at, n, ByteOrder::Little),
        ByteOrder::Big => get_in_order(bytes, at, n, ByteOrder::Big),
    }
}

/// `get_bits` where the order is known when it is compiled, so that a word is one load.
#[inline(always)]
fn get_in_order(bytes: &[u8], at: u64, n: u8, order: ByteOrder) -> u64
    requires some { 0 < n }
    requires at_most_64 { n ≤ 64 }
    requires position { at + n < 2 ^ 64 }
    requires within { at + n ≤ 8 * length bytes.now }
    ensures number { result ≡ number_at order (bit_of order bytes.now) at n }
    ensures below { result < 2 ^ n }
{
    let index = (at / 8) as usize;
    match (at % 8, n) {
        (0, 8) => get_8(bytes, index, order),
        (0, 16) => get_16(bytes, index, order),
        (0, 32) => get_32(bytes, index, order),
        (0, 64) => get_64(bytes, index, order),
        (skipped, _) if skipped + u64::from(n) <= 8 => get_in_byte(bytes, at, u32::from(n), order),
        _ => get_by_bytes(bytes, at, u32::from(n), order),
    }
}

/// `get_bits`, byte by byte: of each byte the bits that the number has in it.
#[inline(never)]
fn get_by_bytes(bytes: &[u8], at: u64, n: u32, order: ByteOrder) -> u64
    requires some { 0 < n }
    requires at_most_64 { n ≤ 64 }
    requires position { at + n < 2 ^ 64 }
    requires within { at + n ≤ 8 * length bytes.now }
    ensures number { result ≡ number_at order (bit_of order bytes.now) at n }
    ensures below { result < 2 ^ n }
{
    let mut done = size_in_byte(at, n);
    let mut value = get_in_byte(bytes, at, done, order);
    while done < n {
        let place = at + u64::from(done);
        let size = size_in_byte(place, n - done);
        let part = get_in_byte(bytes, place, size, order);
        value = join(value, done, part, size, order);
        done += size;
    }
    value
}
