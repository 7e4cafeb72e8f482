//! Writing a number at any bit position of a byte slice (CTF 1.8.3, section 4.1.5).

ghost use Rattle.std.specs.Prelude.{◌≡◌, ◌+◌, ◌*◌, ◌^◌, ◌<◌, ◌≤◌, length};
ghost use Rattle.ctf_types.specs.Bits.{bit_of, number_at, SameOutside};

use crate::in_byte::{put_in_byte, size_in_byte};
use crate::number_parts::take_part;
use crate::word::{put_8, put_16, put_32, put_64};
use ctf_types::ByteOrder;

/// Writes `value` as the `n` bits from the bit position `at` on; every other bit stays.
///
/// Position and size are in bits, from 1 to 64 of them. The first bit is the least significant one of `value` in
/// little-endian order, and the most significant one in big-endian order. A signed number is passed as its two's
/// complement in `n` bits.
#[inline(always)]
pub fn put_bits(bytes: &mut [u8], at: u64, n: u8, order: ByteOrder, value: u64)
    requires some { 0 < n }
    requires at_most_64 { n ≤ 64 }
    requires position { at + n < 2 ^ 64 }
    requires within { at + n ≤ 8 * length bytes.old }
    requires fits { value < 2 ^ n }
    ensures number { number_at order (bit_of order bytes.new) at n ≡ value }
    ensures others { SameOutside (bit_of order bytes.new) (bit_of order bytes.old) at (at + n) }
{
    match order {
        ByteOrder::Little => put_in_order(bytes, at, n, ByteOrder::Little, value),
        ByteOrder::Big => put_in_order(bytes, at, n, ByteOrder::Big, value),
    }
}

/// `put_bits` where the order is known when it is compiled, so that a word is one store.
#[inline(always)]
fn put_in_order(bytes: &mut [u8], at: u64, n: u8, order: ByteOrder, value: u64)
    requires some { 0 < n }
    requires at_most_64 { n ≤ 64 }
    requires position { at + n < 2 ^ 64 }
    requires within { at + n ≤ 8 * length bytes.old }
    requires fits { value < 2 ^ n }
    ensures number { number_at order (bit_of order bytes.new) at n ≡ value }
    ensures others { SameOutside (bit_of order bytes.new) (bit_of order bytes.old) at (at + n) }
{
    let index = (at / 8) as usize;
    match (at % 8, n) {
        (0, 8) => put_8(bytes, index, order, value),
        (0, 16) => put_16(bytes, index, order, value),
        (0, 32) => put_32(bytes, index, order, value),
        (0, 64) => put_64(bytes, index, order, value),
        (skipped, _) if skipped + u64::from(n) <= 8 => {
            put_in_byte(bytes, at, u32::from(n), order, value);
        }
        _ => put_by_bytes(bytes, at, u32::from(n), order, value),
    }
}

/// `put_bits`, byte by byte: of each byte the bits that the number has in it.
#[inline(never)]
fn put_by_bytes(bytes: &mut [u8], at: u64, n: u32, order: ByteOrder, value: u64)
    requires at_most_64 { n ≤ 64 }
    requires position { at + n < 2 ^ 64 }
    requires within { at + n ≤ 8 * length bytes.old }
    requires fits { value < 2 ^ n }
    ensures number { number_at order (bit_of order bytes.new) at n ≡ value }
    ensures others { SameOutside (bit_of order bytes.new) (bit_of order bytes.old) at (at + n) }
{
    let mut done = 0;
    while done < n {
        let place = at + u64::from(done);
        let size = size_in_byte(place, n - done);
        let part = take_part(value, n, done, size, order);
        put_in_byte(bytes, place, size, order, part);
        done += size;
    }
}
