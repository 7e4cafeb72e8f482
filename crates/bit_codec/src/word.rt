//! Numbers of 8, 16, 32 and 64 bits at a whole byte (CTF 1.8.3, section 4.1.5): a byte, or two halves one after the other.

ghost use Rattle.std.specs.Prelude.{◌≡◌, ◌+◌, ◌*◌, ◌^◌, ◌<◌, ◌≤◌, length};
ghost use Rattle.ctf_types.specs.Bits.{bit_of, number_at, SameOutside};

use crate::number_parts::{join, take_part};
use ctf_types::ByteOrder;

/// Writes a number of 8 bits as the byte at `index`.
#[inline(always)]
pub(crate) fn put_8(bytes: &mut [u8], index: usize, order: ByteOrder, value: u64)
    requires within { index + 1 ≤ length bytes.old }
    requires fits { value < 2 ^ 8 }
    ensures number { number_at order (bit_of order bytes.new) (8 * index) 8 ≡ value }
    ensures others { SameOutside (bit_of order bytes.new) (bit_of order bytes.old) (8 * index) (8 * index + 8) }
{
    bytes[index] = value as u8;
}

/// Writes a number of 16 bits from the byte at `index` on.
#[inline(always)]
pub(crate) fn put_16(bytes: &mut [u8], index: usize, order: ByteOrder, value: u64)
    requires within { index + 2 ≤ length bytes.old }
    requires fits { value < 2 ^ 16 }
    ensures number { number_at order (bit_of order bytes.new) (8 * index) 16 ≡ value }
    ensures others { SameOutside (bit_of order bytes.new) (bit_of order bytes.old) (8 * index) (8 * index + 16) }
{
    put_8(bytes, index, order, take_part(value, 16, 0, 8, order));
    put_8(bytes, index + 1, order, take_part(value, 16, 8, 8, order));
}

/// Writes a number of 32 bits from the byte at `index` on.
#[inline(always)]
pub(crate) fn put_32(bytes: &mut [u8], index: usize, order: ByteOrder, value: u64)
    requires within { index + 4 ≤ length bytes.old }
    requires fits { value < 2 ^ 32 }
    ensures number { number_at order (bit_of order bytes.new) (8 * index) 32 ≡ value }
    ensures others { SameOutside (bit_of order bytes.new) (bit_of order bytes.old) (8 * index) (8 * index + 32) }
{
    put_16(bytes, index, order, take_part(value, 32, 0, 16, order));
    put_16(bytes, index + 2, order, take_part(value, 32, 16, 16, order));
}

/// Writes a number of 64 bits from the byte at `index` on.
#[inline(always)]
pub(crate) fn put_64(bytes: &mut [u8], index: usize, order: ByteOrder, value: u64)
    requires within { index + 8 ≤ length bytes.old }
    requires fits { value < 2 ^ 64 }
    ensures number { number_at order (bit_of order bytes.new) (8 * index) 64 ≡ value }
    ensures others { SameOutside (bit_of order bytes.new) (bit_of order bytes.old) (8 * index) (8 * index + 64) }
{
    put_32(bytes, index, order, take_part(value, 64, 0, 32, order));
    put_32(bytes, index + 4, order, take_part(value, 64, 32, 32, order));
}

/// Reads the number of 8 bits that the byte at `index` is.
#[inline(always)]
pub(crate) fn get_8(bytes: &[u8], index: usize, order: ByteOrder) -> u64
    requires { index + 1 ≤ length bytes.now }
    ensures number { result ≡ number_at order (bit_of order bytes.now) (8 * index) 8 }
    ensures below { result < 2 ^ 8 }
{
    u64::from(bytes[index])
}

/// Reads the number of 16 bits from the byte at `index` on.
#[inline(always)]
pub(crate) fn get_16(bytes: &[u8], index: usize, order: ByteOrder) -> u64
    requires { index + 2 ≤ length bytes.now }
    ensures number { result ≡ number_at order (bit_of order bytes.now) (8 * index) 16 }
    ensures below { result < 2 ^ 16 }
{
    let front = get_8(bytes, index, order);
    join(front, 8, get_8(bytes, index + 1, order), 8, order)
}

/// Reads the number of 32 bits from the byte at `index` on.
#[inline(always)]
pub(crate) fn get_32(bytes: &[u8], index: usize, order: ByteOrder) -> u64
    requires { index + 4 ≤ length bytes.now }
    ensures number { result ≡ number_at order (bit_of order bytes.now) (8 * index) 32 }
    ensures below { result < 2 ^ 32 }
{
    let front = get_16(bytes, index, order);
    join(front, 16, get_16(bytes, index + 2, order), 16, order)
}

/// Reads the number of 64 bits from the byte at `index` on.
#[inline(always)]
pub(crate) fn get_64(bytes: &[u8], index: usize, order: ByteOrder) -> u64
    requires { index + 8 ≤ length bytes.now }
    ensures number { result ≡ number_at order (bit_of order bytes.now) (8 * index) 64 }
    ensures below { result < 2 ^ 64 }
{
    let front = get_32(bytes, index, order);
    join(front, 32, get_32(bytes, index + 4, order), 32, order)
}
