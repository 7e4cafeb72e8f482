//! Clearing a span of bits of a byte slice.

ghost use Rattle.std.specs.Prelude.{◌+◌, ◌-◌, ◌*◌, ◌%◌, ◌≤◌, length};
ghost use Rattle.ctf_types.specs.declared.ByteOrder.{ByteOrder};
ghost use Rattle.ctf_types.specs.Bits.{bit_of, AreZero, SameOutside};

use crate::in_byte::put_in_byte;
use ctf_types::ByteOrder;

/// Sets every bit from the bit position `from` up to `to` to 0; the bit at `to` and every other bit stay.
///
/// Positions are in bits. Whole bytes are written as such, so a long span costs about a store a byte.
pub fn zero_bits(bytes: &mut [u8], from: u64, to: u64, order: ByteOrder)
    requires ordered { from ≤ to }
    requires within { to ≤ 8 * length bytes.old }
    ensures zero { AreZero (bit_of order bytes.new) from to }
    ensures others { SameOutside (bit_of order bytes.new) (bit_of order bytes.old) from to }
{
    if from == to {
        return;
    }
    let first_byte = from.div_ceil(8);
    let end_byte = to / 8;
    if first_byte <= end_byte {
        zero_in_byte(bytes, from, 8 * first_byte, order);
        zero_bytes(bytes, first_byte, end_byte);
        zero_in_byte(bytes, 8 * end_byte, to, order);
    } else {
        zero_in_byte(bytes, from, to, order);
    }
}

/// `zero_bits` of a span that lies in one byte.
fn zero_in_byte(bytes: &mut [u8], from: u64, to: u64, order: ByteOrder)
    requires ordered { from ≤ to }
    requires in_byte { from % 8 + (to - from) ≤ 8 }
    requires within { to ≤ 8 * length bytes.old }
    ensures zero { AreZero (bit_of order bytes.new) from to }
    ensures others { SameOutside (bit_of order bytes.new) (bit_of order bytes.old) from to }
{
    if from < to {
        put_in_byte(bytes, from, (to - from) as u32, order, 0);
    }
}

/// Sets the whole bytes from the index `from` up to `to` to 0.
fn zero_bytes(bytes: &mut [u8], from: u64, to: u64)
    requires ordered { from ≤ to }
    requires within { to ≤ length bytes.old }
    ensures zero { (o : ByteOrder) → AreZero (bit_of o bytes.new) (8 * from) (8 * to) }
    ensures others { (o : ByteOrder) → SameOutside (bit_of o bytes.new) (bit_of o bytes.old) (8 * from) (8 * to) }
{
    for index in from as usize..to as usize {
        bytes[index] = 0;
    }
}
