//! Unsigned numbers at their alignment (CTF 1.8.3, section 4.1.5).

ghost use Rattle.std.specs.Prelude.{◌≡◌, ◌+◌, ◌*◌, ◌^◌, ◌<◌, ◌≤◌, length};
ghost use Rattle.ctf_types.specs.Alignment.{up, IsAlignment};
ghost use Rattle.ctf_types.specs.Bits.{bit_of, number_at, AreZero, SameOutside};
ghost use Rattle.value_codec.specs.Writing.{Writes, HasRoom, NumberLies};

use crate::write_padding::write_padding;
use bit_codec::put_bits;
use ctf_types::{ByteOrder, IntType};

/// Writes a number of the size of an integer type at the next multiple of its alignment, with zero bits before it, and answers its end.
/// Positions are in bits. A signed number is passed as its two's complement.
pub fn write_number(bytes: &mut [u8], at: u64, order: ByteOrder, int: &IntType, number: u64) -> u64
    requires fits { number < 2 ^ int.now.size }
    requires within { up at int.now.align + int.now.size ≤ 8 * length bytes.old }
    requires position { up at int.now.align + int.now.size < 2 ^ 64 }
    ensures ends { result ≡ up at int.now.align + int.now.size }
    ensures lies { NumberLies order (bit_of order bytes.new) (AreZero (bit_of order bytes.new)) int.now at number }
    ensures others { SameOutside (bit_of order bytes.new) (bit_of order bytes.old) at result }
{
    write_aligned(bytes, at, order, int.align(), int.size(), number)
}

/// Writes a number of `size` bits, 1 to 64, at the next multiple of `align`, and answers its end.
pub(crate) fn write_aligned(
    bytes: &mut [u8],
    at: u64,
    order: ByteOrder,
    align: u32,
    size: u8,
    number: u64,
) -> u64
    requires align { IsAlignment align }
    requires some { 0 < size }
    requires at_most_64 { size ≤ 64 }
    requires fits { number < 2 ^ size }
    requires room { HasRoom bytes.old (up at align + size) }
    ensures ends { result ≡ up at align + size }
    ensures writes { Writes order
        (λ b pad. pad at (up at align) × (number_at order b (up at align) size ≡ number))
        at result bytes.old bytes.new }
{
    let start = write_padding(bytes, at, order, align);
    put_bits(bytes, start, size, order, number);
    start + u64::from(size)
}
