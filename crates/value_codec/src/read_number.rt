//! Reading numbers: integers, enumerations and the lengths of arrays (CTF 1.8.3, sections 4.1.5 and 4.1.8).

ghost use Rattle.std.specs.Prelude.{◌≡◌, ◌*◌, ◌^◌, ◌<◌, ◌≤◌, length, IfOk};
ghost use Rattle.ctf_types.specs.Alignment.{IsAlignment};
ghost use Rattle.ctf_types.specs.Bits.{bit_of, signed_of};
ghost use Rattle.ctf_types.specs.Layout.{value_of};
ghost use Rattle.ctf_types.specs.Values.{datum_of};
ghost use Rattle.value_codec.specs.Reading.{bits_at, int_at, datum_read, Gives};

use crate::ReadFault;
use crate::read_start::aligned_start;
use bit_codec::get_bits;
use ctf_types::{ByteOrder, IntType, Value};

/// The number that `size` bits of this alignment are, and the position where they end. All are in bits.
#[inline]
pub(crate) fn read_bits(
    bytes: &[u8],
    at: u64,
    limit: u64,
    order: ByteOrder,
    align: u32,
    size: u8,
) -> Result<(u64, u64), ReadFault>
    requires align { IsAlignment align }
    requires some { 0 < size }
    requires at_most_64 { size ≤ 64 }
    requires ordered { at ≤ limit }
    requires inside { limit ≤ 8 * length bytes.now }
    ensures number { result ≡ bits_at order (bit_of order bytes.now) limit align size at }
    ensures below { IfOk result (λ read. read.0 < 2 ^ size) }
    ensures within { IfOk result (λ read. read.1 ≤ limit) }
{
    let start = aligned_start(at, limit, align)?;
    if u64::from(size) > limit - start {
        return Err(ReadFault::PastEnd);
    }
    Ok((get_bits(bytes, start, size, order), start + u64::from(size)))
}

/// The value of an integer field, and the position where it ends.
#[inline]
pub(crate) fn read_int(
    bytes: &[u8],
    at: u64,
    limit: u64,
    order: ByteOrder,
    int: &IntType,
) -> Result<(Value, u64), ReadFault>
    requires ordered { at ≤ limit }
    requires inside { limit ≤ 8 * length bytes.now }
    ensures value { Gives datum_read result (int_at order (bit_of order bytes.now) limit int.now at) }
    ensures within { IfOk result (λ read. read.1 ≤ limit) }
{
    let (number, end) = read_bits(bytes, at, limit, order, int.align(), int.size())?;
    Ok((int_value(number, int), end))
}

/// The value of an integer field whose bits are `number`.
fn int_value(number: u64, int: &IntType) -> Value
    requires { number < 2 ^ int.now.size }
    ensures { datum_of result ≡ value_of int.now.signed int.now.size number }
{
    if int.is_signed() {
        Value::Signed(signed_number(number, int.size()))
    } else {
        Value::Unsigned(number)
    }
}

/// The signed number whose two's complement in `size` bits is `number`.
fn signed_number(number: u64, size: u8) -> i64
    requires some { 0 < size }
    requires at_most_64 { size ≤ 64 }
    requires below { number < 2 ^ size }
    ensures { result ≡ signed_of size number }
{
    let half = 1u64 << (size - 1);
    if number < half {
        number as i64
    } else {
        -1 - (half - 1 - (number - half)) as i64
    }
}
