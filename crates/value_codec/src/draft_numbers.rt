//! Drafts of numbers: an integer's value is judged, and written where it has room (CTF 1.8.3, section 4.1.5).

ghost use Rattle.std.specs.Prelude.{◌≡◌, ◌+◌, ◌*◌, ◌^◌, ◌<◌, ◌≤◌, IfSome, IsTrue};
ghost use Rattle.ctf_types.specs.Alignment.{up, IsAlignment};
ghost use Rattle.ctf_types.specs.Bits.{number_at};
ghost use Rattle.ctf_types.specs.Fitting.{IntFits, InSignedRange};
ghost use Rattle.ctf_types.specs.Layout.{value_of, IntLies};
ghost use Rattle.ctf_types.specs.Values.{datum_of};
ghost use Rattle.value_codec.specs.Drafting.{Drafts, IsWithin};

use crate::write_numbers::write_aligned;
use crate::write_padding::aligned;
use crate::write_values::twos_complement;
use ctf_types::{ByteOrder, IntType, Value, is_below};

/// Writes the number of an integer or an enumeration, where it fits and has room, and answers its end. Positions are in bits.
pub(crate) fn draft_int(
    bytes: &mut [u8],
    at: u64,
    order: ByteOrder,
    int: &IntType,
    value: &Value,
) -> Option<u64>
    requires within { IsWithin bytes.old at }
    ensures { Drafts order (IntFits int.now.signed int.now.size (datum_of value.now)) (up at int.now.align + int.now.size)
        (λ b pad. IntLies order b pad int.now at (datum_of value.now)) at result bytes.old bytes.new }
{
    match fitting_number(int, value) {
        None => None,
        Some(number) => draft_aligned(bytes, at, order, int.align(), int.size(), number),
    }
}

/// Writes a number of `size` bits, 1 to 64, at the next multiple of `align`, where it has room, and answers its end.
pub(crate) fn draft_aligned(
    bytes: &mut [u8],
    at: u64,
    order: ByteOrder,
    align: u32,
    size: u8,
    number: u64,
) -> Option<u64>
    requires align { IsAlignment align }
    requires some { 0 < size }
    requires at_most_64 { size ≤ 64 }
    requires fits { number < 2 ^ size }
    requires within { IsWithin bytes.old at }
    ensures { Drafts order (number < 2 ^ size) (up at align + size)
        (λ b pad. pad at (up at align) × (number_at order b (up at align) size ≡ number)) at result bytes.old bytes.new }
{
    let end = aligned(at, align) + u64::from(size);
    if end > 8 * bytes.len() as u64 {
        return None;
    }
    Some(write_aligned(bytes, at, order, align, size, number))
}

/// The number that the bits of an integer's value are, where the value fits.
fn fitting_number(int: &IntType, value: &Value) -> Option<u64>
    ensures fits { IfSome result (λ n. IntFits int.now.signed int.now.size (datum_of value.now)) }
    ensures is { IfSome result (λ n. datum_of value.now ≡ value_of int.now.signed int.now.size n) }
    ensures below { IfSome result (λ n. n < 2 ^ int.now.size) }
{
    match value {
        Value::Unsigned(number) => {
            if int.is_signed() || !is_below(*number, int.size()) {
                None
            } else {
                Some(*number)
            }
        }
        Value::Signed(number) => {
            if int.is_signed() && is_in_range(*number, int.size()) {
                Some(twos_complement(*number, int.size()))
            } else {
                None
            }
        }
        Value::Text(_) | Value::List(_) => None,
    }
}

/// Whether a signed integer of so many bits holds the number.
fn is_in_range(number: i64, size: u8) -> bool
    requires { 0 < size }
    ensures { IsTrue result → InSignedRange size number }
{
    if number < 0 {
        is_below((-(number + 1)) as u64, size - 1)
    } else {
        is_below(number as u64, size - 1)
    }
}
