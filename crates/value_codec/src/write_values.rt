//! The parts of a value as they are written.

ghost use Rattle.std.specs.Prelude.{◌≡◌, ◌^◌, ◌<◌, ◌≤◌};
ghost use Rattle.ctf_types.specs.Bits.{signed_of};
ghost use Rattle.ctf_types.specs.Fitting.{IntFits, InSignedRange};
ghost use Rattle.ctf_types.specs.Layout.{text_in, elements_in, value_of};
ghost use Rattle.ctf_types.specs.Values.{datum_of, data_of};

use ctf_types::{IntType, Value};

/// The number that the bits of an integer's value are.
pub(crate) fn number_of(int: &IntType, value: &Value) -> u64
    requires { IntFits int.now.signed int.now.size (datum_of value.now) }
    ensures is { datum_of value.now ≡ value_of int.now.signed int.now.size result }
    ensures below { result < 2 ^ int.now.size }
{
    match value {
        Value::Unsigned(number) => *number,
        Value::Signed(number) => twos_complement(*number, int.size()),
        Value::Text(_) | Value::List(_) => unreachable!(),
    }
}

/// The two's complement of a number in `size` bits, 1 to 64.
pub(crate) fn twos_complement(number: i64, size: u8) -> u64
    requires some { 0 < size }
    requires at_most_64 { size ≤ 64 }
    requires in_range { InSignedRange size number }
    ensures is { signed_of size result ≡ number }
    ensures below { result < 2 ^ size }
{
    if number >= 0 {
        number as u64
    } else {
        (u64::MAX >> (64 - size)) - (-1 - number) as u64
    }
}

/// The bytes of a text; of any other value none.
pub(crate) fn text_of(value: &Value) -> &[u8]
    ensures { result.now ≡ text_in (datum_of value.now) }
{
    match value {
        Value::Text(text) => text.as_slice(),
        Value::Unsigned(_) | Value::Signed(_) | Value::List(_) => &[],
    }
}

/// The elements of a list; of any other value none.
pub(crate) fn elements_of(value: &Value) -> &[Value]
    ensures { data_of result.now ≡ elements_in (datum_of value.now) }
{
    match value {
        Value::List(values) => values.as_slice(),
        Value::Unsigned(_) | Value::Signed(_) | Value::Text(_) => &[],
    }
}
