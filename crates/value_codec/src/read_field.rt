//! Reading fields of any type (CTF 1.8.3, sections 4.1 and 4.2).

ghost use Rattle.std.specs.Prelude.{◌*◌, ◌≤◌, ◌∷◌, length, IfOk};
ghost use Rattle.ctf_types.specs.Bits.{bit_of};
ghost use Rattle.ctf_types.specs.FieldTypes.{chain_of};
ghost use Rattle.value_codec.specs.Reading.{field_at, many_at, datum_read, Gives};

use crate::ReadFault;
use crate::read_number::read_int;
use crate::read_start::aligned_start;
use crate::read_text::read_text;
use ctf_types::{ByteOrder, FieldType, Value, Values, align_of_field};
use std::alloc::Global;

/// The value of a field, and the position where it ends.
#[cycle(read)]
#[inline]
pub(crate) fn read_field(
    alloc: Global,
    bytes: &[u8],
    at: u64,
    limit: u64,
    order: ByteOrder,
    field: &FieldType,
) -> Result<(Value, u64), ReadFault>
    requires ordered { at ≤ limit }
    requires inside { limit ≤ 8 * length bytes.now }
    ensures value { Gives datum_read result (field_at order (bit_of order bytes.now) limit (chain_of field.now).leaf (chain_of field.now).lengths at) }
    ensures within { IfOk result (λ read. read.1 ≤ limit) }
{
    match field {
        FieldType::Int(int) => read_int(bytes, at, limit, order, int),
        FieldType::Enum(enumeration) => read_int(bytes, at, limit, order, &enumeration.int),
        FieldType::Str => {
            let (text, end) = read_text(alloc, bytes, at, limit, order)?;
            Ok((Value::Text(text), end))
        }
        FieldType::Static(element, count) => read_array(
            alloc,
            bytes,
            at,
            limit,
            order,
            element.field_type(),
            u64::from(*count),
        ),
    }
}

/// The value of an array of so many elements, and the position where it ends.
#[cycle(read)]
pub(crate) fn read_array(
    alloc: Global,
    bytes: &[u8],
    at: u64,
    limit: u64,
    order: ByteOrder,
    element: &FieldType,
    count: u64,
) -> Result<(Value, u64), ReadFault>
    requires ordered { at ≤ limit }
    requires inside { limit ≤ 8 * length bytes.now }
    ensures value { Gives datum_read result (field_at order (bit_of order bytes.now) limit (chain_of element.now).leaf (count ∷ (chain_of element.now).lengths) at) }
    ensures within { IfOk result (λ read. read.1 ≤ limit) }
{
    let start = aligned_start(at, limit, align_of_field(element))?;
    let (values, end) = read_elements(alloc, bytes, start, limit, order, element, count)?;
    Ok((Value::List(values), end))
}

/// So many values one after the other, and the position where the last one ends.
/// They are read one by one, so a count that lies makes no more values than there are in the bits.
#[cycle(read)]
fn read_elements(
    alloc: Global,
    bytes: &[u8],
    at: u64,
    limit: u64,
    order: ByteOrder,
    element: &FieldType,
    count: u64,
) -> Result<(Values, u64), ReadFault>
    requires ordered { at ≤ limit }
    requires inside { limit ≤ 8 * length bytes.now }
    ensures values { Gives (λ read. read) result (many_at (field_at order (bit_of order bytes.now) limit (chain_of element.now).leaf (chain_of element.now).lengths) count at) }
    ensures within { IfOk result (λ read. read.1 ≤ limit) }
{
    let mut values = Vec::with_capacity(alloc, room(element, count, limit - at))?;
    let mut place = at;
    for _index in 0..count {
        let (value, end) = read_field(alloc, bytes, place, limit, order, element)?;
        values.push(value)?;
        place = end;
    }
    Ok((Values::from_vec(values), place))
}

/// Room for all of so many elements where that many bits can hold them, and else for none.
fn room(element: &FieldType, count: u64, bits: u64) -> usize
    ensures { result ≤ bits }
{
    let least_size = match element {
        FieldType::Int(int) => int.size(),
        FieldType::Enum(enumeration) => enumeration.int.size(),
        FieldType::Str => 8,
        FieldType::Static(_, _) => 1,
    };
    if count <= bits / u64::from(least_size) {
        count as usize
    } else {
        0
    }
}
