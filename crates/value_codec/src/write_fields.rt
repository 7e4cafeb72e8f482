//! Fields of every type (CTF 1.8.3, sections 4.1 and 4.2).

ghost use Rattle.std.specs.Prelude.{◌≡◌, ℕ, ◌+◌, ◌<◌, All, length};
ghost use Rattle.ctf_types.specs.Alignment.{up};
ghost use Rattle.ctf_types.specs.FieldTypes.{chain_of};
ghost use Rattle.ctf_types.specs.Fitting.{IntFits, FieldFits};
ghost use Rattle.ctf_types.specs.Layout.{field_end, IntLies, FieldLies};
ghost use Rattle.ctf_types.specs.Values.{datum_of, data_of};
ghost use Rattle.value_codec.specs.Writing.{Writes, HasRoom, element_align, elements_end, ElementsLie};

use crate::write_numbers::write_aligned;
use crate::write_padding::write_padding;
use crate::write_strings::write_text;
use crate::write_values::{elements_of, number_of, text_of};
use ctf_types::{ByteOrder, FieldType, IntType, Value, align_of_field};

/// Writes a value of a field's type from its alignment on, and answers its end. Positions are in bits.
#[cycle(write)]
pub(crate) fn write_field(
    bytes: &mut [u8],
    at: u64,
    order: ByteOrder,
    field: &FieldType,
    value: &Value,
) -> u64
    requires fits { FieldFits (chain_of field.now).leaf (chain_of field.now).lengths (datum_of value.now) }
    requires room { HasRoom bytes.old
        (field_end (chain_of field.now).leaf (chain_of field.now).lengths at (datum_of value.now)) }
    ensures ends { result
        ≡ field_end (chain_of field.now).leaf (chain_of field.now).lengths at (datum_of value.now) }
    ensures writes { Writes order
        (λ b pad. FieldLies order b pad (chain_of field.now).leaf (chain_of field.now).lengths at (datum_of value.now))
        at result bytes.old bytes.new }
{
    match field {
        FieldType::Int(int) => write_int(bytes, at, order, int, value),
        FieldType::Enum(enumeration) => write_int(bytes, at, order, &enumeration.int, value),
        FieldType::Str => write_text(bytes, at, order, text_of(value)),
        FieldType::Static(element, _) => write_array(
            bytes,
            at,
            order,
            element.field_type(),
            elements_of(value),
        ),
    }
}

/// Writes the elements of an array from their alignment on, also where there are none, and answers their end.
#[cycle(write)]
pub(crate) fn write_array(
    bytes: &mut [u8],
    at: u64,
    order: ByteOrder,
    element: &FieldType,
    values: &[Value],
) -> u64
    requires fits { All (FieldFits (chain_of element.now).leaf (chain_of element.now).lengths) (data_of values.now) }
    requires room { HasRoom bytes.old
        (elements_end element.now (up at (element_align element.now)) (data_of values.now)) }
    ensures ends { result ≡ elements_end element.now (up at (element_align element.now)) (data_of values.now) }
    ensures writes { Writes order
        (λ b pad. pad at (up at (element_align element.now))
        × ElementsLie order b pad element.now (up at (element_align element.now)) (data_of values.now))
        at result bytes.old bytes.new }
{
    let start = write_padding(bytes, at, order, align_of_field(element));
    write_elements(bytes, start, order, element, values)
}

/// Writes values of one type one after the other, and answers the end of the last.
#[cycle(write)]
fn write_elements(
    bytes: &mut [u8],
    at: u64,
    order: ByteOrder,
    element: &FieldType,
    values: &[Value],
) -> u64
    requires fits { All (FieldFits (chain_of element.now).leaf (chain_of element.now).lengths) (data_of values.now) }
    requires room { HasRoom bytes.old (elements_end element.now at (data_of values.now)) }
    ensures ends { result ≡ elements_end element.now at (data_of values.now) }
    ensures writes { Writes order (λ b pad. ElementsLie order b pad element.now at (data_of values.now)) at result bytes.old bytes.new }
{
    let mut end = at;
    for value in values {
        end = write_field(bytes, end, order, element, value);
    }
    end
}

/// Writes the number of an integer or an enumeration, a signed one in two's complement, and answers its end.
fn write_int(bytes: &mut [u8], at: u64, order: ByteOrder, int: &IntType, value: &Value) -> u64
    requires fits { IntFits int.now.signed int.now.size (datum_of value.now) }
    requires room { HasRoom bytes.old (up at int.now.align + int.now.size) }
    ensures ends { result ≡ up at int.now.align + int.now.size }
    ensures writes { Writes order (λ b pad. IntLies order b pad int.now at (datum_of value.now)) at result bytes.old bytes.new }
{
    let number = number_of(int, value);
    write_aligned(bytes, at, order, int.align(), int.size(), number)
}
