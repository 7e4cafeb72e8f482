//! Drafts of fields of every type (CTF 1.8.3, sections 4.1 and 4.2): each value is judged, measured and written in one walk.

ghost use Rattle.std.specs.Prelude.{◌≡◌, ℕ, ◌+◌, ◌<◌, All, length};
ghost use Rattle.ctf_types.specs.Alignment.{up};
ghost use Rattle.ctf_types.specs.FieldTypes.{chain_of};
ghost use Rattle.ctf_types.specs.Fitting.{FieldFits};
ghost use Rattle.ctf_types.specs.Layout.{field_end, FieldLies};
ghost use Rattle.ctf_types.specs.Values.{datum_of, data_of};
ghost use Rattle.value_codec.specs.Drafting.{Drafts, IsWithin};
ghost use Rattle.value_codec.specs.Writing.{element_align, elements_end, ElementsLie};

use crate::draft_numbers::draft_int;
use crate::draft_padding::draft_padding;
use crate::draft_strings::draft_string;
use ctf_types::{ByteOrder, FieldType, Value, align_of_field};

/// Writes a value of a field's type from its alignment on, where it fits and has room, and answers its end. Positions are in bits.
#[cycle(draft)]
pub(crate) fn draft_field(
    bytes: &mut [u8],
    at: u64,
    order: ByteOrder,
    field: &FieldType,
    value: &Value,
) -> Option<u64>
    requires within { IsWithin bytes.old at }
    ensures { Drafts order (FieldFits (chain_of field.now).leaf (chain_of field.now).lengths (datum_of value.now))
        (field_end (chain_of field.now).leaf (chain_of field.now).lengths at (datum_of value.now))
        (λ b pad. FieldLies order b pad (chain_of field.now).leaf (chain_of field.now).lengths at (datum_of value.now))
        at result bytes.old bytes.new }
{
    match field {
        FieldType::Int(int) => draft_int(bytes, at, order, int, value),
        FieldType::Enum(enumeration) => draft_int(bytes, at, order, &enumeration.int, value),
        FieldType::Str => draft_string(bytes, at, order, value),
        FieldType::Static(element, length) => match value.as_list() {
            None => None,
            Some(values) => {
                if values.len() != *length as usize {
                    return None;
                }
                draft_array(bytes, at, order, element.field_type(), values.as_slice())
            }
        },
    }
}

/// Writes the elements of an array from their alignment on, also where there are none, and answers their end.
#[cycle(draft)]
pub(crate) fn draft_array(
    bytes: &mut [u8],
    at: u64,
    order: ByteOrder,
    element: &FieldType,
    values: &[Value],
) -> Option<u64>
    requires within { IsWithin bytes.old at }
    ensures { Drafts order (All (FieldFits (chain_of element.now).leaf (chain_of element.now).lengths) (data_of values.now))
        (elements_end element.now (up at (element_align element.now)) (data_of values.now))
        (λ b pad. pad at (up at (element_align element.now))
        × ElementsLie order b pad element.now (up at (element_align element.now)) (data_of values.now))
        at result bytes.old bytes.new }
{
    match draft_padding(bytes, at, order, align_of_field(element)) {
        None => None,
        Some(start) => draft_elements(bytes, start, order, element, values),
    }
}

/// Writes values of one type one after the other, and answers the end of the last.
#[cycle(draft)]
fn draft_elements(
    bytes: &mut [u8],
    at: u64,
    order: ByteOrder,
    element: &FieldType,
    values: &[Value],
) -> Option<u64>
    requires within { IsWithin bytes.old at }
    ensures { Drafts order (All (FieldFits (chain_of element.now).leaf (chain_of element.now).lengths) (data_of values.now))
        (elements_end element.now at (data_of values.now))
        (λ b pad. ElementsLie order b pad element.now at (data_of values.now)) at result bytes.old bytes.new }
{
    let mut end = at;
    for value in values {
        match draft_field(bytes, end, order, element, value) {
            None => return None,
            Some(next) => end = next,
        }
    }
    Some(end)
}
