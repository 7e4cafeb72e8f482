//! Sizes: where the values of a structure end in a packet (CTF 1.8.3, sections 4.1 and 4.2).

ghost use Rattle.std.specs.Prelude.{◌≡◌, ◌+◌, ◌<◌, ◌≤◌, ◌^◌, ◌∷◌, ℕ, List, drop, length, SomeIff};
ghost use Rattle.data_types.specs.Alignment.{up};
ghost use Rattle.data_types.specs.Chain.{ByteString};
ghost use Rattle.data_types.specs.FieldTypes.{chain_of};
ghost use Rattle.ctf_types.specs.Layout.{elements_in, field_end, leaf_end, member_end, members_end, struct_end, text_in};
ghost use Rattle.data_types.specs.Values.{data_of, datum_of};

use crate::alignment::{LONGEST_PACKET, align_of, align_of_field, aligned, within_packet};
use data_types::{FieldType, IntType, Length, MemberType, StructType, Value};

/// Where the structure's values end that begins at this position, in bits from the packet's start. None past the longest packet, 2^23 bits.
pub fn size_from(structure: &StructType, values: &[Value], at: u64) -> Option<u64>
    ensures { SomeIff result (struct_end structure.now at (data_of values.now) ≤ 2 ^ 23) (struct_end structure.now at (data_of values.now)) }
{
    if structure.members.is_empty() {
        return within_packet(at);
    }
    let start = aligned(at, align_of(structure))?;
    members_size(structure, 0, values, start)
}

/// Where the values of the members from index `from` on end, without the structure's own alignment. None past the longest packet, 2^23 bits.
pub fn members_size(structure: &StructType, from: usize, values: &[Value], at: u64) -> Option<u64>
    ensures { SomeIff result
        (members_end (drop from structure.now.members) at (data_of values.now) ≤ 2 ^ 23)
        (members_end (drop from structure.now.members) at (data_of values.now)) }
{
    let mut end = within_packet(at)?;
    let mut index = from;
    for value in values {
        if index >= structure.members.len() {
            return Some(end);
        }
        end = member_size(structure.members.member_at(index), value, end)?;
        index += 1;
    }
    Some(end)
}

fn member_size(member: &MemberType, value: &Value, at: u64) -> Option<u64>
    ensures { SomeIff result (member_end member.now at (datum_of value.now) ≤ 2 ^ 23) (member_end member.now at (datum_of value.now)) }
{
    match member {
        MemberType::Plain(field) => field_size(field, value, at),
        MemberType::Dyn(element, length) => match length {
            Length::Auto => array_size(element, value, count_size(at)?),
            Length::At(_) => array_size(element, value, at),
        },
    }
}

#[cycle(size)]
fn field_size(field: &FieldType, value: &Value, at: u64) -> Option<u64>
    ensures { SomeIff result
        (field_end (chain_of field.now).leaf (chain_of field.now).lengths at (datum_of value.now) ≤ 2 ^ 23)
        (field_end (chain_of field.now).leaf (chain_of field.now).lengths at (datum_of value.now)) }
{
    match field {
        FieldType::Int(int) => int_size(int, at),
        FieldType::Enum(enumeration) => int_size(&enumeration.int, at),
        FieldType::Str => text_size(value, at),
        FieldType::Static(element, _) => array_size(element.field_type(), value, at),
    }
}

/// An array of as many elements as the value has. Its elements are of one type, `element`.
#[cycle(size)]
fn array_size(element: &FieldType, value: &Value, at: u64) -> Option<u64>
    ensures { SomeIff result
        (field_end (chain_of element.now).leaf (length (elements_in (datum_of value.now)) ∷ (chain_of element.now).lengths) at (datum_of value.now) ≤ 2 ^ 23)
        (field_end (chain_of element.now).leaf (length (elements_in (datum_of value.now)) ∷ (chain_of element.now).lengths) at (datum_of value.now)) }
{
    let mut end = aligned(at, align_of_field(element))?;
    for inner in elements(value) {
        end = field_size(element, inner, end)?;
    }
    Some(end)
}

/// The elements of a list; of any other value none.
fn elements(value: &Value) -> &[Value]
    ensures { data_of result.now ≡ elements_in (datum_of value.now) }
{
    match value {
        Value::List(values) => values.as_slice(),
        Value::Unsigned(_) | Value::Signed(_) | Value::Text(_) => &[],
    }
}

/// The automatic length of a dynamic array: 32 bits with alignment 8.
fn count_size(at: u64) -> Option<u64>
    ensures { SomeIff result (up at 8 + 32 ≤ 2 ^ 23) (up at 8 + 32) }
{
    within_packet(aligned(at, 8)? + 32)
}

fn int_size(int: &IntType, at: u64) -> Option<u64>
    ensures { SomeIff result (up at int.now.align + int.now.size ≤ 2 ^ 23) (up at int.now.align + int.now.size) }
{
    within_packet(aligned(at, int.align())? + u64::from(int.size()))
}

/// The bytes of a text and the zero byte after them.
fn text_size(value: &Value, at: u64) -> Option<u64>
    ensures { SomeIff result (leaf_end ByteString at (datum_of value.now) ≤ 2 ^ 23) (leaf_end ByteString at (datum_of value.now)) }
{
    let start = aligned(at, 8)?;
    let bytes = text_len(value);
    if bytes >= LONGEST_PACKET {
        return None;
    }
    within_packet(start + 8 * (bytes + 1))
}

/// The number of bytes of a text; of any other value 0.
fn text_len(value: &Value) -> u64
    ensures { result ≡ length (text_in (datum_of value.now)) }
{
    match value {
        Value::Text(bytes) => bytes.len() as u64,
        Value::Unsigned(_) | Value::Signed(_) | Value::List(_) => 0,
    }
}
