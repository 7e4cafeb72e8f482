//! Alignment: where a structure or a field may begin (CTF 1.8.3, sections 4.1.2, "align", and 4.2.1).

ghost use Rattle.std.specs.Prelude.{◌≡◌, ◌<◌, ◌≤◌, ◌^◌, max, SomeIff};
ghost use Rattle.data_types.specs.Alignment.{IsAlignment, up};
ghost use Rattle.data_types.specs.FieldTypes.{chain_of};
ghost use Rattle.ctf_types.specs.Layout.{leaf_align, member_align, struct_align};

use data_types::{FieldType, Length, MemberType, StructType};

/// The length of the longest packet, in bits: no position is past it.
pub const LONGEST_PACKET: u64 = 8_388_608;

/// The alignment of a structure in bits: the largest of its minimum alignment and its members'.
pub fn align_of(structure: &StructType) -> u32
    ensures is { result ≡ struct_align structure.now }
    ensures alignment { IsAlignment result }
{
    let mut largest = structure.min_align;
    for index in 0..structure.members.len() {
        largest = largest.max(align_of_member(structure.members.member_at(index)));
    }
    largest
}

/// The alignment of a structure's member in bits. A dynamic array with an automatic length begins with that length, of alignment 8.
fn align_of_member(member: &MemberType) -> u32
    ensures is { result ≡ member_align member.now }
    ensures alignment { IsAlignment result }
{
    match member {
        MemberType::Plain(field) => align_of_field(field),
        MemberType::Dyn(element, Length::Auto) => align_of_field(element).max(8),
        MemberType::Dyn(element, Length::At(_)) => align_of_field(element),
    }
}

/// The alignment of a field in bits: an array has its element's, also when it is empty.
pub fn align_of_field(field: &FieldType) -> u32
    ensures is { result ≡ leaf_align (chain_of field.now).leaf }
    ensures alignment { IsAlignment result }
{
    match field {
        FieldType::Int(int) => int.align(),
        FieldType::Enum(enumeration) => enumeration.int.align(),
        FieldType::Str => 8,
        FieldType::Static(element, _) => align_of_field(element.field_type()),
    }
}

/// The next position from this one on that is a multiple of the alignment, both in bits. None past the longest packet.
pub(crate) fn aligned(at: u64, align: u32) -> Option<u64>
    requires { 0 < align }
    ensures { SomeIff result (up at align ≤ 2 ^ 23) (up at align) }
{
    if at > LONGEST_PACKET {
        return None;
    }
    let align = u64::from(align);
    within_packet((at + (align - 1)) / align * align)
}

/// This position in bits. None past the longest packet.
pub(crate) fn within_packet(end: u64) -> Option<u64>
    ensures { SomeIff result (end ≤ 2 ^ 23) end }
{
    if end <= LONGEST_PACKET {
        Some(end)
    } else {
        None
    }
}
