//! Structures and their members (CTF 1.8.3, section 4.2.1).

ghost use Rattle.std.specs.Prelude.{◌≡◌, ℕ, ◌+◌, ◌*◌, ◌^◌, ◌<◌, ◌≤◌, List, length, drop};
ghost use Rattle.ctf_types.specs.Bits.{bit_of, AreZero, SameOutside};
ghost use Rattle.ctf_types.specs.Datum.{Datum};
ghost use Rattle.ctf_types.specs.Fitting.{Fits, MemberFits, MembersFit};
ghost use Rattle.ctf_types.specs.Laws.{IsAutomatic, AreAutomatic};
ghost use Rattle.ctf_types.specs.Layout.{member_end, members_end, struct_end, MemberLies, MembersLie, StructLies};
ghost use Rattle.ctf_types.specs.Values.{datum_of, data_of};
ghost use Rattle.value_codec.specs.Writing.{Writes, HasRoom};

use crate::write_fields::{write_array, write_field};
use crate::write_numbers::write_aligned;
use crate::write_padding::write_padding;
use crate::write_values::elements_of;
use ctf_types::{ByteOrder, MemberType, StructType, Value, align_of};

/// Writes a structure's values from its alignment on, with zero bits where no field is, and answers its end.
/// Before each dynamic array stands its length. Positions are in bits; a structure without members is not there.
pub fn write_struct(
    bytes: &mut [u8],
    at: u64,
    order: ByteOrder,
    s: &StructType,
    values: &[Value],
) -> u64
    requires automatic { AreAutomatic s.now.members }
    requires fits { Fits s.now (data_of values.now) }
    requires within { struct_end s.now at (data_of values.now) ≤ 8 * length bytes.old }
    requires position { struct_end s.now at (data_of values.now) < 2 ^ 64 }
    ensures ends { result ≡ struct_end s.now at (data_of values.now) }
    ensures lies { StructLies order (bit_of order bytes.new) (AreZero (bit_of order bytes.new)) s.now at (data_of values.now) }
    ensures others { SameOutside (bit_of order bytes.new) (bit_of order bytes.old) at result }
{
    if s.members.is_empty() {
        return at;
    }
    let start = write_padding(bytes, at, order, align_of(s));
    write_members(bytes, start, order, s, 0, values)
}

/// Writes the values of a structure's members from the index `from` on, without the structure's alignment, and answers the end of the last.
pub fn write_members(
    bytes: &mut [u8],
    at: u64,
    order: ByteOrder,
    s: &StructType,
    from: usize,
    values: &[Value],
) -> u64
    requires automatic { AreAutomatic s.now.members }
    requires fits { MembersFit (drop from s.now.members) (data_of values.now) }
    requires within { members_end (drop from s.now.members) at (data_of values.now) ≤ 8 * length bytes.old }
    requires position { members_end (drop from s.now.members) at (data_of values.now) < 2 ^ 64 }
    ensures ends { result ≡ members_end (drop from s.now.members) at (data_of values.now) }
    ensures lies { (before : List Datum) → MembersLie order (bit_of order bytes.new) (AreZero (bit_of order bytes.new))
        (drop from s.now.members) before at (data_of values.now) }
    ensures others { SameOutside (bit_of order bytes.new) (bit_of order bytes.old) at result }
{
    let mut end = at;
    for index in from..s.members.len() {
        end = write_member(
            bytes,
            end,
            order,
            s.members.member_at(index),
            &values[index - from],
        );
    }
    end
}

/// Writes a member's value and answers its end: a dynamic array's length of 32 bits at the next multiple of 8, and then the array.
fn write_member(
    bytes: &mut [u8],
    at: u64,
    order: ByteOrder,
    member: &MemberType,
    value: &Value,
) -> u64
    requires automatic { IsAutomatic member.now }
    requires fits { MemberFits member.now (datum_of value.now) }
    requires room { HasRoom bytes.old (member_end member.now at (datum_of value.now)) }
    ensures ends { result ≡ member_end member.now at (datum_of value.now) }
    ensures writes { Writes order
        (λ b pad. (before : List Datum) → MemberLies order b pad member.now before at (datum_of value.now))
        at result bytes.old bytes.new }
{
    match member {
        MemberType::Plain(field) => write_field(bytes, at, order, field, value),
        MemberType::Dyn(element, _) => {
            let values = elements_of(value);
            let start = write_aligned(bytes, at, order, 8, 32, values.len() as u64);
            write_array(bytes, start, order, element, values)
        }
    }
}
