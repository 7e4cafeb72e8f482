//! Reading structures (CTF 1.8.3, section 4.2.1) and dynamic arrays (section 4.2.4).

ghost use Rattle.std.specs.Prelude.{◌≡◌, ◌*◌, ◌<◌, ◌≤◌, List, [], Ok, Err, length, take, slice_get, slice_index_or, IfOk, IfErr, IfSome, OnErr};
ghost use Rattle.ctf_types.specs.declared.Value.TheVariants.{Unsigned};
ghost use Rattle.ctf_types.specs.Bits.{bit_of};
ghost use Rattle.ctf_types.specs.Datum.{Datum};
ghost use Rattle.ctf_types.specs.Layout.{count_at, member_end, struct_end, MemberLies, StructLies, AnyBits};
ghost use Rattle.ctf_types.specs.Values.{datum_of, data_of};
ghost use Rattle.value_codec.specs.Reading.{length_at, member_at, members_at, struct_at, datum_read, Gives};
ghost use Rattle.value_codec.specs.Stopping.{ForReason, MemberStops, StructStops};
ghost use Rattle.value_codec.specs.declared.read_fault.ReadFault.{ReadFault};

use crate::ReadFault;
use crate::read_field::{read_array, read_field};
use crate::read_number::read_bits;
use crate::read_start::members_start;
use crate::read_text::reread_text;
use ctf_types::{ByteOrder, FieldType, Length, MemberType, StructType, Value, Values};
use std::alloc::{AllocError, Global};
use std::mem;

/// The values of a structure's members, and the position where the last one ends. Positions are in bits from the packet's start,
/// which is the slice's; no field may reach past `limit`. A structure without members is not there and ends where it would begin.
///
/// The first fault is answered, in the order of the fields: `PastEnd` where a field reaches past the limit, also an empty array whose
/// aligned start does and a string that would begin at the limit; `NoTerminator` where a string begins before the limit and has no zero
/// byte up to it; `OutOfMemory`.
pub fn read_struct(
    alloc: Global,
    bytes: &[u8],
    at: u64,
    limit: u64,
    order: ByteOrder,
    s: &StructType,
) -> Result<(Values, u64), ReadFault>
    requires ordered { at ≤ limit }
    requires inside { limit ≤ 8 * length bytes.now }
    ensures values { Gives (λ read. read) result (struct_at order (bit_of order bytes.now) limit s.now at) }
    ensures found { IfOk result (λ read. StructLies order (bit_of order bytes.now) AnyBits s.now at read.0) }
    ensures ends { IfOk result (λ read. read.1 ≡ struct_end s.now at read.0) }
    ensures within { IfOk result (λ read. read.1 ≤ limit) }
    ensures only { (vs : List Datum) → StructLies order (bit_of order bytes.now) AnyBits s.now at vs → struct_end s.now at vs ≤ limit
        → Gives (λ read. read) result (Ok (vs, struct_end s.now at vs)) }
    ensures stops { IfErr result (ForReason (StructStops order (bit_of order bytes.now) limit s.now at)) }
    ensures stops_only { (e : ReadFault) → StructStops order (bit_of order bytes.now) limit s.now at e → Gives (λ read. read) result (Err e) }
{
    let mut values = Values::new(alloc);
    let end = read_struct_into(alloc, bytes, at, limit, order, s, &mut values)?;
    Ok((values, end))
}

/// Reads the values of a structure's members in the place of those that are held, and answers the position where the last one ends.
/// Positions are in bits from the packet's start, which is the slice's; the faults are those of `read_struct`.
///
/// As many values as the structure has members keep their list's memory, and a string of at most 64 bytes keeps its own where the one that is
/// read has room in it. An error leaves no values.
pub fn read_struct_into(
    alloc: Global,
    bytes: &[u8],
    at: u64,
    limit: u64,
    order: ByteOrder,
    s: &StructType,
    values: &mut Values,
) -> Result<u64, ReadFault>
    requires ordered { at ≤ limit }
    requires inside { limit ≤ 8 * length bytes.now }
    ensures values { Gives (λ end. (values.new, end)) result (struct_at order (bit_of order bytes.now) limit s.now at) }
    ensures refused { OnErr result (values.new ≡ []) }
    ensures within { IfOk result (λ end. end ≤ limit) }
{
    let held = mem::replace(values, Values::new(alloc)).into_vec();
    let start = members_start(at, limit, s)?;
    let mut items = places_for(alloc, s.members.len(), held)?;
    let end = reread_members(alloc, bytes, start, limit, order, s, &mut items)?;
    *values = Values::from_vec(items);
    Ok(end)
}

/// A list of so many values to be read over: the one that is held where it has as many, and else a new one with room for them and no more.
fn places_for(alloc: Global, count: usize, held: Vec<Value>) -> Result<Vec<Value>, AllocError>
    ensures { IfOk result (λ places. length places.items ≡ count) }
{
    if held.len() == count {
        return Ok(held);
    }
    let mut places = Vec::with_capacity(alloc, count)?;
    for _index in 0..count {
        places.push(Value::Unsigned(0))?;
    }
    Ok(places)
}

/// Reads the values of a structure's members one by one, each in its place and after those before it, and answers where the last one ends.
fn reread_members(
    alloc: Global,
    bytes: &[u8],
    at: u64,
    limit: u64,
    order: ByteOrder,
    s: &StructType,
    places: &mut [Value],
) -> Result<u64, ReadFault>
    requires ordered { at ≤ limit }
    requires inside { limit ≤ 8 * length bytes.now }
    requires count { length places.old ≡ length s.now.members }
    ensures values { Gives (λ end. (data_of places.new, end)) result (members_at order (bit_of order bytes.now) limit [] s.now.members at) }
    ensures within { IfOk result (λ end. end ≤ limit) }
{
    let mut place = at;
    for i in 0..s.members.len() {
        place = reread_member(
            alloc,
            bytes,
            place,
            limit,
            order,
            s.members.member_at(i),
            places,
            i,
        )?;
    }
    Ok(place)
}

/// Reads the value of a member of this type in the place of value `i`, after those before it, which stay. It answers the position where it ends.
fn reread_member(
    alloc: Global,
    bytes: &[u8],
    at: u64,
    limit: u64,
    order: ByteOrder,
    member: &MemberType,
    places: &mut [Value],
    i: usize,
) -> Result<u64, ReadFault>
    requires ordered { at ≤ limit }
    requires inside { limit ≤ 8 * length bytes.now }
    requires place { i < length places.old }
    ensures value { Gives (λ end. (datum_of (slice_index_or places.new i (Unsigned 0)), end)) result
        (member_at order (bit_of order bytes.now) limit (data_of (take i places.old)) member.now at) }
    ensures before { take i places.new ≡ take i places.old }
    ensures count { length places.new ≡ length places.old }
    ensures within { IfOk result (λ end. end ≤ limit) }
{
    match member {
        MemberType::Plain(FieldType::Str) => reread_text(
            alloc,
            bytes,
            at,
            limit,
            order,
            &mut places[i],
        ),
        MemberType::Plain(FieldType::Int(_) | FieldType::Enum(_) | FieldType::Static(_, _))
        | MemberType::Dyn(_, _) => {
            let (value, end) = read_typed(alloc, bytes, at, limit, order, member, &places[..i])?;
            places[i] = value;
            Ok(end)
        }
    }
}

/// The value of a structure's member `i`, which begins at the next multiple of its own alignment, and the position where it ends.
/// `before` are the values of the members before it, where a dynamic array finds its length: 0 where no unsigned number is there.
/// Positions are in bits, and the faults are those of `read_struct`; the structure's own alignment is not applied.
pub fn read_member(
    alloc: Global,
    bytes: &[u8],
    at: u64,
    limit: u64,
    order: ByteOrder,
    s: &StructType,
    i: usize,
    before: &[Value],
) -> Result<(Value, u64), ReadFault>
    requires ordered { at ≤ limit }
    requires inside { limit ≤ 8 * length bytes.now }
    requires member { i < length s.now.members }
    ensures value { IfSome (slice_get s.now.members i)
        (λ m. Gives datum_read result (member_at order (bit_of order bytes.now) limit (data_of before.now) m.1 at)) }
    ensures found { IfSome (slice_get s.now.members i)
        (λ m. IfOk result (λ read. MemberLies order (bit_of order bytes.now) AnyBits m.1 (data_of before.now) at (datum_of read.0))) }
    ensures ends { IfSome (slice_get s.now.members i) (λ m. IfOk result (λ read. read.1 ≡ member_end m.1 at (datum_of read.0))) }
    ensures within { IfOk result (λ read. read.1 ≤ limit) }
    ensures only { IfSome (slice_get s.now.members i)
        (λ m. (v : Datum) → MemberLies order (bit_of order bytes.now) AnyBits m.1 (data_of before.now) at v → member_end m.1 at v ≤ limit
        → Gives datum_read result (Ok (v, member_end m.1 at v))) }
    ensures stops { IfSome (slice_get s.now.members i)
        (λ m. IfErr result (ForReason (MemberStops order (bit_of order bytes.now) limit (data_of before.now) m.1 at))) }
    ensures stops_only { IfSome (slice_get s.now.members i)
        (λ m. (e : ReadFault) → MemberStops order (bit_of order bytes.now) limit (data_of before.now) m.1 at e → Gives datum_read result (Err e)) }
{
    let Some((_, member)) = s.members.get(i) else {
        unreachable!()
    };
    read_typed(alloc, bytes, at, limit, order, member, before)
}

/// The value of a member of this type after these values, and the position where it ends.
#[inline]
fn read_typed(
    alloc: Global,
    bytes: &[u8],
    at: u64,
    limit: u64,
    order: ByteOrder,
    member: &MemberType,
    before: &[Value],
) -> Result<(Value, u64), ReadFault>
    requires ordered { at ≤ limit }
    requires inside { limit ≤ 8 * length bytes.now }
    ensures value { Gives datum_read result (member_at order (bit_of order bytes.now) limit (data_of before.now) member.now at) }
    ensures within { IfOk result (λ read. read.1 ≤ limit) }
{
    match member {
        MemberType::Plain(field) => read_field(alloc, bytes, at, limit, order, field),
        MemberType::Dyn(element, place) => {
            let (count, start) = read_length(bytes, at, limit, order, *place, before)?;
            read_array(alloc, bytes, start, limit, order, element, count)
        }
    }
}

/// How many elements a dynamic array has, and the position where it may begin.
fn read_length(
    bytes: &[u8],
    at: u64,
    limit: u64,
    order: ByteOrder,
    place: Length,
    before: &[Value],
) -> Result<(u64, u64), ReadFault>
    requires ordered { at ≤ limit }
    requires inside { limit ≤ 8 * length bytes.now }
    ensures number { result ≡ length_at order (bit_of order bytes.now) limit (data_of before.now) place at }
    ensures within { IfOk result (λ read. read.1 ≤ limit) }
{
    match place {
        Length::Auto => read_bits(bytes, at, limit, order, 8, 32),
        Length::At(index) => Ok((count_in(before, index), at)),
    }
}

/// The length that the member at this index gives, an unsigned integer.
fn count_in(before: &[Value], index: usize) -> u64
    ensures { result ≡ count_at (data_of before.now) index }
{
    match before.get(index) {
        Some(Value::Unsigned(count)) => *count,
        Some(Value::Signed(_) | Value::Text(_) | Value::List(_)) | None => 0,
    }
}
