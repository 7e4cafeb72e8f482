//! What a proof does not see: that each call can be made, and which memory is kept.

use crate::tests::expected::same;
use crate::tests::fixtures::{Datum, Kind, structure, values};
use ctf_types::{ByteOrder, Bytes, StructType, Value, Values, fits, size_from};
use std::alloc::{AllocError, Global};
use std::mem;
use std::process::Abort;
use std::test::Fail;
use tsdl_reader::read_metadata;
use value_codec::{read_member, read_struct_into, write_struct};

/// A number, a dynamic array of 32-bit integers that is empty, and another number: the array aligns what follows.
static MEMBERS: &[Kind] = &[
    Kind::Int(8, 8, false),
    Kind::Dynamic(32, 32),
    Kind::Int(8, 8, false),
];

static VALUES: &[Datum] = &[Datum::Unsigned(1), Datum::List(&[]), Datum::Unsigned(2)];

const WRITTEN: [u8; 21] = [
    0, 0, 0, 0, 0, 0, 0, 0, 0, 0, 0, 0, 1, 0, 0, 0, 0, 0, 0, 0, 2,
];

/// The values are written into zero bytes from bit 96 up to bit 168.
#[test]
fn writes_a_structure(rt: HostRuntime) -> Result<(), Fail> {
    let s = structure(rt.alloc(), MEMBERS)?;
    let given = values(rt.alloc(), VALUES)?;
    if fits(&s, given.as_slice()).is_err() || size_from(&s, given.as_slice(), 96) != Some(168) {
        return Err("values that do not fit".into());
    }
    let mut bytes = [0; 21];
    let end = write_struct(&mut bytes, 96, ByteOrder::Little, &s, given.as_slice());
    same(&rt, end, 168, "the end");
    same(&rt, bytes, WRITTEN, "the bytes");
    Ok(())
}

/// Each byte has a 3-bit 5 and behind it a 5-bit 17, of which the second is read alone.
#[test]
fn reads_a_member_alone(rt: HostRuntime) -> Result<(), Fail> {
    let s = structure(
        rt.alloc(),
        &[Kind::Int(3, 1, false), Kind::Int(5, 1, false)],
    )?;
    is_17(&rt, rt.alloc(), &s, ByteOrder::Little, 0x8d)?;
    is_17(&rt, rt.alloc(), &s, ByteOrder::Big, 0xb1)
}

fn is_17(
    rt: &impl Abort,
    alloc: Global,
    s: &StructType,
    order: ByteOrder,
    byte: u8,
) -> Result<(), Fail> {
    if s.members.len() != 2 {
        return Err("not two members".into());
    }
    let before = [Value::Unsigned(5)];
    let (value, end) = read_member(alloc, &[byte], 3, 8, order, s, 1, &before)?;
    let found = (matches!(&value, Value::Unsigned(17)), end);
    same(rt, found, (true, 8), "the second member");
    Ok(())
}

static STRING: &[u8] =
    b"/* CTF 1.8 */ trace{byte_order=le;major=1;minor=8;packet.header:=struct{string s;};};";

/// Strings that are read one over the other, and how many bytes the text has room for behind each reading. A text of more than 64 bytes gives its memory back.
static ROOMS: &[(&[u8], usize)] = &[
    (b"hello\0", 5),
    (b"abc\0", 5),
    (b"\0", 5),
    (
        b"a text of 70 bytes: 01234567890123456789012345678901234567890123456789\0",
        70,
    ),
    (b"abc\0", 3),
];

/// No clause speaks of the memory that is kept where a structure is read in the place of an earlier reading.
#[test]
fn keeps_the_memory_of_short_texts(rt: HostRuntime) -> Result<(), Fail> {
    let s = read_metadata(rt.alloc(), STRING)?.header;
    let mut values = Values::new(rt.alloc());
    for row in ROOMS {
        has_room(&rt, rt.alloc(), &s, &mut values, row)?;
    }
    Ok(())
}

fn has_room(
    rt: &impl Abort,
    alloc: Global,
    s: &StructType,
    values: &mut Values,
    (bytes, expected): &(&[u8], usize),
) -> Result<(), Fail> {
    if bytes.len() >= 1000 {
        return Err("too many bytes".into());
    }
    let end = 8 * bytes.len() as u64;
    read_struct_into(alloc, bytes, 0, end, ByteOrder::Little, s, values)?;
    same(rt, room_in(alloc, values)?, *expected, "room");
    Ok(())
}

/// How many bytes the last value has room for, a text; the values stay.
fn room_in(alloc: Global, values: &mut Values) -> Result<usize, AllocError> {
    let mut items = mem::replace(values, Values::new(alloc)).into_vec();
    let bytes = match items.pop() {
        Some(Value::Text(text)) => text.into_vec(),
        Some(_other) => Vec::new(alloc),
        None => Vec::new(alloc),
    };
    let room = bytes.capacity();
    items.push(Value::Text(Bytes::from_vec(bytes)))?;
    *values = Values::from_vec(items);
    Ok(room)
}
