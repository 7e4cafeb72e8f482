//! Each function beside the definitions written out.

ghost use Rattle.std.specs.Prelude.{◌^◌, ◌<◌, ◌≤◌};

use crate::tests::expected::same;
use bit_codec::{get_bits, put_bits, put_bytes, zero_bits};
use ctf_types::ByteOrder;
use std::fmt::Debug;
use std::process::Abort;

/// Both are equal; else the test fails at this number of bits and this place.
fn same_at<T: PartialEq + Debug + Drop>(
    rt: &impl Abort,
    found: T,
    want: T,
    at: u64,
    n: u8,
    order: ByteOrder,
) {
    assert_eq!(rt; found, want, "{n} bits at {at}, {order:?}");
}

#[test]
fn clears_a_span_in_both_orders_and_copies_bytes(rt: HostRuntime) {
    let mut little = [0xff; 4];
    zero_bits(&mut little, 5, 22, ByteOrder::Little);
    let mut big = [0xff; 4];
    zero_bits(&mut big, 5, 22, ByteOrder::Big);
    let cleared = [[0x1f, 0x00, 0xc0, 0xff], [0xf8, 0x00, 0x03, 0xff]];
    same(&rt, [little, big], cleared, "22 bits from bit 5 on");
    let mut bytes = [0xa5; 5];
    put_bytes(&mut bytes, 8, b"abc");
    let copied = bytes;
    put_bytes(&mut bytes, 40, b"");
    let want = [0xa5, b'a', b'b', b'c', 0xa5];
    same(&rt, [copied, bytes], [want; 2], "three bytes, and none");
}

#[test]
fn puts_and_gets_as_defined(rt: HostRuntime) {
    for order in [ByteOrder::Little, ByteOrder::Big] {
        for at in 0..16u8 {
            for n in 1..65u8 {
                puts_as_defined(&rt, at, n, order, 0x9e37_79b9_7f4a_7c15);
                puts_as_defined(&rt, at, n, order, u64::MAX);
            }
        }
    }
}

/// A number of `n` bits, the first ones of `pattern`, at one position.
fn puts_as_defined(rt: &impl Abort, at: u8, n: u8, order: ByteOrder, pattern: u64)
    requires position { at < 16 }
    requires some { 0 < n }
    requires at_most_64 { n ≤ 64 }
{
    let value = pattern >> (64 - n);
    let (bytes, read) = put(at, n, order, value);
    same_at(rt, read, value, u64::from(at), n, order);
    let want = put_as_defined(at, n, order, value);
    same_at(rt, bytes, want, u64::from(at), n, order);
}

/// Ten bytes with a number put at a place, and what is read there.
fn put(at: u8, n: u8, order: ByteOrder, value: u64) -> ([u8; 10], u64)
    requires position { at < 16 }
    requires some { 0 < n }
    requires at_most_64 { n ≤ 64 }
    requires fits { value < 2 ^ n }
{
    let mut bytes = [0xa5; 10];
    put_bits(&mut bytes, u64::from(at), n, order, value);
    let read = get_bits(&bytes, u64::from(at), n, order);
    (bytes, read)
}

/// Bit j of a byte list is bit j mod 8 of byte j/8, counted from the least significant in little-endian order and from
/// the most significant in big-endian order; bit j of a number is counted from the same end.
fn put_as_defined(at: u8, n: u8, order: ByteOrder, value: u64) -> [u8; 10]
    requires position { at < 16 }
    requires at_most_64 { n ≤ 64 }
{
    let mut bytes = [0xa5; 10];
    for j in 0..n {
        let in_byte = (at + j) % 8;
        let (in_byte, in_number) = match order {
            ByteOrder::Little => (in_byte, j),
            ByteOrder::Big => (7 - in_byte, n - 1 - j),
        };
        let i = usize::from((at + j) / 8);
        let without = bytes[i] & !(1 << in_byte);
        bytes[i] = if value >> in_number & 1 == 1 {
            without | 1 << in_byte
        } else {
            without
        };
    }
    bytes
}
