//! Lengths of 2^32 - 1 in short files: elements are made one by one as they are read, so a file makes no more of them than it has bits. The script beside the gate
//! counts the bytes of memory that are asked for.

use crate::tests::expected::same;
use crate::tests::stream_files::{Source, ending_of};
use packet_reader::{PacketFault, StreamEnding};
use std::alloc::Global;
use std::test::Fail;

const PAST: StreamEnding = StreamEnding::Faulty(PacketFault::Record, 0);

/// Elements of one bit, as many as they may be: the most values that a byte can make.
const BITS: Source = Source::Elsewhere(&[(
    "integer { size = 8; } v;",
    "integer { size = 32; } n; integer { size = 1; } bits[n];",
)]);

/// Elements of one bit within eight lists of one element each.
const NESTED: Source = Source::Elsewhere(&[(
    "integer { size = 8; } v;",
    "integer { size = 32; } n; integer { size = 1; } bits[n][1][1][1][1][1][1][1][1];",
)]);

/// How a packet of so many bytes ends in which each bit behind the sizes is a one.
fn end_of(alloc: Global, source: &Source, bytes: u16, in_turn: bool) -> Result<StreamEnding, Fail> {
    let bits = (u32::from(bytes) * 8).to_le_bytes();
    let mut file = Vec::new(alloc);
    file.extend_from_slice(&[0xc1, 0x1f, 0xfc, 0xc1])?;
    file.extend_from_slice(&bits)?;
    file.extend_from_slice(&bits)?;
    file.resize(usize::from(bytes), 0xff)?;
    Ok(ending_of(alloc, source, file.as_slice(), in_turn)?.1)
}

#[test]
fn makes_what_is_needed(rt: HostRuntime) -> Result<(), Fail> {
    let found = ending_of(rt.alloc(), &NESTED, &[], false)?;
    same(&rt, found, (0, StreamEnding::Whole), "an empty file");
    Ok(())
}

#[test]
fn reads_bits_in_a_short_file(rt: HostRuntime) -> Result<(), Fail> {
    let end = end_of(rt.alloc(), &BITS, 100, false)?;
    same(&rt, end, PAST, "bits");
    Ok(())
}

#[test]
fn reads_bits_in_a_long_file(rt: HostRuntime) -> Result<(), Fail> {
    let end = end_of(rt.alloc(), &BITS, 10_000, false)?;
    same(&rt, end, PAST, "bits");
    Ok(())
}

#[test]
fn reads_nested_bits(rt: HostRuntime) -> Result<(), Fail> {
    let end = end_of(rt.alloc(), &NESTED, 2000, false)?;
    same(&rt, end, PAST, "bits");
    Ok(())
}

#[test]
fn reads_bits_packet_by_packet(rt: HostRuntime) -> Result<(), Fail> {
    let end = end_of(rt.alloc(), &BITS, 10_000, true)?;
    same(&rt, end, PAST, "bits");
    Ok(())
}
