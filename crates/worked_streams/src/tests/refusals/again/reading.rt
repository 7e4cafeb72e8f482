//! Calls that read stream files.

ghost use Rattle.ctf_types.specs.Allowed.{IsMetadata};

use super::super::{FILE, METADATA};
use super::at_last;
use crate::tests::expected::same;
use crate::tests::stream_files::{metadata_of, read};
use ctf_types::Metadata;
use packet_reader::{ReadStop, StreamEnding};
use std::alloc::Global;
use std::process::Abort;
use std::test::Fail;
use worked_fixtures::bytes_of;

#[test]
fn reads_a_stream_file(rt: HostRuntime) -> Result<(), Fail> {
    let metadata = metadata_of(rt.alloc(), &METADATA)?;
    reads_twice(&rt, rt.alloc(), &metadata)
}

/// At once, and packet by packet from a reader, which is made anew. A torn packet begins behind the first.
fn reads_twice(rt: &impl Abort, alloc: Global, metadata: &Metadata) -> Result<(), Fail>
    requires { IsMetadata metadata.now }
{
    let mut bytes = bytes_of(alloc, FILE)?;
    bytes.push(0xc1)?;
    for in_turn in [false, true] {
        let seen = seen(alloc, metadata, bytes.as_slice(), in_turn)?;
        same(rt, seen, (1, StreamEnding::Torn(64), true), in_turn);
    }
    Ok(())
}

/// How many packets the stream file has, how it ends, and whether its clock is `clk`.
fn seen(
    alloc: Global,
    metadata: &Metadata,
    bytes: &[u8],
    in_turn: bool,
) -> Result<(usize, StreamEnding, bool), Fail>
    requires { IsMetadata metadata.now }
{
    let read = match read(alloc, metadata, bytes, in_turn) {
        Ok(found) => found,
        Err(ReadStop::OutOfMemory) => at_last(read(alloc, metadata, bytes, in_turn))?,
        Err(ReadStop::ReaderFault | ReadStop::TooManyReads) => {
            return Err("a reader failed".into());
        }
    };
    let is_clk = match &read.clock {
        Some(clock) => clock.as_str() == "clk",
        None => false,
    };
    Ok((read.packets.len(), read.end, is_clk))
}
