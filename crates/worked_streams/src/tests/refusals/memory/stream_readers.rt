//! Readers of stream files. A reader that stopped for want of memory answers the same from then on.

ghost use Rattle.ctf_types.specs.Allowed.{IsMetadata};

use super::super::{FILE, METADATA, OUT_OF_MEMORY};
use crate::tests::expected::same;
use crate::tests::packet_by_packet::next_records;
use crate::tests::stream_files::metadata_of;
use ctf_types::{Metadata, Text};
use packet_reader::{ReadStop, StreamEnding, StreamReader};
use std::alloc::Global;
use std::process::Abort;
use std::test::Fail;
use worked_fixtures::bytes_of;

/// The next packet, or None; where memory is wanting each later call says so too, and no end is told.
fn goes_on(
    rt: &impl Abort,
    reader: &mut StreamReader<'_, &[u8]>,
    want: Option<usize>,
) -> Result<(), Fail> {
    let answer = next_records(reader);
    if answer == Err(ReadStop::OutOfMemory) {
        same(rt, next_records(reader), answer, "a stopped reader");
        same(rt, next_records(reader), answer, "a stopped reader");
        same(rt, reader.end(), None, "the end of a stopped reader");
        return Err(Fail::new(OUT_OF_MEMORY));
    }
    same(rt, answer, Ok(want), "a packet");
    Ok(())
}

#[test]
fn reads_packet_by_packet(rt: HostRuntime) -> Result<(), Fail> {
    let metadata = metadata_of(rt.alloc(), &METADATA)?;
    reads_by(&rt, rt.alloc(), &metadata)
}

fn reads_by(rt: &impl Abort, alloc: Global, metadata: &Metadata) -> Result<(), Fail>
    requires { IsMetadata metadata.now }
{
    let bytes = bytes_of(alloc, FILE)?;
    let name = Text::from_str(alloc, "t0")?;
    let mut reader = StreamReader::new(alloc, metadata, name, bytes.as_slice());
    reads_to_the_end(rt, &mut reader)
}

fn reads_to_the_end(rt: &impl Abort, reader: &mut StreamReader<'_, &[u8]>) -> Result<(), Fail> {
    for want in [Some(2), None, None] {
        goes_on(rt, reader, want)?;
    }
    same(rt, reader.end(), Some(StreamEnding::Whole), "the end");
    Ok(())
}
