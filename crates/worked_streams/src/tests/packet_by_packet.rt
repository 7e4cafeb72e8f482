//! A stream file read packet by packet, from a reader that gives few bytes at a time or fails on the way.

ghost use Rattle.ctf_types.specs.Allowed.{IsMetadata};

use crate::tests::expected::same;
use crate::tests::stream_files::{Source, metadata_of};
use ctf_types::{ListOf, Metadata, ReadPacket, Text, Values};
use packet_reader::{ReadStop, StreamReader};
use std::alloc::{AllocError, Global};
use std::io::{Error, ErrorKind, Read, Result as ReadResult};
use std::process::Abort;
use std::test::Fail;
use worked_fixtures::SMALL;

/// Two packets of 16 bytes with two records each, of which the second is cut.
static CUT: &[u8] = &[
    0xc1, 0x1f, 0xfc, 0xc1, 0x80, 0, 0, 0, 0x70, 0, 0, 0, 1, 2, 0, 0, 0xc1, 0x1f, 0xfc, 0xc1,
];

/// A reader of these bytes that gives so many by one read. It ends, or fails, once it has given `room` of them.
#[derive(Drop)]
struct Pieces {
    bytes: &'static [u8],
    given: usize,
    piece: usize,
    room: usize,
    fails: bool,
}

impl Read for Pieces {
    fn read(&mut self, buffer: &mut [u8]) -> ReadResult<usize> {
        let end = self.room.min(self.bytes.len());
        if self.given >= end {
            if self.fails {
                return Err(Error::from(ErrorKind::BrokenPipe));
            }
            return Ok(0);
        }
        let count = (end - self.given).min(self.piece).min(buffer.len());
        let given = &self.bytes[self.given..];
        buffer[..count].copy_from_slice(&given[..count]);
        self.given += count;
        Ok(count)
    }
}

/// The number of records in the next packet; None where no packet is left.
pub fn next_records<R: Read>(reader: &mut StreamReader<'_, R>) -> Result<Option<usize>, ReadStop> {
    match reader.next_packet()? {
        Some(packet) => Ok(Some(packet.records.len())),
        None => Ok(None),
    }
}

/// Whether the packet in hand is filled again, and how many records it has then.
fn refilled(
    reader: &mut StreamReader<'_, Pieces>,
    packet: &mut ReadPacket,
) -> Result<(bool, usize), ReadStop> {
    let given = reader.next_packet_into(packet)?;
    Ok((given, packet.records.len()))
}

/// How many bytes one read gives, and how many all of them give, and whether the reader fails then; what three calls for a packet answer, and how the file ends
/// then; and the same of three calls that fill a packet in hand.
type Row = (usize, usize, bool, &'static str, &'static str);

static ROWS: &[Row] = &[
    (
        1,
        20,
        false,
        "Ok(Some(2)) Ok(None) Ok(None) Some(Torn(16))",
        "Ok((true, 2)) Ok((false, 0)) Ok((false, 0)) Some(Torn(16))",
    ),
    (
        7,
        20,
        false,
        "Ok(Some(2)) Ok(None) Ok(None) Some(Torn(16))",
        "Ok((true, 2)) Ok((false, 0)) Ok((false, 0)) Some(Torn(16))",
    ),
    (
        20,
        16,
        true,
        "Ok(Some(2)) Err(ReaderFault) Err(ReaderFault) None",
        "Ok((true, 2)) Err(ReaderFault) Err(ReaderFault) None",
    ),
];

#[test]
fn reads_few_bytes_at_a_time_and_keeps_a_fault(rt: HostRuntime) -> Result<(), Fail> {
    let metadata = metadata_of(rt.alloc(), &Source::Written(SMALL, &[]))?;
    for row in ROWS {
        answers_row(&rt, rt.alloc(), &metadata, row)?;
    }
    Ok(())
}

fn answers_row(rt: &impl Abort, alloc: Global, metadata: &Metadata, row: &Row) -> Result<(), Fail>
    requires { IsMetadata metadata.now }
{
    let (piece, room, fails, calls, fillings) = *row;
    let input = Pieces {
        bytes: CUT,
        given: 0,
        piece,
        room,
        fails,
    };
    let again = Pieces { ..input };
    let found = read_on(alloc, metadata, input)?;
    same(rt, found.as_str(), calls, (piece, room));
    let found = filled_again(alloc, metadata, again)?;
    same(rt, found.as_str(), fillings, (piece, room));
    Ok(())
}

/// What three calls for a packet answer, and how the file ends then.
fn read_on(alloc: Global, metadata: &Metadata, input: Pieces) -> Result<String, AllocError>
    requires { IsMetadata metadata.now }
{
    let name = Text::from_str(alloc, "a")?;
    let mut reader = StreamReader::new(alloc, metadata, name, input);
    let first = next_records(&mut reader);
    let second = next_records(&mut reader);
    let third = next_records(&mut reader);
    format!(in alloc; "{first:?} {second:?} {third:?} {:?}", reader.end())
}

/// What three calls that fill a packet in hand answer, and how the file ends then.
fn filled_again(alloc: Global, metadata: &Metadata, input: Pieces) -> Result<String, AllocError>
    requires { IsMetadata metadata.now }
{
    let mut packet = ReadPacket {
        stream: 0,
        begin: None,
        end: None,
        sequence: None,
        discarded: None,
        extras: Values::new(alloc),
        records: ListOf::new(alloc),
    };
    let name = Text::from_str(alloc, "a")?;
    let mut reader = StreamReader::new(alloc, metadata, name, input);
    let first = refilled(&mut reader, &mut packet);
    let second = refilled(&mut reader, &mut packet);
    let third = refilled(&mut reader, &mut packet);
    format!(in alloc; "{first:?} {second:?} {third:?} {:?}", reader.end())
}
