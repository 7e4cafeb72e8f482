//! A stream file that is read packet by packet.

ghost use Rattle.std.specs.Prelude.{IfOk};
ghost use Rattle.ctf_types.specs.Allowed.{IsMetadata};

use crate::fault::BenchFault;
use crate::record::Record;
use ctf_types::{ListOf, Metadata, ReadPacket, Text, Values};
use packet_reader::{StreamEnding, StreamReader};
use std::alloc::Global;
use std::io::Read;
use tsdl_reader::read_metadata;
use tsdl_writer::write_metadata;

/// Reads the packets of a stream file of such records, one at a time in the memory of one, and tells how many packets and records it has.
pub fn decoded<R: Read + Drop>(
    alloc: Global,
    record: Record,
    input: R,
) -> Result<String, BenchFault> {
    let metadata = metadata_of(alloc, record)?;
    let name = Text::from_str(alloc, "s")?;
    let mut reader = StreamReader::new(alloc, &metadata, name, input);
    told(alloc, &mut reader)
}

/// The metadata of such records, from its text.
fn metadata_of(alloc: Global, record: Record) -> Result<Metadata, BenchFault>
    ensures { IfOk result (λ metadata. IsMetadata metadata) }
{
    let config = record.configured(alloc)?;
    let text = write_metadata(alloc, &config)?;
    read_metadata(alloc, text.as_bytes()).map_err(|_fault| BenchFault::Configuration)
}

/// Reads on to the end, and tells how many packets and records there are.
fn told<R: Read>(alloc: Global, reader: &mut StreamReader<'_, R>) -> Result<String, BenchFault> {
    let (packets, records) = counted(alloc, reader)?;
    match reader.end() {
        Some(StreamEnding::Whole) => {
            Ok(format!(in alloc; "{packets} packets, {records} records\n")?)
        }
        _ => Err(BenchFault::Input),
    }
}

/// How many packets are read until the file's end, and how many records stand in them.
fn counted<R: Read>(
    alloc: Global,
    reader: &mut StreamReader<'_, R>,
) -> Result<(u64, u64), BenchFault> {
    let mut packet = no_packet(alloc);
    let mut records: u64 = 0;
    for packets in 0..u64::MAX {
        match reader.next_packet_into(&mut packet) {
            Ok(true) => records = records.saturating_add(packet.records.len() as u64),
            Ok(false) => return Ok((packets, records)),
            Err(_) => return Err(BenchFault::Input),
        }
    }
    Err(BenchFault::Input)
}

fn no_packet(alloc: Global) -> ReadPacket {
    ReadPacket {
        stream: 0,
        begin: None,
        end: None,
        sequence: None,
        discarded: None,
        extras: Values::new(alloc),
        records: ListOf::new(alloc),
    }
}
