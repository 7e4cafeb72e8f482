//! What is read of stream files, in lines.

use ctf_types::{Metadata, ReadPacket, Record};
use packet_reader::{ReadStream, gaps};
use std::alloc::{AllocError, Global};

/// A line for each stream file, and under it one for each packet and each event record.
pub fn shown_streams(
    alloc: Global,
    metadata: &Metadata,
    streams: &[ReadStream],
) -> Result<String, AllocError> {
    let mut text = String::new(alloc);
    for stream in streams {
        text.push_str(shown_stream(alloc, metadata, stream)?.as_str())?;
    }
    Ok(text)
}

fn shown_stream(
    alloc: Global,
    metadata: &Metadata,
    stream: &ReadStream,
) -> Result<String, AllocError> {
    let name = stream.name.as_str();
    let clock = stream.clock.as_ref().map_or("-", |clock| clock.as_str());
    let gaps = gaps(metadata, stream);
    let mut text = format!(in alloc;
        "{name}: clock {clock}, gaps {gaps:?}, end {:?}\n",
        stream.end
    )?;
    for packet in stream.packets.as_slice() {
        text.push_str(shown_packet(alloc, packet)?.as_str())?;
    }
    Ok(text)
}

fn shown_packet(alloc: Global, packet: &ReadPacket) -> Result<String, AllocError> {
    let mut text = format!(in alloc;
        "  packet of {}: begin {:?}, end {:?}, number {:?}, discarded {:?}, extras {:?}\n",
        packet.stream,
        packet.begin,
        packet.end,
        packet.sequence,
        packet.discarded,
        packet.extras.as_slice()
    )?;
    for record in packet.records.as_slice() {
        text.push_str(shown_record(alloc, record)?.as_str())?;
    }
    Ok(text)
}

fn shown_record(alloc: Global, record: &Record) -> Result<String, AllocError> {
    format!(in alloc;
        "    event {}: clock {:?}, {:?} {:?} {:?}\n",
        record.event,
        record.clock,
        record.common.as_slice(),
        record.specific.as_slice(),
        record.payload.as_slice()
    )
}
