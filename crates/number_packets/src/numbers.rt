//! The first path: numbers become packets, are printed, and are read back.

ghost use Rattle.std.specs.Prelude.{IfOk, string_bytes};
ghost use Rattle.std.specs.List.{concat};
ghost use Rattle.packet_reader.specs.StreamReading.{Reads};
ghost use Rattle.number_packets.specs.FirstPath.{AreBytes, IsAnswer, IsTraced, pieces_of};
ghost use Rattle.number_packets.specs.SmallConfiguration as small;

use crate::lines::{LineFault, read_numbers};
use crate::packets::{joined_bytes, trace_values, values_of};
use crate::printed::{bad_line, print_packets, print_values};
use crate::small_configuration::small_metadata;
use ctf_types::Text;
use packet_reader::{ReadStream, read_stream};
use packet_writer::Packet;
use std::alloc::{AllocError, Global};

/// A stream file is shorter than this, in bytes.
const LONGEST_STREAM: usize = 1 << 61;

/// What is printed, what is said of faults, and the status.
#[derive(Drop)]
pub struct Answer {
    pub output: String,
    pub errors: Vec<u8>,
    pub status: u8,
}

/// Traces the numbers of a text, one a line: the packets in hexadecimal and the values that a reader finds in them are printed, with status 0;
/// or the first bad line alone is said, with status 1.
pub fn answer_to_numbers(alloc: Global, text: &[u8]) -> Result<Answer, AllocError>
    ensures { IfOk result (λ a. IsAnswer text.now (string_bytes a.output) a.errors.items a.status) }
{
    match read_numbers(alloc, text) {
        Ok(values) => Ok(Answer {
            output: traced_text(alloc, values.as_slice())?,
            errors: Vec::new(alloc),
            status: 0,
        }),
        Err(LineFault::Bad(line)) => Ok(Answer {
            output: String::new(alloc),
            errors: bad_line(alloc, line)?.into_bytes(),
            status: 1,
        }),
        Err(LineFault::OutOfMemory) => Err(AllocError),
    }
}

/// The packets of the values, one a line, and the values that a reader finds in their bytes.
fn traced_text(alloc: Global, values: &[u8]) -> Result<String, AllocError>
    ensures { IfOk result (λ text. IsTraced values.now (string_bytes text)) }
{
    let packets = trace_values(alloc, values)?;
    let read = read_back(alloc, packets.as_slice())?;
    let found = values_of(alloc, read.packets.as_slice())?;
    let mut text = String::new(alloc);
    print_packets(alloc, &mut text, packets.as_slice())?;
    print_values(alloc, &mut text, found.as_slice())?;
    Ok(text)
}

/// What a reader finds in the bytes of the packets.
fn read_back(alloc: Global, packets: &[Packet]) -> Result<ReadStream, AllocError>
    ensures reads { IfOk result (λ s. Reads small.small_metadata (concat (pieces_of packets.now)) s.packets s.end) }
    ensures bytes { IfOk result (λ s. AreBytes (concat (pieces_of packets.now))) }
{
    let bytes = joined_bytes(alloc, packets)?;
    read_bytes(alloc, bytes.as_slice())
}

/// What a reader finds in the bytes of a stream file of the small configuration.
pub fn read_bytes(alloc: Global, bytes: &[u8]) -> Result<ReadStream, AllocError>
    ensures reads { IfOk result (λ s. Reads small.small_metadata bytes.now s.packets s.end) }
    ensures bytes { AreBytes bytes.now }
{
    let metadata = small_metadata(alloc)?;
    if bytes.len() >= LONGEST_STREAM {
        return Err(AllocError);
    }
    read_stream(alloc, &metadata, Text::from_str(alloc, "s")?, bytes)
}
