//! The lines of the stream files.

ghost use Rattle.std.specs.Prelude.{◌≡◌, ◌++◌, codes};
ghost use Rattle.std.specs.Fmt.{decimal};
ghost use Rattle.trace_text.specs.PrintedPages.{Says};
ghost use Rattle.trace_text.specs.PrintedStreams.{counted_line, end_text, fault_word, last_discarded, record_count, stream_line};

use crate::printing_numbers::{say_count, say_optional_count};
use crate::printing_page::{Page, say};
use crate::printing_texts::say_name;
use crate::stream_counts::StreamCounts;
use ctf_types::{Metadata, ReadPacket, Text};
use packet_reader::{PacketFault, ReadStream, StreamEnding, gaps};
use std::io::Write;

/// The line of a stream file.
pub(crate) fn say_stream<W: Write>(
    writer: &mut W,
    page: &mut Page,
    metadata: &Metadata,
    stream: &ReadStream,
)
    ensures { Says (W.contents writer.old) page.old (W.contents writer.new) page.new (stream_line metadata.now stream.now) }
{
    let packets = stream.packets.as_slice();
    let counts = StreamCounts {
        packets: packets.len() as u64,
        records: record_count(packets),
        discarded: last_discarded(packets),
        gaps: gaps(metadata, stream),
    };
    say_line(writer, page, &stream.name, counts, stream.end);
}

/// The line of a stream file of this name, of which this is told.
pub(crate) fn say_line<W: Write>(
    writer: &mut W,
    page: &mut Page,
    name: &Text,
    counts: StreamCounts,
    end: StreamEnding,
)
    ensures { Says (W.contents writer.old) page.old (W.contents writer.new) page.new (counted_line name.now counts end) }
{
    say(writer, page, "stream ");
    say_name(writer, page, name);
    say(writer, page, ": packets ");
    say_count(writer, page, u128::from(counts.packets));
    say(writer, page, ", records ");
    say_count(writer, page, counts.records);
    say(writer, page, ", discarded ");
    say_optional_count(writer, page, counts.discarded);
    say(writer, page, ", gaps ");
    say_optional_count(writer, page, counts.gaps);
    say(writer, page, ", end ");
    say_end(writer, page, end);
    say(writer, page, "\n");
}

fn record_count(packets: &[ReadPacket]) -> u128
    ensures { result ≡ record_count packets.now }
{
    let mut count = 0;
    for packet in packets {
        count += packet.records.len() as u128;
    }
    count
}

fn last_discarded(packets: &[ReadPacket]) -> Option<u64>
    ensures { result ≡ last_discarded packets.now }
{
    packets.get(packets.len().saturating_sub(1))?.discarded
}

fn say_end<W: Write>(writer: &mut W, page: &mut Page, end: StreamEnding)
    ensures { Says (W.contents writer.old) page.old (W.contents writer.new) page.new (end_text end) }
{
    match end {
        StreamEnding::Whole => say(writer, page, "Whole"),
        StreamEnding::Torn(place) => say_place(writer, page, "Torn", place),
        StreamEnding::Faulty(fault, place) => say_place(writer, page, fault_word(fault), place),
    }
}

/// A word and a place in parentheses.
fn say_place<W: Write>(writer: &mut W, page: &mut Page, word: &str, place: u64)
    ensures { Says (W.contents writer.old) page.old (W.contents writer.new) page.new (word.now ++ codes "(" ++ decimal place ++ codes ")") }
{
    say(writer, page, word);
    say(writer, page, "(");
    say_count(writer, page, u128::from(place));
    say(writer, page, ")");
}

fn fault_word(fault: PacketFault) -> &'static str
    ensures { result.now ≡ fault_word fault }
{
    match fault {
        PacketFault::Magic => "P1",
        PacketFault::Identity => "P2",
        PacketFault::Stream => "P3",
        PacketFault::UnknownEvent => "P4",
        PacketFault::Sizes => "P5",
        PacketFault::Record => "P6",
        PacketFault::Clock => "P7",
    }
}
