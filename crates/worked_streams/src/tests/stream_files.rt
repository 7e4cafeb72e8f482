//! Metadata, from texts of its own or from those that are written of configurations, and what a reader finds by it in the bytes of a file.

ghost use Rattle.std.specs.Prelude.{IfOk};
ghost use Rattle.ctf_types.specs.Allowed.{IsMetadata};

use ctf_types::{Config, Metadata, Text};
use packet_reader::{ReadStop, ReadStream, StreamEnding, read_stream, read_stream_from};
use std::alloc::Global;
use std::test::Fail;
use tsdl_reader::read_metadata;
use tsdl_writer::write_metadata;
use worked_fixtures::{Changes, changed, configured};

/// One stream with one kind of event record, which is a byte. No configuration has just this metadata.
const ELSEWHERE: &str =
    r#"/* CTF 1.8 */ trace { major = 1; minor = 8; byte_order = le; packet.header := struct { integer { size = 32; } magic; }; }; stream { id = 0; packet.context := struct { integer { size = 32; } packet_size; integer { size = 32; } content_size; }; event.header := struct { }; }; event { name = "e"; id = 0; stream_id = 0; fields := struct { integer { size = 8; } v; }; };"#;

/// What metadata is read from.
pub enum Source {
    /// `ELSEWHERE` with these changes.
    Elsewhere(Changes),
    /// The text that is written of this configuration with these changes.
    Written(&'static str, Changes),
}

/// The metadata that is read from this source.
pub fn metadata_of(alloc: Global, source: &Source) -> Result<Metadata, Fail>
    ensures { IfOk result (λ m. IsMetadata m) }
{
    let text = metadata_text(alloc, source)?;
    let metadata = read_metadata(alloc, text.as_bytes())?;
    Ok(metadata)
}

fn metadata_text(alloc: Global, source: &Source) -> Result<String, Fail> {
    match source {
        Source::Elsewhere(changes) => Ok(changed(alloc, ELSEWHERE, *changes)?),
        Source::Written(text, changes) => written(alloc, changed(alloc, text, *changes)?.as_str()),
    }
}

fn written(alloc: Global, text: &str) -> Result<String, Fail> {
    let config = configured(alloc, text, None)?;
    text_of(alloc, &config)
}

fn text_of(alloc: Global, config: &Config) -> Result<String, Fail> {
    Ok(write_metadata(alloc, config)?)
}

/// What a reader finds in these bytes, all at once or packet by packet.
pub fn read(
    alloc: Global,
    metadata: &Metadata,
    bytes: &[u8],
    in_turn: bool,
) -> Result<ReadStream, ReadStop>
    requires { IsMetadata metadata.now }
{
    let name = Text::from_str(alloc, "a")?;
    if in_turn {
        read_stream_from(alloc, metadata, name, bytes)
    } else {
        Ok(read_stream(alloc, metadata, name, bytes)?)
    }
}

/// How many packets a reader finds in these bytes, and how they end.
pub fn ending(
    alloc: Global,
    metadata: &Metadata,
    bytes: &[u8],
    in_turn: bool,
) -> Result<(usize, StreamEnding), Fail>
    requires { IsMetadata metadata.now }
{
    let read = read(alloc, metadata, bytes, in_turn)?;
    Ok((read.packets.len(), read.end))
}

/// The same by the metadata of this source.
pub fn ending_of(
    alloc: Global,
    source: &Source,
    bytes: &[u8],
    in_turn: bool,
) -> Result<(usize, StreamEnding), Fail> {
    let metadata = metadata_of(alloc, source)?;
    ending(alloc, &metadata, bytes, in_turn)
}
