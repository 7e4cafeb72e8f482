//! What is said of the ends of stream files.

ghost use Rattle.std.specs.Prelude.{◌≡◌, IfOk, map};
ghost use Rattle.std.specs.List.{list_all};
ghost use Rattle.trace_commands.specs.Ends.{AreLines, IsEndLine, file_line, is_whole as is_whole_end, packet_line as line_of, status_of};

use crate::fault_lines::fault_line;
use crate::trace_folder::path_in;
use packet_reader::StreamEnding;
use std::alloc::{AllocError, Global};
use trace_text::PrintedFile;

/// A line for each stream file that does not end whole.
pub fn end_lines(alloc: Global, folder: &str, files: &[PrintedFile]) -> Result<Vec<u8>, AllocError>
    ensures { IfOk result (λ lines. AreLines (file_line folder.now) files.now lines.items) }
{
    let mut lines = Vec::new(alloc);
    for file in files {
        let line = end_line(alloc, folder, file.name.as_str(), file.packets, file.end)?;
        lines.extend_from_slice(line.as_slice())?;
    }
    Ok(lines)
}

/// The line of a stream file that does not end whole behind so many packets, and nothing of another one.
pub fn end_line(
    alloc: Global,
    folder: &str,
    name: &str,
    packets: u64,
    end: StreamEnding,
) -> Result<Vec<u8>, AllocError>
    ensures { IfOk result (λ line. IsEndLine folder.now name.now packets end line.items) }
{
    match end {
        StreamEnding::Whole => Ok(Vec::new(alloc)),
        StreamEnding::Torn(place) => {
            let said = "the bytes end inside the packet";
            packet_line(alloc, folder, name, packets, place, said)
        }
        StreamEnding::Faulty(fault, place) => {
            let said = format!(in alloc; "{fault}")?;
            packet_line(alloc, folder, name, packets, place, said.as_str())
        }
    }
}

/// The line of what is wrong at a place, behind so many packets.
fn packet_line(
    alloc: Global,
    folder: &str,
    name: &str,
    packets: u64,
    place: u64,
    said: &str,
) -> Result<Vec<u8>, AllocError>
    ensures { IfOk result (λ line. line.items ≡ line_of folder.now name.now packets place said.now) }
{
    let path = path_in(alloc, folder, name)?;
    let packet = packets as u128 + 1;
    let said = format!(in alloc; "packet {packet}, byte {place}: {said}")?;
    fault_line(alloc, path.as_str(), said.as_str())
}

/// The status by how stream files end.
pub fn end_status(files: &[PrintedFile]) -> u8
    ensures { result ≡ status_of (map (λ f. f.end) files.now) }
{
    if are_whole(files) { 0 } else { 1 }
}

fn are_whole(files: &[PrintedFile]) -> bool
    ensures { result ≡ list_all (λ f. is_whole_end f.end) files.now }
{
    files.iter().all(|file| is_whole(file))
}

fn is_whole(file: &PrintedFile) -> bool
    ensures { result ≡ is_whole_end file.now.end }
{
    matches!(file.end, StreamEnding::Whole)
}
