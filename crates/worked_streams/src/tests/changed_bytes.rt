//! Every cut of a stream file, and every file that differs from it in one byte: a reader ends with the packets before the fault.

ghost use Rattle.std.specs.Prelude.{◌≡◌, ◌<◌, length};
ghost use Rattle.ctf_types.specs.Allowed.{IsMetadata};

use crate::tests::expected::same;
use crate::tests::stream_files::{Source, ending, metadata_of};
use ctf_types::Metadata;
use packet_reader::StreamEnding;
use std::alloc::Global;
use std::process::Abort;
use std::test::Fail;
use worked_fixtures::{CLOCKED, Changes, SMALL, bytes_of};

const SEQUENCE: Changes = &[(
    "PAYLOAD",
    r#"[{"x":{"field-type":{"class":"uint","size":8}}},{"a":{"field-type":{"class":"dynamic-array","element-field-type":{"class":"uint","size":32,"alignment":32}}}},{"b":{"field-type":{"class":"uint","size":8}}}]"#,
)];

const TEXT: Changes = &[("PAYLOAD", r#"[{"s":{"field-type":{"class":"str"}}}]"#)];

/// What metadata is read from, and a file of one packet.
static FILES: &[(Source, &str)] = &[
    (
        Source::Written(SMALL, &[]),
        "c11ffcc1 80000000 70000000 01020000",
    ),
    (
        Source::Written(SMALL, SEQUENCE),
        "c11ffcc1 c0000000 a8000000 01000000 00000000 02000000",
    ),
    (
        Source::Written(SMALL, TEXT),
        "c11ffcc1 80000000 80000000 00486900",
    ),
    (
        Source::Written(CLOCKED, &[]),
        "c1fc1fc1 0200 0188 000000000000000a 000000000000000c 00 00 00 000000000000000a fffe 01 000000000000000b 6f6b00 000000000000000000000000000000",
    ),
];

#[test]
fn reads_files_that_are_cut_or_changed(rt: HostRuntime) -> Result<(), Fail> {
    for (source, digits) in FILES {
        reads_file(&rt, rt.alloc(), source, digits)?;
    }
    Ok(())
}

fn reads_file(rt: &impl Abort, alloc: Global, source: &Source, digits: &str) -> Result<(), Fail> {
    let mut file = bytes_of(alloc, digits)?;
    let metadata = metadata_of(alloc, source)?;
    reads_each_place(rt, alloc, &metadata, file.as_mut_slice())
}

fn reads_each_place(
    rt: &impl Abort,
    alloc: Global,
    metadata: &Metadata,
    file: &mut [u8],
) -> Result<(), Fail>
    requires { IsMetadata metadata.now }
{
    for place in 0..file.len() {
        reads_each_byte(rt, alloc, metadata, file, place)?;
    }
    Ok(())
}

/// The front of the file up to a place has no packet, and only the empty one is whole. With another byte there the file has its packet or none; where it has
/// none it is not whole.
fn reads_each_byte(
    rt: &impl Abort,
    alloc: Global,
    metadata: &Metadata,
    file: &mut [u8],
    place: usize,
) -> Result<(), Fail>
    requires place { place < length file.old }
    requires metadata { IsMetadata metadata.now }
    ensures { length file.new ≡ length file.old }
{
    let (packets, end) = ending(alloc, metadata, &file[..place], false)?;
    let is_whole = end == StreamEnding::Whole;
    same(rt, (packets, is_whole), (0, place == 0), place);
    let own = file[place];
    for byte in 0..=255 {
        file[place] = byte;
        let (packets, end) = ending(alloc, metadata, file, false)?;
        let is_none = packets == 0 && end != StreamEnding::Whole;
        same(rt, packets == 1 || is_none, true, (byte, place));
    }
    file[place] = own;
    Ok(())
}
