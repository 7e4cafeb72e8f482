//! Traces that are printed, whole and while they are read: a writer or a reader that fails on the way leaves a front of the text.

ghost use Rattle.ctf_types.specs.Allowed.{IsMetadata};

use crate::tests::expected::same;
use crate::tests::failing_readers::{ALL, Inputs, metadata_of, readers, traced};
use ctf_types::Metadata;
use std::alloc::Global;
use std::process::Abort;
use std::test::Fail;
use trace_platform::StoppingWriter;
use trace_stack::ReadTrace;
use trace_text::{PrintFault, print_trace, print_trace_from};
use tsdl_reader::read_metadata;
use worked_fixtures::CLOCKED;

/// Two files of two packets each, whose records are told in turns.
const IN_TURNS: Inputs = &[
    (
        "t1",
        "c1fc1fc1 0200 0188 000000000000000a 000000000000000c 00 00 00 000000000000000a fffe 01 000000000000000b 6f6b00 000000000000000000000000000000 c1fc1fc1 0200 0188 000000000000000d 0000000000000010 02 01 00 000000000000000e fffe 01 000000000000000f 6f6b00 000000000000000000000000000000",
    ),
    (
        "t0",
        "c1fc1fc1 0200 0188 000000000000000a 000000000000000c 00 00 00 000000000000000a fffe 01 000000000000000c 6f6b00 000000000000000000000000000000 c1fc1fc1 0200 0188 000000000000000d 0000000000000010 03 03 00 000000000000000d fffe 01 000000000000000e 6f6b00 000000000000000000000000000000",
    ),
];

/// What is printed of them: 336 bytes, of which the lines end at 25, 50, 77, 104, 129, 156, 181, 208, 272 and 336.
const PRINTED: &str = r#"clk:10 t0 a fields{n=-2}
clk:10 t1 a fields{n=-2}
clk:11 t1 b fields{s="ok"}
clk:12 t0 b fields{s="ok"}
clk:13 t0 a fields{n=-2}
clk:14 t0 b fields{s="ok"}
clk:14 t1 a fields{n=-2}
clk:15 t1 b fields{s="ok"}
stream t0: packets 2, records 4, discarded 3, gaps 1, end Whole
stream t1: packets 2, records 4, discarded 2, gaps 0, end Whole
"#;

/// The room of a writer, and the answer where the whole trace is printed into it.
static WRITERS: &[(usize, Option<PrintFault>)] = &[
    (0, Some(PrintFault::Writer)),
    (1, Some(PrintFault::Writer)),
    (24, Some(PrintFault::Writer)),
    (25, Some(PrintFault::Writer)),
    (335, Some(PrintFault::Writer)),
    (336, None),
];

#[test]
fn a_writer_that_stops_has_a_front_of_the_text(rt: HostRuntime) -> Result<(), Fail> {
    let trace = traced(rt.alloc(), CLOCKED, IN_TURNS, ALL)??;
    for (room, fault) in WRITERS {
        has_a_front(&rt, rt.alloc(), &trace, *room, *fault);
    }
    Ok(())
}

/// A writer with so much room has as much of the text.
fn has_a_front(
    rt: &impl Abort,
    alloc: Global,
    trace: &ReadTrace,
    room: usize,
    fault: Option<PrintFault>,
) {
    let mut writer = StoppingWriter::new(alloc, room, 16);
    let answer = print_trace(alloc, trace, &mut writer).err();
    let want = (fault, PRINTED.as_bytes().get(..room));
    same(rt, (answer, Some(writer.bytes.as_slice())), want, room);
}

/// How many bytes each reader gives before it fails, the room of the writer, how many bytes of the text are printed, and the answer.
static READERS: &[(&[usize], usize, usize, &str)] = &[
    (
        ALL,
        usize::MAX,
        336,
        r#"Ok([PrintedFile { name: Text { text: "t1" }, packets: 2, end: Whole }, PrintedFile { name: Text { text: "t0" }, packets: 2, end: Whole }])"#,
    ),
    (&[0, 200], usize::MAX, 0, "Err(Reader(0, ReaderFault))"),
    (&[64, 200], usize::MAX, 77, "Err(Reader(0, ReaderFault))"),
    (&[200, 100], usize::MAX, 104, "Err(Reader(1, ReaderFault))"),
    (&[200, 64], usize::MAX, 104, "Err(Reader(1, ReaderFault))"),
    (ALL, 0, 0, "Err(Writer)"),
    (ALL, 1, 1, "Err(Writer)"),
    (ALL, 24, 24, "Err(Writer)"),
    (ALL, 25, 25, "Err(Writer)"),
    (ALL, 300, 300, "Err(Writer)"),
];

#[test]
fn a_reader_that_fails_leaves_a_front(rt: HostRuntime) -> Result<(), Fail> {
    for (rooms, room, bytes, want) in READERS {
        let (text, answer) = printed(rt.alloc(), rooms, *room)?;
        let found = (Some(text.as_slice()), answer.as_str());
        let front = PRINTED.as_bytes().get(..*bytes);
        same(&rt, found, (front, *want), (*rooms, *room));
    }
    Ok(())
}

/// What is printed of the files while they are read, and the answer in words.
fn printed(alloc: Global, rooms: &[usize], room: usize) -> Result<(Vec<u8>, String), Fail> {
    let text = metadata_of(alloc, CLOCKED)?;
    let metadata = read_metadata(alloc, text.as_bytes())?;
    printed_by(alloc, &metadata, rooms, room)
}

fn printed_by(
    alloc: Global,
    metadata: &Metadata,
    rooms: &[usize],
    room: usize,
) -> Result<(Vec<u8>, String), Fail>
    requires { IsMetadata metadata.now }
{
    let streams = readers(alloc, IN_TURNS, rooms)?;
    let mut writer = StoppingWriter::new(alloc, room, 7);
    let answer = print_trace_from(alloc, metadata, streams, &mut writer);
    let said = format!(in alloc; "{answer:?}")?;
    Ok((writer.bytes, said))
}
