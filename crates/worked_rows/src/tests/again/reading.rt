//! The trace of a session, read from bytes and from readers, and printed.

use super::at_last;
use crate::tests::expected::same;
use std::alloc::Global;
use std::process::Abort;
use std::test::Fail;
use trace_stack::{ReadTrace, TraceFault, read_trace, read_trace_from};
use trace_text::{PrintFault, print_trace};
use worked_fixtures::granted;

type File = (String, Vec<u8>);

/// What is printed of the trace: the event records of a stream without a clock stand last.
const PRINTED: &str = r#"clk:10 q a fields{n=-2}
clk:11 q b fields{s="ok"}
- p e fields{v=1}
- p e fields{v=2}
- p e fields{v=4}
stream f: packets 0, records 0, discarded -, gaps -, end Whole
stream p: packets 2, records 3, discarded 1, gaps -, end Whole
stream q: packets 1, records 2, discarded 0, gaps 0, end Whole
"#;

pub fn prints_from_bytes(
    rt: &impl Abort,
    alloc: Global,
    metadata: &str,
    files: &[File],
) -> Result<(), Fail> {
    let trace = trace_of(alloc, metadata, files)?;
    prints(rt, alloc, &trace)
}

fn trace_of(alloc: Global, metadata: &str, files: &[File]) -> Result<ReadTrace, Fail> {
    match read_trace(alloc, metadata.as_bytes(), files) {
        Ok(trace) => Ok(trace),
        Err(TraceFault::OutOfMemory) => at_last(read_trace(alloc, metadata.as_bytes(), files)),
        Err(_) => Err("another fault".into()),
    }
}

pub fn prints_from_readers(
    rt: &impl Abort,
    alloc: Global,
    metadata: &str,
    files: &[File],
) -> Result<(), Fail> {
    let trace = trace_from(alloc, metadata, files)?;
    prints(rt, alloc, &trace)
}

/// The same from readers, which are made anew.
fn trace_from(alloc: Global, metadata: &str, files: &[File]) -> Result<ReadTrace, Fail> {
    let streams = readers(alloc, files)?;
    match read_trace_from(alloc, metadata.as_bytes(), streams) {
        Ok(trace) => Ok(trace),
        Err(TraceFault::OutOfMemory) => {
            let streams = readers(alloc, files)?;
            at_last(read_trace_from(alloc, metadata.as_bytes(), streams))
        }
        Err(_) => Err("another fault".into()),
    }
}

fn readers<'f>(alloc: Global, files: &'f [File]) -> Result<Vec<(String, &'f [u8])>, Fail> {
    let mut streams = Vec::new(alloc);
    for (name, bytes) in files {
        streams.push((String::from_str(alloc, name.as_str())?, bytes.as_slice()))?;
    }
    Ok(streams)
}

/// All of the trace is printed. A refused call printed a front of it.
fn prints(rt: &impl Abort, alloc: Global, trace: &ReadTrace) -> Result<(), Fail> {
    let mut text = granted(Vec::with_capacity(alloc, PRINTED.len()))?;
    match print_trace(alloc, trace, &mut text) {
        Ok(()) => {}
        Err(PrintFault::Writer) => return Err("a list that takes no more".into()),
        Err(PrintFault::OutOfMemory) => {
            let front = PRINTED.as_bytes().get(..text.len());
            same(rt, Some(text.as_slice()), front, "a front of the text");
            text.clear();
            at_last(print_trace(alloc, trace, &mut text))?;
        }
    }
    same(rt, text.as_slice(), PRINTED.as_bytes(), "the printed text");
    Ok(())
}
