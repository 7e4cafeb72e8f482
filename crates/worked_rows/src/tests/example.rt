//! The library as its user calls it: one stream is traced, and its file is read back.

use crate::tests::expected::same;
use conf_check::configure;
use ctf_types::{Args, Value, Values};
use packet_reader::{ReadStream, StreamEnding};
use std::alloc::Global;
use std::process::Abort;
use std::test::Fail;
use thread_stream::Verdict;
use trace_platform::{ListBackEnd, ListClock, MemorySink};
use trace_stack::{Act, Answer, Event, FinishedSession, Session, read_trace, run_events};

type Listed = Session<ListClock, ListBackEnd, MemorySink>;

type Files = Vec<(String, Vec<u8>)>;

const CONFIGURATION: &str = r#"{"trace": {"type": {
  "trace-byte-order": "little-endian",
  "clock-types": {"monotonic": {}},
  "data-stream-types": {"main": {
    "$default-clock-type-name": "monotonic",
    "event-record-types": {"temperature": {"payload-field-type": {
      "class": "structure",
      "members": [{"degrees": {"field-type": {"class": "signed-integer", "size": 16}}}]
    }}}
  }}
}}}"#;

#[test]
fn traces_a_stream_and_reads_it_back(rt: HostRuntime) -> Result<(), Fail> {
    let (metadata, files) = recorded(&rt, rt.alloc())?;
    reads_back(&rt, rt.alloc(), metadata.as_str(), &files)
}

fn reads_back(
    rt: &impl Abort,
    alloc: Global,
    metadata: &str,
    files: &[(String, Vec<u8>)],
) -> Result<(), Fail> {
    let trace = read_trace(alloc, metadata.as_bytes(), files)?;
    have_one_packet(rt, trace.streams.as_slice());
    Ok(())
}

fn have_one_packet(rt: &impl Abort, streams: &[ReadStream]) {
    for read in streams {
        same(rt, read.end, StreamEnding::Whole, "end");
        same(rt, read.packets.len(), 1, "packets");
    }
}

/// What a reader needs of a session: the metadata, and the stream files by their names.
fn recorded(rt: &impl Abort, alloc: Global) -> Result<(String, Files), Fail> {
    let mut session = Session::new(alloc, configure(alloc, CONFIGURATION.as_bytes(), None)?);
    let metadata = driven(rt, alloc, &mut session)?;
    let files = files_of(alloc, session)?;
    Ok((metadata, files))
}

fn driven(rt: &impl Abort, alloc: Global, session: &mut Listed) -> Result<String, Fail> {
    add_and_trace(rt, alloc, session)?;
    Ok(session.metadata()?)
}

fn add_and_trace(rt: &impl Abort, alloc: Global, session: &mut Listed) -> Result<(), Fail> {
    let clock = ListClock::new(vec![in alloc; 10, 11]?).ok_or("readings that fall")?;
    let back_end = ListBackEnd::new(alloc, 4, 4096)?;
    let sink = MemorySink::new(alloc);
    let added = session.add_stream("room", "main", clock, back_end, sink, Values::new(alloc));
    let stream = added.map_err(|refused| refused.fault)?;

    let args = Args {
        common: Values::new(alloc),
        specific: Values::new(alloc),
        payload: Values::from_vec(vec![in alloc; Value::Signed(-2)]?),
    };
    let act = Act::Trace(0, args);
    let answers = run_events(session, &[Event { stream, act }])?;
    let want = [Answer::Traced(Verdict::Accepted(Some(10)))];
    same(rt, answers.as_slice(), want.as_slice(), "answers");
    Ok(())
}

fn files_of(alloc: Global, session: Listed) -> Result<Files, Fail> {
    match session.finish_all() {
        Ok(finished) => named(alloc, finished),
        Err(_) => Err("out of memory".into()),
    }
}

fn named(alloc: Global, finished: FinishedSession<MemorySink>) -> Result<Files, Fail> {
    let mut files = Vec::new(alloc);
    for sink in finished.sinks {
        files.push((String::from_str(alloc, "room")?, sink.into_bytes()))?;
    }
    Ok(files)
}
