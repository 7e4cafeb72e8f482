//! A session of three streams: a sink that faults at its first packet, streams of two types with back ends of two sizes, and other extra members in the middle.
//! And one of two streams of the small configuration, of which the first one's sink faults.

ghost use Rattle.std.specs.Prelude.{◌≡◌, [], IfOk};
ghost use Rattle.ctf_types.specs.AllowedConfig.{IsConfig};

use super::at_last;
use crate::tests::expected::same;
use crate::tests::session_steps::{Listed, TWO_TYPES, are_below, back_end, clock, sink};
use conf_check::configure;
use ctf_types::Config;
use std::alloc::Global;
use std::process::Abort;
use std::test::Fail;
use thread_stream::StreamFault;
use trace_platform::{ListBackEnd, ListClock, ScriptedSink};
use trace_stack::{Act, AddFault, Answer, Event, FinishedSession, NotAdded, Session, run_events};
use trace_text::{ScriptFaultKind, read_script};
use worked_fixtures::{
    SMALL, bytes_of, call_in_words, changed, configuration, granted, values_in_words,
};

/// What a stream is made from, and what its sink has in the end, in hexadecimal.
struct Source {
    name: &'static str,
    type_name: &'static str,
    readings: &'static [u64],
    buffers: usize,
    bytes: usize,
    extras: &'static str,
    faults: bool,
    file: &'static str,
}

/// What a session is made from, the calls of its streams, and what they answer.
pub struct Run {
    /// The text of a configuration, in which the plain words of `SMALL` may stand.
    text: &'static str,
    sources: &'static [Source],
    /// A script with the calls.
    script: &'static str,
    answers: &'static str,
    /// What is answered where the second stream then is to have an extra member that does not fit and one that does, is collected and traces, where it does so.
    others: Option<&'static str>,
    /// How the streams are finished.
    ends: &'static str,
}

/// Of three streams.
pub static ALL: Run = Run {
    text: TWO_TYPES,
    sources: SOURCES,
    script: SCRIPT,
    answers: ANSWERS,
    others: Some(OTHERS),
    ends: "[Faulted, Settled, Settled]",
};

/// The first stream's sink faults at once, and the second stream has its packet.
pub static BESIDE: Run = Run {
    text: SMALL,
    sources: TWO_SOURCES,
    script: r#"{"streams":[{"name":"a","type":"s"},{"name":"b","type":"s"}],"events":[{"open":"a"},{"close":"a"},{"collect":"a"},{"collect":"a"},{"trace":"b","event":"e","payload":[1]},{"trace":"b","event":"e","payload":[2]}]}"#,
    answers: "[Packet(Done), Packet(Done), Collected(Faulted), Collected(Faulted), Traced(Accepted(None)), Traced(Accepted(None))]",
    others: None,
    ends: "[Faulted, Settled]",
};

const TWO_SOURCES: &[Source] = &[
    Source {
        name: "a",
        type_name: "s",
        readings: &[],
        buffers: 2,
        bytes: 16,
        extras: "",
        faults: true,
        file: "",
    },
    Source {
        name: "b",
        type_name: "s",
        readings: &[],
        buffers: 2,
        bytes: 16,
        extras: "",
        faults: false,
        file: "c11ffcc1 80000000 70000000 01020000",
    },
];

/// A packet of `p` has room for two event records, and its back end for one packet.
const SOURCES: &[Source] = &[
    Source {
        name: "f",
        type_name: "plain",
        readings: &[],
        buffers: 2,
        bytes: 17,
        extras: "0",
        faults: true,
        file: "",
    },
    Source {
        name: "p",
        type_name: "plain",
        readings: &[],
        buffers: 1,
        bytes: 17,
        extras: "3",
        faults: false,
        file: "c11ffcc1 00 88000000 88000000 00 03 01 02 c11ffcc1 00 88000000 80000000 01 07 04 00",
    },
    Source {
        name: "q",
        type_name: "timed",
        readings: &[10, 11, 12],
        buffers: 2,
        bytes: 64,
        extras: "",
        faults: false,
        file: "c11ffcc1 01 00020000 b0010000 0a00000000000000 0c00000000000000 00 00 00 0a00000000000000 feff 01 0b00000000000000 6f6b00 00000000000000000000",
    },
];

/// The streams, and calls of them by turns. The sink of `f` faults, and the others go on.
const SCRIPT: &str =
    r#"{"streams":[{"name":"f","type":"plain"},{"name":"p","type":"plain"},{"name":"q","type":"timed"}],"events":[{"open":"f"},{"trace":"p","event":"e","payload":[1]},{"close":"f"},{"collect":"f"},{"trace":"q","event":"a","payload":[-2]},{"collect":"f"},{"collect":"q"},{"trace":"p","event":"e","payload":[2]},{"trace":"p","event":"e","payload":[3]},{"disable":"q"},{"trace":"q","event":"a","payload":[5]},{"enable":"q"},{"trace":"q","event":"b","payload":["ok"]},{"close":"q"},{"collect":"q"},{"collect":"q"},{"trace":"q","event":"a","payload":[5]}]}"#;

/// What they answer.
const ANSWERS: &str =
    "[Packet(Done), Traced(Accepted(None)), Packet(Done), Collected(Faulted), Traced(Accepted(Some(10))), Collected(Faulted), Collected(Nothing), Traced(Accepted(None)), Traced(Discarded(BackEndFull)), Set, Traced(Disabled), Set, Traced(Accepted(Some(11))), Packet(Done), Collected(Took(0)), Collected(Nothing), Traced(Discarded(ClockSpent))]";

const OTHERS: &str = "[NotSet(BadExtras(Range)), Set, Collected(Took(0)), Traced(Accepted(None))]";

/// A stream file by its name.
pub type Files = Vec<(String, Vec<u8>)>;

type Refused = NotAdded<ListClock, ListBackEnd, ScriptedSink>;

/// The metadata of a session, and the stream files behind its calls.
pub fn recorded(rt: &impl Abort, alloc: Global, run: &Run) -> Result<(String, Files), Fail> {
    let mut session = Session::new(alloc, config(alloc, run)?);
    let metadata = driven(rt, alloc, &mut session, run)?;
    let files = files_of(rt, alloc, session, run)?;
    Ok((metadata, files))
}

fn config(alloc: Global, run: &Run) -> Result<Config, Fail>
    ensures { IfOk result (λ c. IsConfig c) }
{
    let text = granted(changed(alloc, run.text, &[]))?;
    match configure(alloc, text.as_bytes(), None) {
        Ok(config) => Ok(config),
        Err(fault) if fault.is_memory() => configuration(alloc, text.as_str()),
        Err(fault) => Err(Fail::new(fault)),
    }
}

/// The metadata of a session that takes the streams and their calls.
fn driven(rt: &impl Abort, alloc: Global, session: &mut Listed, run: &Run) -> Result<String, Fail> {
    for source in run.sources {
        adds(alloc, session, source)?;
    }
    answers(rt, alloc, session, script_events(alloc, run)?, run.answers)?;
    if let Some(others) = run.others {
        answers(rt, alloc, session, other_extras(alloc)?, others)?;
    }
    metadata(session)
}

fn adds(alloc: Global, session: &mut Listed, source: &Source) -> Result<(), Fail> {
    let clock = clock(alloc, source.readings)?;
    let back_end = back_end(alloc, source.buffers, source.bytes)?;
    let sink = sink(alloc, source.faults)?;
    let extras = values_in_words(alloc, source.extras)?;
    match session.add_stream(source.name, source.type_name, clock, back_end, sink, extras) {
        Ok(_) => Ok(()),
        Err(refused) => added_again(session, source, refused),
    }
}

/// The stream that was refused, added with what was handed back.
fn added_again(session: &mut Listed, source: &Source, refused: Refused) -> Result<(), Fail>
    requires { refused.back_end.waiting ≡ [] }
{
    if refused.fault != AddFault::Stream(StreamFault::OutOfMemory) {
        return Err("another refusal".into());
    }
    let NotAdded {
        fault: _,
        clock,
        back_end,
        sink,
        extras,
    } = refused;
    match session.add_stream(source.name, source.type_name, clock, back_end, sink, extras) {
        Ok(_) => Ok(()),
        Err(_) => Err("a second refusal".into()),
    }
}

/// The events of the script.
fn script_events(alloc: Global, run: &Run) -> Result<Vec<Event>, Fail> {
    let config = config(alloc, run)?;
    events_by(alloc, &config, run.script)
}

fn events_by(alloc: Global, config: &Config, script: &str) -> Result<Vec<Event>, Fail> {
    match read_script(alloc, config, script.as_bytes()) {
        Ok(script) => Ok(script.events.into_vec()),
        Err(fault) if fault.kind == ScriptFaultKind::OutOfMemory => {
            let script = at_last(read_script(alloc, config, script.as_bytes()))?;
            Ok(script.events.into_vec())
        }
        Err(fault) => Err(Fail::new(fault.kind)),
    }
}

/// Other extra members for the second stream, a collection, and an event record behind it.
fn other_extras(alloc: Global) -> Result<Vec<Event>, Fail> {
    let stream = 1;
    let wide = Act::Extras(values_in_words(alloc, "256")?);
    let other = Act::Extras(values_in_words(alloc, "7")?);
    let (number, args) = call_in_words(alloc, "0 4")?;
    let taken = Act::Collect;
    let act = Act::Trace(number, args);
    Ok(vec![in alloc;
        Event { stream, act: wide },
        Event { stream, act: other },
        Event { stream, act: taken },
        Event { stream, act },
    ]?)
}

/// The session answers these events so.
fn answers(
    rt: &impl Abort,
    alloc: Global,
    session: &mut Listed,
    events: Vec<Event>,
    want: &str,
) -> Result<(), Fail> {
    let answers = ran(session, events.as_slice())?;
    let found = granted(format!(in alloc; "{:?}", answers.as_slice()))?;
    same(rt, found.as_str(), want, "answers");
    Ok(())
}

/// What the events answer.
fn ran(session: &mut Listed, events: &[Event]) -> Result<Vec<Answer>, Fail> {
    if !are_below(events, session.stream_count()) {
        return Err("no such stream".into());
    }
    match run_events(session, events) {
        Ok(answers) => Ok(answers),
        Err(_) => ran_again(session, events),
    }
}

/// What they answer where nothing has run.
fn ran_again(session: &mut Listed, events: &[Event]) -> Result<Vec<Answer>, Fail> {
    if !are_below(events, session.stream_count()) {
        return Err("no such stream".into());
    }
    at_last(run_events(session, events))
}

fn metadata(session: &Listed) -> Result<String, Fail> {
    match session.metadata() {
        Ok(text) => Ok(text),
        Err(_) => at_last(session.metadata()),
    }
}

/// The stream files, once the session is finished.
fn files_of(rt: &impl Abort, alloc: Global, session: Listed, run: &Run) -> Result<Files, Fail> {
    let finished = finished(session)?;
    named(rt, alloc, &finished, run)
}

fn finished(session: Listed) -> Result<FinishedSession<ScriptedSink>, Fail> {
    match session.finish_all() {
        Ok(finished) => Ok(finished),
        Err(session) => at_last(session.finish_all()),
    }
}

/// The stream files by their names, where the streams were finished as the run says.
fn named(
    rt: &impl Abort,
    alloc: Global,
    finished: &FinishedSession<ScriptedSink>,
    run: &Run,
) -> Result<Files, Fail> {
    let ends = granted(format!(in alloc; "{:?}", finished.answers.as_slice()))?;
    same(rt, ends.as_str(), run.ends, "ends");
    let mut files = Vec::new(alloc);
    for (source, sink) in run.sources.iter().zip(finished.sinks.as_slice()) {
        files.push(file_of(rt, alloc, source, sink.sink.bytes())?)?;
    }
    Ok(files)
}

/// The stream's file, which the sink has.
fn file_of(
    rt: &impl Abort,
    alloc: Global,
    source: &Source,
    bytes: &[u8],
) -> Result<(String, Vec<u8>), Fail> {
    let file = bytes_of(alloc, source.file)?;
    same(rt, bytes, file.as_slice(), source.name);
    Ok((String::from_str(alloc, source.name)?, file))
}
