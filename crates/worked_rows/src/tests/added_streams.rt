//! Streams that a session takes, and those that it refuses.

use crate::tests::expected::same;
use crate::tests::session_steps::{Listed, TWO_TYPES, back_end, clock, sink};
use packet_reader::ResumePoint;
use std::alloc::Global;
use std::process::Abort;
use std::test::Fail;
use trace_stack::Session;
use worked_fixtures::{configured, granted, values_in_words};

/// A stream that is to be added behind those before it.
struct Added {
    shows: &'static str,
    name: &'static str,
    type_name: &'static str,
    /// The number of the data stream type whose packet its file has: the stream goes on behind that.
    behind: Option<usize>,
    /// Why it is not added.
    fault: &'static str,
}

/// A stream of the type `plain` without a file.
const PLAIN: Added = Added {
    shows: "",
    name: "a",
    type_name: "plain",
    behind: None,
    fault: "",
};

static ADDED: &[Added] = &[
    Added {
        shows: "the name of the metadata's file",
        name: "metadata",
        fault: "Name(BadName)",
        ..PLAIN
    },
    Added {
        shows: "a name that begins with a digit",
        name: "9a",
        fault: "Name(BadName)",
        ..PLAIN
    },
    Added {
        shows: "a bad name before a bad type",
        name: "",
        type_name: "t",
        fault: "Name(BadName)",
        ..PLAIN
    },
    Added {
        shows: "a first stream",
        ..PLAIN
    },
    Added {
        shows: "a name twice",
        fault: "Name(SameName)",
        ..PLAIN
    },
    Added {
        shows: "a name twice before a bad type",
        type_name: "t",
        fault: "Name(SameName)",
        ..PLAIN
    },
    Added {
        shows: "no such type",
        name: "b",
        type_name: "t",
        fault: "Stream(NoSuchStream)",
        ..PLAIN
    },
    Added {
        shows: "the name of a stream that was refused",
        name: "b",
        ..PLAIN
    },
    Added {
        shows: "packets of another data stream type",
        name: "p",
        behind: Some(1),
        fault: "WrongStream",
        ..PLAIN
    },
    Added {
        shows: "a bad name before packets of another data stream type",
        name: "9",
        behind: Some(1),
        fault: "Name(BadName)",
        ..PLAIN
    },
    Added {
        shows: "no such type behind packets",
        name: "p",
        type_name: "t",
        behind: Some(0),
        fault: "Stream(NoSuchStream)",
        ..PLAIN
    },
    Added {
        shows: "packets of its own type",
        name: "p",
        behind: Some(0),
        ..PLAIN
    },
];

/// Streams behind 64.
static BEHIND_64: &[Added] = &[
    Added {
        shows: "a stream more",
        name: "s64",
        fault: "Name(TooMany)",
        ..PLAIN
    },
    Added {
        shows: "a name twice before a stream more",
        name: "s63",
        fault: "Name(SameName)",
        ..PLAIN
    },
    Added {
        shows: "a bad name before a stream more",
        name: "9",
        fault: "Name(BadName)",
        ..PLAIN
    },
];

#[test]
fn refuses_streams_by_their_first_fault(rt: HostRuntime) -> Result<(), Fail> {
    let mut session = Session::new(rt.alloc(), configured(rt.alloc(), TWO_TYPES, None)?);
    takes_64(&rt, rt.alloc(), &mut session)
}

fn takes_64(rt: &impl Abort, alloc: Global, session: &mut Listed) -> Result<(), Fail> {
    all_added(rt, alloc, session, ADDED)?;
    fills(rt, alloc, session)?;
    all_added(rt, alloc, session, BEHIND_64)
}

fn all_added(
    rt: &impl Abort,
    alloc: Global,
    session: &mut Listed,
    rows: &[Added],
) -> Result<(), Fail> {
    for row in rows {
        let fault = fault_of(alloc, session, row.name, row)?;
        same(rt, fault.as_str(), row.fault, row.shows);
    }
    Ok(())
}

/// Adds streams until there are 64.
fn fills(rt: &impl Abort, alloc: Global, session: &mut Listed) -> Result<(), Fail> {
    for number in session.stream_count()..64 {
        let name = format!(in alloc; "s{number}")?;
        let fault = fault_of(alloc, session, name.as_str(), &PLAIN)?;
        same(rt, fault.as_str(), "", number);
    }
    Ok(())
}

/// Why a stream of this name is not added; no words where it is.
fn fault_of(alloc: Global, session: &mut Listed, name: &str, row: &Added) -> Result<String, Fail> {
    let clock = clock(alloc, &[])?;
    let back_end = back_end(alloc, 1, 17)?;
    let sink = sink(alloc, false)?;
    let extras = values_in_words(alloc, "3")?;
    let answer = match row.behind {
        None => session.add_stream(name, row.type_name, clock, back_end, sink, extras),
        Some(number) => {
            let point = ResumePoint {
                stream: Some(number),
                sequence: 1,
                discarded: 0,
                floor: 0,
            };
            session.resume_stream(name, row.type_name, clock, back_end, sink, extras, point)
        }
    };
    match answer {
        Ok(_) => Ok(String::new(alloc)),
        Err(refused) => granted(format!(in alloc; "{:?}", refused.fault)),
    }
}
