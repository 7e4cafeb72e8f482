//! What no clause says: a sink faults where its writer fails, takes no byte or stops, or where memory is refused, and there alone.

use crate::tests::expected::{holds, same};
use std::alloc::Global;
use std::io::{Error, ErrorKind, Result as IoResult, Write};
use std::process::Abort;
use std::test::Fail;
use trace_platform::{MemorySink, Script, ScriptedSink, Sink, SinkFault, Turn, WriterSink};

/// How a writer answers one write.
#[derive(Clone, Copy)]
enum Answer {
    /// It takes so many bytes, as far as there are so many.
    Takes(usize),
    Fails(ErrorKind),
}

/// Answers its writes so, in their order, and behind them takes all.
#[derive(Drop)]
struct AnsweringWriter {
    answers: &'static [Answer],
    taken: Vec<u8>,
}

impl Write for AnsweringWriter {
    fn write(&mut self, bytes: &[u8]) -> IoResult<usize> {
        let answer = match self.answers.split_first() {
            None => Answer::Takes(usize::MAX),
            Some((answer, answers)) => {
                self.answers = answers;
                *answer
            }
        };
        match answer {
            Answer::Takes(most) => {
                let count = bytes.len().min(most);
                self.taken.extend_from_slice(&bytes[..count])?;
                Ok(count)
            }
            Answer::Fails(kind) => Err(Error::from(kind)),
        }
    }

    fn flush(&mut self) -> IoResult<()> {
        Ok(())
    }
}

/// Bytes that are appended, and what that answers.
type Appending = (&'static [u8], Result<(), SinkFault>);

/// What a row shows, the writer's answers, what is appended, how often the sink has faulted then, and what its writer took.
type Row = (
    &'static str,
    &'static [Answer],
    &'static [Appending],
    u64,
    &'static [u8],
);

const INTERRUPTED: Answer = Answer::Fails(ErrorKind::Interrupted);

const APPENDED: &[Appending] = &[(b"abcdef", Ok(()))];

const REFUSED: &[Appending] = &[(b"abcdef", Err(SinkFault))];

static ROWS: &[Row] = &[
    ("all bytes at once", &[], APPENDED, 0, b"abcdef"),
    (
        "all bytes in pieces",
        &[Answer::Takes(1), Answer::Takes(3)],
        APPENDED,
        0,
        b"abcdef",
    ),
    (
        "an interrupted write is tried again",
        &[INTERRUPTED, Answer::Takes(2), INTERRUPTED, INTERRUPTED],
        APPENDED,
        0,
        b"abcdef",
    ),
    (
        "the first write takes no byte",
        &[Answer::Takes(0)],
        REFUSED,
        1,
        b"",
    ),
    (
        "a write takes no byte behind one byte",
        &[Answer::Takes(1), Answer::Takes(0)],
        REFUSED,
        1,
        b"a",
    ),
    (
        "a write takes no byte behind two",
        &[Answer::Takes(2), Answer::Takes(0)],
        REFUSED,
        1,
        b"ab",
    ),
    (
        "a write takes no byte behind three",
        &[Answer::Takes(3), Answer::Takes(0)],
        REFUSED,
        1,
        b"abc",
    ),
    (
        "a write takes no byte behind four",
        &[Answer::Takes(4), Answer::Takes(0)],
        REFUSED,
        1,
        b"abcd",
    ),
    (
        "a write takes no byte behind two pieces",
        &[Answer::Takes(4), Answer::Takes(1), Answer::Takes(0)],
        REFUSED,
        1,
        b"abcde",
    ),
    (
        "the last piece is a short one",
        &[Answer::Takes(4), Answer::Takes(2), Answer::Takes(0)],
        APPENDED,
        0,
        b"abcdef",
    ),
    (
        "more bytes behind those that were taken in pieces",
        &[
            Answer::Takes(5),
            Answer::Takes(5),
            Answer::Takes(5),
            Answer::Takes(5),
            Answer::Takes(4),
            Answer::Takes(0),
        ],
        &[(b"0123456789abcdef", Ok(())), (b"ghijkl", Err(SinkFault))],
        1,
        b"0123456789abcdefghij",
    ),
    (
        "a write fails",
        &[Answer::Takes(4), Answer::Fails(ErrorKind::BrokenPipe)],
        REFUSED,
        1,
        b"abcd",
    ),
    (
        "the first write fails",
        &[Answer::Fails(ErrorKind::PermissionDenied)],
        REFUSED,
        1,
        b"",
    ),
    (
        "a write fails behind one that was interrupted",
        &[
            Answer::Takes(3),
            INTERRUPTED,
            Answer::Fails(ErrorKind::BrokenPipe),
        ],
        REFUSED,
        1,
        b"abc",
    ),
    (
        "nothing is written where there are no bytes, and a sink that faulted is not closed",
        &[Answer::Fails(ErrorKind::BrokenPipe)],
        &[(b"", Ok(())), (b"a", Err(SinkFault)), (b"b", Ok(()))],
        1,
        b"b",
    ),
];

#[test]
fn faults_where_a_write_fails_or_takes_nothing(rt: HostRuntime) -> Result<(), Fail> {
    for row in ROWS {
        is_appended(&rt, rt.alloc(), row);
    }
    Ok(())
}

fn is_appended(rt: &impl Abort, alloc: Global, (shows, answers, pieces, faults, taken): &Row) {
    let mut sink = WriterSink::new(AnsweringWriter {
        answers,
        taken: Vec::new(alloc),
    });
    appends(rt, &mut sink, pieces, *faults, shows);
    let writer = sink.into_writer();
    same(rt, writer.taken.as_slice(), *taken, shows);
}

/// The sink answers each of these so, and has then faulted so often.
fn appends(rt: &impl Abort, sink: &mut impl Sink, pieces: &[Appending], faults: u64, shows: &str) {
    for (bytes, answer) in pieces {
        same(rt, sink.append(bytes), *answer, shows);
    }
    same(rt, sink.fault_count(), faults, shows);
}

static PIECES: &[Appending] = &[(b"cd", Ok(())), (b"ef", Err(SinkFault)), (b"gh", Ok(()))];

/// A sink that fails at its second turn, behind one byte, over one that took two bytes.
#[test]
fn appends_a_front_where_the_script_says_so(rt: HostRuntime) -> Result<(), Fail> {
    let turns = Vec::from_slice(rt.alloc(), &[Turn::Works, Turn::Fails])?;
    let mut memory = MemorySink::new(rt.alloc());
    same(&rt, memory.append(b"ab"), Ok(()), "the first two bytes");
    let mut sink = ScriptedSink::new(memory, Script::new(turns), 1);
    appends(&rt, &mut sink, PIECES, 1, "a scripted sink");
    let found = sink.sink.bytes();
    same(&rt, found, b"abcdegh".as_slice(), "all bytes");
    Ok(())
}

/// The script beside the gate refuses each request for memory in turn: then an appending answers a fault, and this test stops.
#[test]
fn takes_all_where_memory_is_given(rt: HostRuntime) -> Result<(), Fail> {
    let mut sink = MemorySink::new(rt.alloc());
    for _ in 0..100 {
        holds(&rt, sink.append(b"abcdef").is_ok(), "six bytes more");
    }
    same(&rt, sink.fault_count(), 0, "faults");
    same(&rt, sink.into_bytes().len(), 600, "bytes");
    Ok(())
}
