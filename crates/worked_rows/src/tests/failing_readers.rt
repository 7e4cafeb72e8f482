//! Whole traces, read from readers of which one fails on the way: the first one in the list is answered, and nothing is given.

use crate::tests::expected::same;
use packet_reader::ReadStop;
use std::alloc::Global;
use std::io::{Error, ErrorKind, Read, Result as ReadResult};
use std::test::Fail;
use trace_stack::{ReadTrace, TraceFault, read_trace_from};
use tsdl_writer::write_metadata;
use worked_fixtures::{SMALL, bytes_of, changed, configured, granted};

/// The stream files of a trace: the name of each, and its bytes in hexadecimal.
pub type Inputs = &'static [(&'static str, &'static str)];

/// A packet of 16 bytes with two records, and the front of a second.
const CUT: &str = "c11ffcc1 80000000 70000000 01020000 c11ffcc1";

const FILES: Inputs = &[("a", CUT), ("a", CUT), ("a", CUT)];

/// Two readers that do not fail.
pub const ALL: &[usize] = &[usize::MAX, usize::MAX];

/// A reader that gives at most 7 bytes by one read, and fails once it has given `room` of them.
#[derive(Drop)]
pub struct Failing {
    pub bytes: Vec<u8>,
    pub given: usize,
    pub room: usize,
}

impl Read for Failing {
    fn read(&mut self, buffer: &mut [u8]) -> ReadResult<usize> {
        if self.given >= self.room {
            return Err(Error::from(ErrorKind::BrokenPipe));
        }
        let left = self.bytes.get(self.given..).unwrap_or(&[]);
        let count = left
            .len()
            .min(7)
            .min(buffer.len())
            .min(self.room - self.given);
        buffer[..count].copy_from_slice(&left[..count]);
        self.given += count;
        Ok(count)
    }
}

/// How many bytes each reader gives before it fails, and which of them is answered.
static ROWS: &[(&[usize], Option<usize>)] = &[
    (&[16], Some(0)),
    (&[0], Some(0)),
    (&[100, 16], Some(1)),
    (&[100, 3, 0], Some(1)),
    (&[100, 100], None),
    (&[], None),
];

#[test]
fn answers_the_first_reader_that_fails(rt: HostRuntime) -> Result<(), Fail> {
    for (rooms, place) in ROWS {
        let want = place.map(|place| TraceFault::Reader(place, ReadStop::ReaderFault));
        let found = traced(rt.alloc(), SMALL, FILES, rooms)?.err();
        same(&rt, found, want, *rooms);
    }
    Ok(())
}

/// The trace of a configuration whose stream files are given by readers, each of which fails once it gave so many bytes.
pub fn traced(
    alloc: Global,
    text: &str,
    files: Inputs,
    rooms: &[usize],
) -> Result<Result<ReadTrace, TraceFault>, Fail> {
    let metadata = metadata_of(alloc, text)?;
    let streams = readers(alloc, files, rooms)?;
    Ok(read_trace_from(alloc, metadata.as_bytes(), streams))
}

/// The metadata of a configuration's text.
pub fn metadata_of(alloc: Global, text: &str) -> Result<String, Fail> {
    let text = changed(alloc, text, &[])?;
    let config = configured(alloc, text.as_str(), None)?;
    granted(write_metadata(alloc, &config))
}

/// As many readers as there are numbers, each of which fails once it gave so many bytes of its file.
pub fn readers(
    alloc: Global,
    files: Inputs,
    rooms: &[usize],
) -> Result<Vec<(String, Failing)>, Fail> {
    let mut streams = Vec::new(alloc);
    for ((name, digits), room) in files.iter().zip(rooms) {
        streams.push(reader(alloc, name, digits, *room)?)?;
    }
    Ok(streams)
}

fn reader(alloc: Global, name: &str, digits: &str, room: usize) -> Result<(String, Failing), Fail> {
    let input = Failing {
        bytes: bytes_of(alloc, digits)?,
        given: 0,
        room,
    };
    Ok((String::from_str(alloc, name)?, input))
}
