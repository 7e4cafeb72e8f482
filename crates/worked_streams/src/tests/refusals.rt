//! Streams and their files where any one request for memory is refused: what is answered then, and what a call answers that is made once more.
//! The script beside the gate refuses each request of these tests in turn.

mod again;
mod memory;

use crate::tests::stream_files::Source;
use worked_fixtures::CLOCKED;

/// What a call says that is out of memory, whatever it has for that itself.
const OUT_OF_MEMORY: &str = "out of memory";

const METADATA: Source = Source::Written(CLOCKED, &[]);

/// A packet of two event records.
const FILE: &str =
    "c1fc1fc1 0200 0188 000000000000000a 000000000000000c 00 00 00 000000000000000a fffe 01 000000000000000b 6f6b00 000000000000000000000000000000";
