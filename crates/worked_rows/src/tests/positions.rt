//! Where a record stands in the order of a whole trace.

use crate::tests::expected::same;
use crate::tests::failing_readers::{ALL, Inputs, traced};
use std::test::Fail;
use trace_stack::position;
use worked_fixtures::CLOCKED;

/// Two streams of `CLOCKED`: one with event records at 10 and 11 that ends at 12, and one with an event record at 10 that ends at 11.
const FILES: Inputs = &[
    (
        "t0",
        "c1fc1fc1 0200 0188 000000000000000a 000000000000000c 00 00 00 000000000000000a fffe 01 000000000000000b 6f6b00 000000000000000000000000000000",
    ),
    (
        "t1",
        "c1fc1fc1 0200 0128 000000000000000a 000000000000000b 00 00 00 000000000000000a 0003 000000000000000000000000000000000000000000000000000000",
    ),
];

/// What the row shows, a stream and a reading, and the index of its record in the order.
static ROWS: &[(&str, usize, u64, Option<usize>)] = &[
    ("the first event record of the first stream", 0, 10, Some(0)),
    (
        "the second stream's, which has the same reading",
        1,
        10,
        Some(1),
    ),
    (
        "the second event record of the first stream",
        0,
        11,
        Some(2),
    ),
    ("a reading that is a packet's end alone", 1, 11, None),
    ("a reading of no record", 0, 9, None),
    ("a stream that the trace has not", 2, 10, None),
];

#[test]
fn finds_the_record_of_a_reading(rt: HostRuntime) -> Result<(), Fail> {
    let trace = traced(rt.alloc(), CLOCKED, FILES, ALL)??;
    for (shows, stream, value, want) in ROWS {
        same(&rt, position(&trace, *stream, *value), *want, *shows);
    }
    Ok(())
}
