//! What a reader finds in a stream file and no line of the program says: a packet's begin, end, number and extra members, times of no clock, the alignment of an
//! event record's fields, and where a stream would go on behind the file.

ghost use Rattle.ctf_types.specs.Allowed.{IsMetadata};

use crate::tests::expected::same;
use crate::tests::stream_files::{Source, metadata_of};
use ctf_types::{Metadata, Text, align_of};
use packet_reader::{gaps, read_stream, resume_point, resume_point_from};
use std::alloc::{AllocError, Global};
use std::test::Fail;
use worked_fixtures::{CLOCKED, Changes, SMALL, bytes_of, granted};

const CPU: Changes = &[(
    "EXTRAS",
    r#"[{"cpu":{"field-type":{"class":"uint","size":8}}}]"#,
)];

const COUNTED: Changes = &[("DISCARDED", r#"{"class":"uint","size":32}"#)];

/// A packet's begin of 64 bits, and a timestamp of 1, of no clock.
const ONE_BIT: Changes = &[
    (
        "content_size;",
        "content_size; integer { size = 64; } timestamp_begin;",
    ),
    (
        "event.header := struct {",
        "event.header := struct { integer { size = 1; } timestamp;",
    ),
];

/// What metadata is read from, the bytes of a file in hexadecimal, and what is found: the alignment of the
/// fields of the first event record type, the clock, the gaps, the point behind it, its end and its packets.
static FILES: &[(Source, &str, &str)] = &[
    (
        Source::Written(CLOCKED, &[]),
        "c1fc1fc1 0200 0188 000000000000000a 000000000000000c 00 00 00 000000000000000a fffe 01 000000000000000b 6f6b00 000000000000000000000000000000",
        "8 [clk] Some(0) Some(ResumePoint { stream: Some(0), sequence: 1, discarded: 0, floor: 12 }) Whole [ReadPacket { stream: 0, begin: Some(10), end: Some(12), sequence: Some(0), discarded: Some(0), extras: Values { items: [] }, records: ListOf { items: [Record { event: 0, clock: Some(10), common: Values { items: [] }, specific: Values { items: [] }, payload: Values { items: [Signed(-2)] } }, Record { event: 1, clock: Some(11), common: Values { items: [] }, specific: Values { items: [] }, payload: Values { items: [Text(Bytes { bytes: [111, 107] })] } }] } }]",
    ),
    (
        Source::Written(CLOCKED, &[]),
        "",
        "8 [] None Some(ResumePoint { stream: None, sequence: 0, discarded: 0, floor: 0 }) Whole []",
    ),
    (
        Source::Written(SMALL, CPU),
        "c11ffcc1 80000000 70000000 03010000",
        "8 [] None Some(ResumePoint { stream: Some(0), sequence: 1, discarded: 0, floor: 0 }) Whole [ReadPacket { stream: 0, begin: None, end: None, sequence: None, discarded: None, extras: Values { items: [Unsigned(3)] }, records: ListOf { items: [Record { event: 0, clock: None, common: Values { items: [] }, specific: Values { items: [] }, payload: Values { items: [Unsigned(1)] } }] } }]",
    ),
    (
        Source::Written(SMALL, COUNTED),
        "c11ffcc1 a0000000 a0000000 00000000 01020304 c11ffcc1 a0000000 88000000 01000000 06000000",
        "8 [] None Some(ResumePoint { stream: Some(0), sequence: 2, discarded: 1, floor: 0 }) Whole [ReadPacket { stream: 0, begin: None, end: None, sequence: None, discarded: Some(0), extras: Values { items: [] }, records: ListOf { items: [Record { event: 0, clock: None, common: Values { items: [] }, specific: Values { items: [] }, payload: Values { items: [Unsigned(1)] } }, Record { event: 0, clock: None, common: Values { items: [] }, specific: Values { items: [] }, payload: Values { items: [Unsigned(2)] } }, Record { event: 0, clock: None, common: Values { items: [] }, specific: Values { items: [] }, payload: Values { items: [Unsigned(3)] } }, Record { event: 0, clock: None, common: Values { items: [] }, specific: Values { items: [] }, payload: Values { items: [Unsigned(4)] } }] } }, ReadPacket { stream: 0, begin: None, end: None, sequence: None, discarded: Some(1), extras: Values { items: [] }, records: ListOf { items: [Record { event: 0, clock: None, common: Values { items: [] }, specific: Values { items: [] }, payload: Values { items: [Unsigned(6)] } }] } }]",
    ),
    (
        Source::Written(SMALL, &[]),
        "c11ffcc1 80000000 70000000 01020000 c11ffcc1",
        "8 [] None None Torn(16) [ReadPacket { stream: 0, begin: None, end: None, sequence: None, discarded: None, extras: Values { items: [] }, records: ListOf { items: [Record { event: 0, clock: None, common: Values { items: [] }, specific: Values { items: [] }, payload: Values { items: [Unsigned(1)] } }, Record { event: 0, clock: None, common: Values { items: [] }, specific: Values { items: [] }, payload: Values { items: [Unsigned(2)] } }] } }]",
    ),
    // from 4 on at 4, 5, 5 and 6 by their last bits
    (
        Source::Elsewhere(ONE_BIT),
        "c11ffcc1 e0000000 e0000000 0400000000000000 0001 0102 0103 0004",
        "8 [] None Some(ResumePoint { stream: Some(0), sequence: 1, discarded: 0, floor: 6 }) Whole [ReadPacket { stream: 0, begin: Some(4), end: None, sequence: None, discarded: None, extras: Values { items: [] }, records: ListOf { items: [Record { event: 0, clock: Some(4), common: Values { items: [] }, specific: Values { items: [] }, payload: Values { items: [Unsigned(1)] } }, Record { event: 0, clock: Some(5), common: Values { items: [] }, specific: Values { items: [] }, payload: Values { items: [Unsigned(2)] } }, Record { event: 0, clock: Some(5), common: Values { items: [] }, specific: Values { items: [] }, payload: Values { items: [Unsigned(3)] } }, Record { event: 0, clock: Some(6), common: Values { items: [] }, specific: Values { items: [] }, payload: Values { items: [Unsigned(4)] } }] } }]",
    ),
    (
        Source::Elsewhere(ONE_BIT),
        "c11ffcc1 a0000000 a0000000 0400000000000000",
        "8 [] None Some(ResumePoint { stream: Some(0), sequence: 1, discarded: 0, floor: 4 }) Whole [ReadPacket { stream: 0, begin: Some(4), end: None, sequence: None, discarded: None, extras: Values { items: [] }, records: ListOf { items: [] } }]",
    ),
    // the length of a dynamic array is a number of 32 bits, aligned to 8
    (
        Source::Written(
            SMALL,
            &[(
                "PAYLOAD",
                r#"[{"x":{"field-type":{"class":"uint","size":1,"alignment":1}}}]"#,
            )],
        ),
        "",
        "1 [] None Some(ResumePoint { stream: None, sequence: 0, discarded: 0, floor: 0 }) Whole []",
    ),
    (
        Source::Written(
            SMALL,
            &[(
                "PAYLOAD",
                r#"[{"x":{"field-type":{"class":"static-array","length":3,"element-field-type":{"class":"uint","size":1,"alignment":1}}}}]"#,
            )],
        ),
        "",
        "1 [] None Some(ResumePoint { stream: None, sequence: 0, discarded: 0, floor: 0 }) Whole []",
    ),
    (
        Source::Written(
            SMALL,
            &[(
                "PAYLOAD",
                r#"[{"x":{"field-type":{"class":"dynamic-array","element-field-type":{"class":"uint","size":1,"alignment":1}}}}]"#,
            )],
        ),
        "",
        "8 [] None Some(ResumePoint { stream: None, sequence: 0, discarded: 0, floor: 0 }) Whole []",
    ),
    (
        Source::Written(
            SMALL,
            &[(
                "PAYLOAD",
                r#"[{"x":{"field-type":{"class":"dynamic-array","element-field-type":{"class":"static-array","length":3,"element-field-type":{"class":"uint","size":1,"alignment":1}}}}}]"#,
            )],
        ),
        "",
        "8 [] None Some(ResumePoint { stream: None, sequence: 0, discarded: 0, floor: 0 }) Whole []",
    ),
    (
        Source::Written(
            SMALL,
            &[(
                "PAYLOAD",
                r#"[{"x":{"field-type":{"class":"uint","size":1,"alignment":1}}},{"y":{"field-type":{"class":"dynamic-array","element-field-type":{"class":"uint","size":1,"alignment":1}}}}]"#,
            )],
        ),
        "",
        "8 [] None Some(ResumePoint { stream: None, sequence: 0, discarded: 0, floor: 0 }) Whole []",
    ),
    (
        Source::Written(
            SMALL,
            &[(
                "PAYLOAD",
                r#"[{"x":{"field-type":{"class":"dynamic-array","element-field-type":{"class":"uint","size":32,"alignment":32}}}}]"#,
            )],
        ),
        "",
        "32 [] None Some(ResumePoint { stream: None, sequence: 0, discarded: 0, floor: 0 }) Whole []",
    ),
    (
        Source::Written(
            SMALL,
            &[(
                "PAYLOAD",
                r#"[{"x":{"field-type":{"class":"uint","size":1,"alignment":1}}}],"minimum-alignment":4"#,
            )],
        ),
        "",
        "4 [] None Some(ResumePoint { stream: None, sequence: 0, discarded: 0, floor: 0 }) Whole []",
    ),
    (
        Source::Written(
            SMALL,
            &[(
                "PAYLOAD",
                r#"[{"x":{"field-type":{"class":"dynamic-array","element-field-type":{"class":"uint","size":1,"alignment":1}}}}],"minimum-alignment":4"#,
            )],
        ),
        "",
        "8 [] None Some(ResumePoint { stream: None, sequence: 0, discarded: 0, floor: 0 }) Whole []",
    ),
];

/// What metadata is read from, the bytes of a file in hexadecimal, and what is found of it with one packet in hand.
static EARLIER: &[(Source, &str, &str)] = &[
    // a number of 8 bits that goes round, and a later snapshot and end
    (
        Source::Written(CLOCKED, &[]),
        "c1fc1fc1 00d0 00d0 000000000000000a 000000000000000c 03 fe c1fc1fc1 00d0 00d0 000000000000000c 000000000000000d 05 ff",
        "EarlierFile { packets: 2, end: Whole, point: Some(ResumePoint { stream: Some(0), sequence: 0, discarded: 5, floor: 13 }) }",
    ),
    (
        Source::Written(SMALL, &[]),
        "c11ffcc1 80000000 70000000 01020000 c11ffcc1 80000000 70000000 01020000",
        "EarlierFile { packets: 2, end: Whole, point: Some(ResumePoint { stream: Some(0), sequence: 2, discarded: 0, floor: 0 }) }",
    ),
    (
        Source::Written(SMALL, &[]),
        "c11ffcc1 80000000 70000000 01020000 c11ffcc1",
        "EarlierFile { packets: 1, end: Torn(16), point: None }",
    ),
];

#[test]
fn finds_the_point_with_one_packet_in_hand(rt: HostRuntime) -> Result<(), Fail> {
    for (source, digits, want) in EARLIER {
        let found = earlier(rt.alloc(), source, digits)?;
        same(&rt, found.as_str(), *want, *digits);
    }
    Ok(())
}

fn earlier(alloc: Global, source: &Source, digits: &str) -> Result<String, Fail> {
    let bytes = bytes_of(alloc, digits)?;
    let metadata = metadata_of(alloc, source)?;
    let found = resume_point_from(alloc, &metadata, bytes.as_slice())?;
    Ok(format!(in alloc; "{found:?}")?)
}

#[test]
fn finds_what_no_line_says(rt: HostRuntime) -> Result<(), Fail> {
    for (source, digits, want) in FILES {
        let found = found(rt.alloc(), source, digits)?;
        same(&rt, found.as_str(), *want, *digits);
    }
    Ok(())
}

fn found(alloc: Global, source: &Source, digits: &str) -> Result<String, Fail> {
    let bytes = bytes_of(alloc, digits)?;
    let metadata = metadata_of(alloc, source)?;
    granted(found_by(alloc, &metadata, bytes.as_slice()))
}

fn found_by(alloc: Global, metadata: &Metadata, bytes: &[u8]) -> Result<String, AllocError>
    requires { IsMetadata metadata.now }
{
    let read = read_stream(alloc, metadata, Text::from_str(alloc, "a")?, bytes)?;
    let clock = match &read.clock {
        Some(clock) => clock.as_str(),
        None => "",
    };
    let gaps = gaps(metadata, &read);
    let point = resume_point(metadata, &read);
    let packets = read.packets.as_slice();
    let align = first_align(metadata).unwrap_or(0);
    format!(in alloc;
        "{align} [{clock}] {gaps:?} {point:?} {:?} {packets:?}",
        read.end
    )
}

/// The alignment of the fields of the first event record type.
fn first_align(metadata: &Metadata) -> Option<u32> {
    let stream = metadata.streams.get(0)?;
    let event = stream.events.get(0)?;
    Some(align_of(&event.fields))
}
