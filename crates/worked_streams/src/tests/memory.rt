//! Calls that take memory, each answering want of memory in the words `out of memory` wherever a request is refused, and tracing, which takes none:
//! the script beside the gate refuses each request of these tests in turn, and counts those of tracing.

use crate::tests::expected::same;
use crate::tests::rings::{RingStream, makes_empty, ring_stream, stream};
use crate::tests::stream_files::{Source, ending_of};
use conf_check::configure;
use ctf_types::Args;
use packet_collector::{Collected, collect_into};
use packet_reader::StreamEnding;
use packet_ring::RingEnd;
use std::alloc::Global;
use std::process::Abort;
use std::test::Fail;
use thread_stream::{Stream, Verdict};
use trace_platform::{ListBackEnd, ListClock, MemorySink, PacketSource};
use worked_fixtures::{Datum, SMALL, granted, payload};

/// Clocks, features with types of their own, enumerations, arrays, extra members, an environment, and aliases that inherit from others.
const RICH: &str =
    r#"{"trace":{"environment":{"host":"a\"b\n","version":-3},"type":{"native-byte-order":"be","uuid":"79e49040-21b5-42d4-a83b-646f78666b62","clock-types":{"clk":{"frequency":1000,"description":"since boot","uuid":"79e49040-21b5-42d4-a83b-646f78666b63","precision":5,"offset":{"seconds":-1,"cycles":2},"origin-is-unix-epoch":false},"other":{}},"$log-level-aliases":{"LOUD":7,"QUIET":1},"$field-type-aliases":{"u8":{"class":"uint","size":8},"u16":{"$inherit":"u8","size":16},"state":{"class":"uenum","size":8,"mappings":{"OFF":[0],"ON":[[1,3],9]}},"more":{"$inherit":"state","mappings":{"ON":[12]}},"point":{"class":"struct","members":[{"x":"u8"},{"y":"u16"}]},"space":{"$inherit":"point","members":[{"z":{"field-type":"more"}}]}},"$features":{"magic-field-type":{"class":"uint","size":32,"alignment":32},"uuid-field-type":{"class":"static-array","length":16,"element-field-type":"u8"},"data-stream-type-id-field-type":"u8"},"data-stream-types":{"s":{"$default-clock-type-name":"clk","$features":{"packet":{"total-size-field-type":"u16","content-size-field-type":"u16","sequence-number-field-type":"u8"},"event-record":{"type-id-field-type":"u8"}},"packet-context-field-type-extra-members":[{"cpu":"u8"},{"names":{"field-type":{"class":"dynamic-array","element-field-type":{"class":"str"}}}}],"event-record-common-context-field-type":{"class":"struct","members":[{"pid":{"field-type":"u16"}}]},"event-record-types":{"a":{"log-level":"LOUD","specific-context-field-type":"point","payload-field-type":"space"},"b":{"log-level":4,"payload-field-type":{"class":"struct","members":[{"s":{"field-type":{"class":"str"}}},{"grid":{"field-type":{"class":"static-array","length":2,"element-field-type":{"class":"static-array","length":3,"element-field-type":"u8"}}}},{"list":{"field-type":{"class":"dynamic-array","element-field-type":"u16"}}}]}}}},"t":{}}}}}"#;

const ALL: Source = Source::Written(RICH, &[]);

/// A string, a list and an array of strings.
const LISTS: Source = Source::Written(
    SMALL,
    &[(
        "PAYLOAD",
        r#"[{"s":{"field-type":{"class":"str"}}},{"a":{"field-type":{"class":"dynamic-array","element-field-type":{"class":"uint","size":8}}}},{"t":{"field-type":{"class":"static-array","length":2,"element-field-type":{"class":"str"}}}}]"#,
    )],
);

/// A packet of 24 bytes with the record `"Hi"`, `[5, 6]`, `["x", ""]`.
const FILE: &[u8] = &[
    0xc1, 0x1f, 0xfc, 0xc1, 0xc0, 0, 0, 0, 0xc0, 0, 0, 0, 0x48, 0x69, 0, 2, 0, 0, 0, 5, 6, 0x78, 0,
    0,
];

/// Its last fault, two byte orders, is found behind all readings of its objects.
#[test]
fn refuses_a_configuration(rt: HostRuntime) -> Result<(), Fail> {
    let both = r#""trace-byte-order":"be","native-byte-order""#;
    let text = granted(RICH.replace(rt.alloc(), r#""native-byte-order""#, both))?;
    match configure(rt.alloc(), text.as_bytes(), None) {
        Ok(_) => Err(Fail::new("two byte orders")),
        Err(fault) => {
            if fault.is_memory() {
                return Err(Fail::new(fault));
            }
            same(&rt, fault.path.as_slice().len(), 2, "steps");
            Ok(())
        }
    }
}

/// Configurations are made, their metadata written and read, and files by it.
#[test]
fn reads_what_is_configured(rt: HostRuntime) -> Result<(), Fail> {
    let none = ending_of(rt.alloc(), &ALL, &[], false)?;
    same(&rt, none, (0, StreamEnding::Whole), "an empty file");
    let found = ending_of(rt.alloc(), &LISTS, FILE, false)?;
    same(&rt, found, (1, StreamEnding::Whole), "strings and lists");
    Ok(())
}

#[test]
fn traces_one_record(rt: HostRuntime) -> Result<(), Fail> {
    traces(&rt, rt.alloc(), 1)
}

#[test]
fn traces_a_thousand_records(rt: HostRuntime) -> Result<(), Fail> {
    traces(&rt, rt.alloc(), 1000)
}

/// Traces so many records with one list of arguments, and takes each packet as it is closed.
fn traces(rt: &impl Abort, alloc: Global, records: u32) -> Result<(), Fail> {
    let args = payload(alloc, &[Datum::Unsigned(7)])?;
    let mut stream = stream(alloc, ListBackEnd::new(alloc, 2, 16)?)?;
    traces_each(rt, &mut stream, &args, records);
    Ok(())
}

fn traces_each(
    rt: &impl Abort,
    stream: &mut Stream<ListClock, ListBackEnd>,
    args: &Args,
    records: u32,
) {
    for _ in 0..records {
        let answer = stream.trace(0, args);
        same(rt, answer, Verdict::Accepted(None), "a call");
        if let Some(packet) = stream.take() {
            stream.give_back(packet.into_buf());
        }
    }
}

#[test]
fn traces_one_record_over_a_ring(rt: HostRuntime) -> Result<(), Fail> {
    traces_over_a_ring(&rt, rt.alloc(), 1)
}

#[test]
fn traces_a_thousand_records_over_a_ring(rt: HostRuntime) -> Result<(), Fail> {
    traces_over_a_ring(&rt, rt.alloc(), 1000)
}

/// Traces so many records over a ring of one place, and takes each packet as it is closed.
fn traces_over_a_ring(rt: &impl Abort, alloc: Global, records: u32) -> Result<(), Fail> {
    let args = payload(alloc, &[Datum::Unsigned(7)])?;
    let (mut stream, mut ring_end) = ring_stream(alloc)?;
    traces_each_over_a_ring(rt, &mut stream, &mut ring_end, &args, records);
    Ok(())
}

fn traces_each_over_a_ring(
    rt: &impl Abort,
    stream: &mut RingStream,
    ring_end: &mut RingEnd,
    args: &Args,
    records: u32,
) {
    for _ in 0..records {
        let answer = stream.trace(0, args);
        same(rt, answer, Verdict::Accepted(None), "a call");
        if let Some(packet) = ring_end.take() {
            ring_end.give_back(packet.into_buf());
        }
    }
}

/// Opens, closes and collects 300 packets over a ring of one place, into a sink with room for their bytes. Each answer is the ample one once all is
/// made, whichever request is refused: there is none.
#[test]
fn collects_300_packets_over_a_ring(rt: HostRuntime) -> Result<(), Fail> {
    let mut sink = MemorySink::with_capacity(rt.alloc(), 300 * 16)?;
    let (mut stream, mut ring_end) = ring_stream(rt.alloc())?;
    collects_each(&rt, &mut stream, &mut ring_end, &mut sink);
    Ok(())
}

fn collects_each(
    rt: &impl Abort,
    stream: &mut RingStream,
    ring_end: &mut RingEnd,
    sink: &mut MemorySink,
) {
    let mut faulted = false;
    for number in 0..300 {
        let made = makes_empty(stream);
        let answer = collect_into(sink, &mut faulted, ring_end);
        same(rt, (made, answer), (true, Collected::Took(number)), number);
    }
}
