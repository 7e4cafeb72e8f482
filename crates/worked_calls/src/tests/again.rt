//! Calls that are made once more where memory was wanting: they answer as with ample memory, since the refused call left all as it was. A test passes then;
//! where another request is refused it answers that it is out of memory. The script beside the gate refuses each request of these tests in turn.

ghost use Rattle.std.specs.Prelude.{IfOk};
ghost use Rattle.ctf_types.specs.AllowedConfig.{IsConfig};

use crate::tests::expected::{holds, same, same_text};
use crate::tests::fixtures::configured;
use ctf_types::{ByteOrder, Bytes, Config, Duplicate, StructType, Value, Values};
use packet_collector::Collector;
use packet_writer::PacketBuf;
use std::alloc::{AllocError, Global};
use std::process::Abort;
use std::test::Fail;
use thread_stream::{NotMade, PacketAnswer, Stream, StreamFault};
use trace_clock::{TickClock, TickSeat};
use trace_platform::{BackEnd, Clock, ListBackEnd, ListClock, MemorySink, PacketSource, Sink};
use tsdl_reader::read_metadata;
use value_codec::{ReadFault, read_member, read_struct};

/// One stream type with one event record type of a byte.
static SMALL: &str =
    r#"{"trace":{"type":{"trace-byte-order":"le","$features":{"data-stream-type-id-field-type":false},"data-stream-types":{"s":{"$features":{"packet":{"total-size-field-type":{"class":"uint","size":32},"content-size-field-type":{"class":"uint","size":32},"discarded-event-records-counter-snapshot-field-type":false},"event-record":{"type-id-field-type":false}},"event-record-types":{"e":{"payload-field-type":{"class":"struct","members":[{"v":{"field-type":{"class":"uint","size":8}}}]}}}}}}}}"#;

/// The answer to a call that was made once more.
const REFUSED: &str = "a second refusal";

/// What the second call answers.
fn at_last<T, E: Drop>(answer: Result<T, E>) -> Result<T, Fail> {
    match answer {
        Ok(value) => Ok(value),
        Err(_) => Err(REFUSED.into()),
    }
}

/// A number, a text and a list of a number.
fn some_values(alloc: Global) -> Result<Values, AllocError> {
    let mut inner = Values::new(alloc);
    inner.push(Value::Signed(-2))?;
    let mut values = Values::new(alloc);
    values.push(Value::Unsigned(1))?;
    values.push(Value::Text(Bytes::from_slice(alloc, b"a")?))?;
    values.push(Value::List(inner))?;
    Ok(values)
}

fn copied_value(alloc: Global, value: &Value) -> Result<Value, Fail> {
    match value.copy(alloc) {
        Ok(copied) => Ok(copied),
        Err(_) => at_last(value.copy(alloc)),
    }
}

fn copied_values(alloc: Global, values: &Values) -> Result<Values, Fail> {
    match values.copy(alloc) {
        Ok(copied) => Ok(copied),
        Err(_) => at_last(values.copy(alloc)),
    }
}

/// The values, and the list of their copies.
static COPIED: &str =
    "Values { items: [Unsigned(1), Text(Bytes { bytes: [97] }), List(Values { items: [Signed(-2)] })] } List(Values { items: [Unsigned(1), Text(Bytes { bytes: [97] }), List(Values { items: [Signed(-2)] })] })";

/// The values, and the copy of a list of their copies.
fn shown_copies(alloc: Global, values: &Values) -> Result<String, Fail> {
    let copied = copied_values(alloc, values)?;
    let one = copied_value(alloc, &Value::List(copied))?;
    Ok(format!(in alloc; "{values:?} {one:?}")?)
}

#[test]
fn copies_values(rt: HostRuntime) -> Result<(), Fail> {
    let values = some_values(rt.alloc())?;
    let found = shown_copies(rt.alloc(), &values)?;
    same_text(&rt, found.as_str(), COPIED, "copies");
    Ok(())
}

/// A value is put at the end of a list. A refused one is handed back, and the list is as it was.
fn put(values: &mut Values, value: Value) -> Result<(), Fail> {
    match values.push(value) {
        Ok(()) => Ok(()),
        Err(refused) => at_last(values.push(refused.value)),
    }
}

/// Bytes are put at the end of others.
fn extended(bytes: &mut Bytes, more: &[u8]) -> Result<(), Fail> {
    match bytes.extend_from_slice(more) {
        Ok(()) => Ok(()),
        Err(_) => at_last(bytes.extend_from_slice(more)),
    }
}

#[test]
fn lists_grow(rt: HostRuntime) -> Result<(), Fail> {
    let alloc = rt.alloc();
    let mut bytes = Bytes::from_vec(Vec::new(alloc));
    let mut values = Values::new(alloc);
    for number in 0..20 {
        put(&mut values, Value::Unsigned(number))?;
        extended(&mut bytes, b"abc")?;
        let found = (values.len() as u64, bytes.as_slice().len());
        let expected = (number + 1, values.len().saturating_mul(3));
        same(&rt, found, expected, "values and bytes");
    }
    Ok(())
}

static MEMBERS: &[u8] =
    b"/* CTF 1.8 */ trace{byte_order=le;major=1;minor=8;packet.header:=struct{integer{size=8;}n;string s;integer{size=8;}l[n];};};";

/// A structure of a number, a string and a list.
fn structure(alloc: Global) -> Result<StructType, Fail> {
    let metadata = read_metadata(alloc, MEMBERS)?;
    Ok(metadata.header)
}

/// A list of two numbers behind the text `Hi`.
const STRUCTURE: &[u8] = &[2, 0x48, 0x69, 0, 5, 6];

static READ: &str =
    "(Values { items: [Unsigned(2), Text(Bytes { bytes: [72, 105] }), List(Values { items: [Unsigned(5), Unsigned(6)] })] }, 48)";

static LIST: &str = "(List(Values { items: [Unsigned(5), Unsigned(6)] }), 48)";

fn struct_of(alloc: Global, bytes: &[u8], s: &StructType) -> Result<(Values, u64), Fail> {
    if bytes.len() != 6 {
        return Err("another length".into());
    }
    let order = ByteOrder::Little;
    match read_struct(alloc, bytes, 0, 48, order, s) {
        Ok(read) => Ok(read),
        Err(ReadFault::OutOfMemory) => at_last(read_struct(alloc, bytes, 0, 48, order, s)),
        Err(fault) => Err(Fail::new(fault)),
    }
}

/// The third member.
fn list_of(
    alloc: Global,
    bytes: &[u8],
    s: &StructType,
    before: &[Value],
) -> Result<(Value, u64), Fail> {
    if bytes.len() != 6 || s.members.len() <= 2 {
        return Err("another length".into());
    }
    let order = ByteOrder::Little;
    match read_member(alloc, bytes, 32, 48, order, s, 2, before) {
        Ok(read) => Ok(read),
        Err(ReadFault::OutOfMemory) => {
            at_last(read_member(alloc, bytes, 32, 48, order, s, 2, before))
        }
        Err(fault) => Err(Fail::new(fault)),
    }
}

fn shown_struct(alloc: Global, s: &StructType) -> Result<String, Fail> {
    let read = struct_of(alloc, STRUCTURE, s)?;
    Ok(format!(in alloc; "{read:?}")?)
}

fn shown_list(alloc: Global, s: &StructType) -> Result<String, Fail> {
    let before = [Value::Unsigned(2), Value::Unsigned(0)];
    let read = list_of(alloc, STRUCTURE, s, &before)?;
    Ok(format!(in alloc; "{read:?}")?)
}

#[test]
fn reads_structures(rt: HostRuntime) -> Result<(), Fail> {
    let s = structure(rt.alloc())?;
    let read = shown_struct(rt.alloc(), &s)?;
    same_text(&rt, read.as_str(), READ, "a structure");
    let list = shown_list(rt.alloc(), &s)?;
    same_text(&rt, list.as_str(), LIST, "its third member");
    Ok(())
}

fn buffer(alloc: Global) -> Result<PacketBuf, Fail> {
    match PacketBuf::new(alloc, 16) {
        Ok(buffer) => Ok(buffer),
        Err(_) => at_last(PacketBuf::new(alloc, 16)),
    }
}

fn back_end(alloc: Global) -> Result<ListBackEnd, Fail> {
    match ListBackEnd::new(alloc, 2, 16) {
        Ok(back_end) => Ok(back_end),
        Err(_) => at_last(ListBackEnd::new(alloc, 2, 16)),
    }
}

fn sink(alloc: Global) -> Result<MemorySink, Fail> {
    match MemorySink::with_capacity(alloc, 16) {
        Ok(sink) => Ok(sink),
        Err(_) => at_last(MemorySink::with_capacity(alloc, 16)),
    }
}

fn clock(alloc: Global) -> Result<TickClock, Fail> {
    match TickClock::new(alloc, 3, 2) {
        Ok(clock) => Ok(clock),
        Err(_) => at_last(TickClock::new(alloc, 3, 2)),
    }
}

/// A seat for two readings.
fn seat(alloc: Global) -> Result<TickSeat, Fail> {
    let mut clock = clock(alloc)?;
    match clock.seat(alloc, 2) {
        Ok(seat) => Ok(seat),
        Err(_) => at_last(clock.seat(alloc, 2)),
    }
}

#[test]
fn makes_platforms(rt: HostRuntime) -> Result<(), Fail> {
    let bytes = buffer(rt.alloc())?.len();
    let full = back_end(rt.alloc())?.full_count();
    let is_empty = sink(rt.alloc())?.bytes().is_empty();
    same(&rt, (bytes, full, is_empty), (16, 0, true), "platforms");
    let mut seat = seat(rt.alloc())?;
    let readings = [seat.read(), seat.read()];
    same(&rt, readings, [Ok(3), Ok(4)], "readings");
    Ok(())
}

/// Six bytes are put behind so many, once more where they were refused: a sink that faulted has what it had.
fn appends_six(rt: &impl Abort, sink: &mut MemorySink, had: usize) {
    if sink.append(b"abcdef").is_err() {
        let found = (sink.bytes().len(), sink.fault_count());
        same(rt, found, (had, 1), "a sink that faulted");
        same(rt, sink.append(b"abcdef"), Ok(()), "once more");
    }
    same(rt, sink.bytes().len(), had.saturating_add(6), "bytes");
}

fn begins_twice(bytes: &[u8]) -> bool {
    bytes.starts_with(b"abcdefabcdef")
}

/// A sink that grows.
#[test]
fn appends_what_was_refused(rt: HostRuntime) -> Result<(), Fail> {
    let mut sink = MemorySink::new(rt.alloc());
    for count in 0..20 {
        appends_six(&rt, &mut sink, count * 6);
    }
    holds(&rt, begins_twice(sink.bytes()), "the bytes");
    Ok(())
}

type ListStream = Stream<ListClock, ListBackEnd>;

/// A stream of what was handed back.
fn begun_again(
    alloc: Global,
    config: &Config,
    refused: NotMade<ListClock, ListBackEnd>,
) -> Result<ListStream, Fail>
    requires { IsConfig config.now }
{
    let NotMade {
        fault,
        clock,
        back_end,
        extras,
    } = refused;
    if fault != StreamFault::OutOfMemory {
        return Err(Fail::new(fault));
    }
    at_last(Stream::new(alloc, config, "s", clock, back_end, extras))
}

fn list_clock(alloc: Global) -> Result<ListClock, Fail> {
    Ok(ListClock::new(Vec::new(alloc)).ok_or("readings that fall")?)
}

fn begun(alloc: Global, config: &Config) -> Result<ListStream, Fail>
    requires { IsConfig config.now }
{
    let clock = list_clock(alloc)?;
    let back_end = back_end(alloc)?;
    match Stream::new(alloc, config, "s", clock, back_end, Values::new(alloc)) {
        Ok(stream) => Ok(stream),
        Err(refused) => begun_again(alloc, config, refused),
    }
}

fn copied(alloc: Global, config: &Config) -> Result<Config, Fail>
    requires { IsConfig config.now }
    ensures { IfOk result (λ c. IsConfig c) }
{
    match config.copy(alloc) {
        Ok(copied) => Ok(copied),
        Err(_) => match config.copy(alloc) {
            Ok(copied) => Ok(copied),
            Err(_) => Err(REFUSED.into()),
        },
    }
}

fn begun_of_copy(alloc: Global, config: &Config) -> Result<ListStream, Fail>
    requires { IsConfig config.now }
{
    let copied = copied(alloc, config)?;
    begun(alloc, &copied)
}

fn stream_of_copy(alloc: Global) -> Result<ListStream, Fail> {
    let config = configured(alloc, SMALL)?;
    begun_of_copy(alloc, &config)
}

/// What opening and closing a packet answer, and whether it is there then.
fn goes_round(stream: &mut ListStream) -> (PacketAnswer, PacketAnswer, bool) {
    let opened = stream.open_packet();
    let closed = stream.close_packet();
    (opened, closed, stream.take().is_some())
}

fn round_of_copy(alloc: Global) -> Result<(PacketAnswer, PacketAnswer, bool), Fail> {
    let mut stream = stream_of_copy(alloc)?;
    Ok(goes_round(&mut stream))
}

#[test]
fn makes_a_stream_of_a_copy(rt: HostRuntime) -> Result<(), Fail> {
    let found = round_of_copy(rt.alloc())?;
    let expected = (PacketAnswer::Done, PacketAnswer::Done, true);
    same(&rt, found, expected, "a packet");
    Ok(())
}

/// A sink is added. A refused one is handed back, and the collector is as it was.
fn added(collector: &mut Collector<MemorySink>, sink: MemorySink) -> Result<usize, Fail> {
    match collector.add(sink) {
        Ok(place) => Ok(place),
        Err(sink) => at_last(collector.add(sink)),
    }
}

/// One more sink is added at this place.
fn is_added(
    rt: &impl Abort,
    alloc: Global,
    collector: &mut Collector<MemorySink>,
    place: usize,
) -> Result<(), Fail> {
    let added = added(collector, MemorySink::new(alloc))?;
    same(rt, added, place, "a sink's place");
    Ok(())
}

#[test]
fn adds_sinks(rt: HostRuntime) -> Result<(), Fail> {
    let mut collector = Collector::new(rt.alloc());
    for place in 0..10 {
        is_added(&rt, rt.alloc(), &mut collector, place)?;
    }
    same(&rt, collector.into_sinks().len(), 10, "all sinks");
    Ok(())
}
