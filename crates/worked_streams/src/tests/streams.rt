//! Streams over lists: what their calls answer where no line of the program says so. Their buffers had other bytes before.

ghost use Rattle.ctf_types.specs.AllowedConfig.{IsConfig};

use crate::tests::expected::same;
use ctf_types::{ArgFault, Config};
use std::alloc::Global;
use std::process::Abort;
use std::test::Fail;
use thread_stream::{Stream, StreamFault};
use trace_platform::{ListBackEnd, ListClock, PacketSource, Script, ScriptedBackEnd, Turn};
use worked_fixtures::{
    CLOCKED, Changes, NARROW, SMALL, call_in_words, changed, configured, values_in_words,
};

/// What a stream is made from, and its calls.
struct Row {
    shows: &'static str,
    /// `SMALL` or `CLOCKED`, and what is changed in it.
    text: &'static str,
    changes: Changes,
    type_name: &'static str,
    buffers: usize,
    bytes: usize,
    readings: &'static [u64],
    /// The values of the extra members, with blanks between them.
    extras: &'static str,
    /// The number of the first packet, and how many event records count as discarded before it, where the stream goes on from an earlier one.
    goes_on: Option<(u64, u64)>,
    /// What becomes of the packets that the back end is handed.
    handing: &'static [Turn],
    /// Why there is no stream.
    fault: Option<StreamFault>,
    /// The calls, a line each, with what they answer.
    calls: &'static str,
    /// What the stream leaves behind them where it ends, where the row says so: the first packet that waits then, and whether one is left that came back.
    end: Option<&'static str>,
}

/// The small configuration over two buffers of 16 bytes.
const START: Row = Row {
    shows: "",
    text: SMALL,
    changes: &[],
    type_name: "s",
    buffers: 2,
    bytes: 16,
    readings: &[],
    extras: "",
    goes_on: None,
    handing: &[],
    fault: None,
    calls: "",
    end: None,
};

const COUNTED: Changes = &[("DISCARDED", r#"{"class":"uint","size":32}"#)];

/// Event records' timestamps of 8 bits.
const BYTE: Changes = &[(
    r#""event-record":{"#,
    r#""event-record":{"timestamp-field-type":"u8","#,
)];

static ROWS: &[Row] = &[
    Row {
        shows: "what stood in a buffer is in no packet",
        calls: "
trace 0 1 -> Accepted(None)
trace 0 2 -> Accepted(None)
close -> Done
collect -> c11ffcc1800000007000000001020000
collect -> none",
        ..START
    },
    Row {
        shows: "a packet that is open waits where the stream ends",
        calls: "
trace 0 1 -> Accepted(None)
trace 0 2 -> Accepted(None)",
        end: Some("c11ffcc1800000007000000001020000, left false"),
        ..START
    },
    Row {
        shows: "a packet without an event record, and no packet",
        calls: "
open -> Done
packet -> open true, empty true, full false
close -> Done
packet -> open false, empty false, full false
collect -> c11ffcc1800000006000000000000000",
        ..START
    },
    Row {
        shows: "a packet that is full, behind a text with a zero byte",
        changes: &[("PAYLOAD", r#"[{"s":{"field-type":{"class":"str"}}}]"#)],
        calls: "
trace 0 a\0b -> Misuse(ZeroByte)
trace 0 abc -> Accepted(None)
packet -> open true, empty false, full true",
        ..START
    },
    Row {
        shows: "what is too large counts as discarded",
        changes: &[("PAYLOAD", r#"[{"s":{"field-type":{"class":"str"}}}]"#)],
        calls: "
trace 0 ab -> Accepted(None)
trace 0 abcd -> Discarded(TooLarge)
discarded -> 1",
        ..START
    },
    Row {
        shows: "calls out of turn do not",
        calls: "
close -> NotOpen
open -> Done
disable -> set
trace 0 1 -> Disabled
open -> Disabled
trace 0 256 -> Misuse(Range)
enable -> set
trace 0 7 -> Accepted(None)
discarded -> 0",
        ..START
    },
    Row {
        shows: "extra members that do not fit are refused",
        changes: &[(
            "EXTRAS",
            r#"[{"cpu":{"field-type":{"class":"uint","size":8}}}]"#,
        )],
        extras: "3",
        calls: "
trace 0 1 -> Accepted(None)
close -> Done
collect -> c11ffcc1800000007000000003010000
extras 256 -> Some(BadExtras(Range))",
        ..START
    },
    Row {
        shows: "extra members are set where they have room",
        changes: &[("EXTRAS", r#"[{"n":{"field-type":{"class":"str"}}}]"#)],
        extras: r#""""#,
        calls: "
extras abc -> None
extras abcd -> Some(BufferTooSmall)",
        ..START
    },
    Row {
        shows: "a call without a reading is discarded, and opens no packet",
        text: CLOCKED,
        bytes: 64,
        readings: &[10, 11, 12],
        calls: "
trace 0 -2 -> Accepted(Some(10))
trace 1 ok -> Accepted(Some(11))
close -> Done
trace 1 ok -> Discarded(ClockSpent)
open -> ClockSpent
discarded -> 1
next -> 1",
        ..START
    },
    Row {
        shows: "a pause behind an event record opens a packet",
        text: CLOCKED,
        changes: BYTE,
        bytes: 64,
        readings: &[10, 200, 300, 301],
        calls: "
trace 0 -2 -> Accepted(Some(10))
trace 1 abcdefghijklmnopqrstuvwxyz0123456789 -> Discarded(TooLarge)
packet -> open true, empty false, full false
trace 0 +1 -> Accepted(Some(300))
packet -> open true, empty false, full false",
        ..START
    },
    Row {
        shows: "a discarded call leaves a packet empty",
        text: CLOCKED,
        changes: BYTE,
        bytes: 64,
        readings: &[10, 200, 266, 267],
        calls: "
open -> Done
trace 1 abcdefghijklmnopqrstuvwxyz0123456789 -> Discarded(TooLarge)
packet -> open true, empty true, full false",
        ..START
    },
    Row {
        shows: "a pause without a buffer leaves no packet open",
        text: CLOCKED,
        changes: BYTE,
        buffers: 1,
        bytes: 64,
        readings: &[10, 600, 601, 602],
        calls: "
trace 0 -2 -> Accepted(Some(10))
trace 0 +1 -> Discarded(BackEndFull)
packet -> open false, empty false, full false",
        ..START
    },
    Row {
        shows: "a packet that comes back is held, and goes before the next one",
        changes: COUNTED,
        bytes: 20,
        handing: &[Turn::Fails],
        calls: "
trace 0 1 -> Accepted(None)
trace 0 2 -> Accepted(None)
trace 0 3 -> Accepted(None)
trace 0 4 -> Accepted(None)
trace 0 5 -> Discarded(BackEndFull)
trace 0 6 -> Accepted(None)
close -> Done
collect -> c11ffcc1a0000000a00000000000000001020304
collect -> c11ffcc1a0000000880000000100000006000000",
        ..START
    },
    Row {
        shows: "a stream goes on from an earlier one",
        changes: COUNTED,
        buffers: 1,
        bytes: 20,
        goes_on: Some((2, 1)),
        calls: "
next -> 2
discarded -> 1
trace 0 7 -> Accepted(None)
close -> Done
collect -> c11ffcc1a0000000880000000100000007000000
collect -> none",
        ..START
    },
    Row {
        shows: "a count of 257 and a number of 300 are reduced to fields of 8 bits",
        changes: &[("DISCARDED", NARROW), ("SEQUENCE", NARROW)],
        buffers: 1,
        goes_on: Some((299, 256)),
        calls: "
open -> Done
close -> Done
trace 0 1 -> Discarded(BackEndFull)
collect -> c11ffcc18000000070000000002b0000
open -> Done
close -> Done
collect -> c11ffcc18000000070000000012c0000
discarded -> 257
next -> 301",
        ..START
    },
    Row {
        shows: "no such data stream type",
        type_name: "t",
        fault: Some(StreamFault::NoSuchStream),
        ..START
    },
    Row {
        shows: "a packet without room for header and context",
        bytes: 11,
        fault: Some(StreamFault::BufferTooSmall),
        ..START
    },
    Row {
        shows: "a size field that does not hold the bits of a packet",
        changes: &[("SIZE", NARROW)],
        bytes: 32,
        fault: Some(StreamFault::SizeField),
        ..START
    },
    Row {
        shows: "extra members where there are none",
        extras: "1",
        fault: Some(StreamFault::BadExtras(ArgFault::Count)),
        ..START
    },
];

#[test]
fn answers_each_call(rt: HostRuntime) -> Result<(), Fail> {
    for row in ROWS {
        runs(&rt, rt.alloc(), row)?;
    }
    Ok(())
}

fn runs(rt: &impl Abort, alloc: Global, row: &Row) -> Result<(), Fail> {
    let text = changed(alloc, row.text, row.changes)?;
    let config = configured(alloc, text.as_str(), None)?;
    runs_by(rt, alloc, row, &config)
}

/// The stream of a row is refused, or each of its calls answers what the row says.
fn runs_by(rt: &impl Abort, alloc: Global, row: &Row, config: &Config) -> Result<(), Fail>
    requires { IsConfig config.now }
{
    let readings = Vec::from_slice(alloc, row.readings)?;
    let clock = ListClock::new(readings).ok_or("readings that fall")?;
    let extras = values_in_words(alloc, row.extras)?;
    let back_end = back_end(alloc, row)?;
    let name = row.type_name;
    let made = match row.goes_on {
        None => Stream::new(alloc, config, name, clock, back_end, extras),
        Some((sequence, discarded)) => Stream::resume(
            alloc, config, name, clock, back_end, extras, sequence, discarded,
        ),
    };
    match made {
        Ok(stream) => {
            same(rt, None, row.fault, row.shows);
            answers_all(rt, alloc, stream, row)
        }
        Err(refused) => {
            same(rt, Some(refused.fault), row.fault, row.shows);
            Ok(())
        }
    }
}

/// The row's buffers in a list, which hands packets back as the row says.
fn back_end(alloc: Global, row: &Row) -> Result<ScriptedBackEnd, Fail> {
    let buffers = row.buffers;
    let bytes = row.bytes;
    if buffers == 0 || buffers > 1024 || bytes == 0 || bytes > 1 << 20 {
        return Err("no such back end".into());
    }
    let handing = Script::new(Vec::from_slice(alloc, row.handing)?);
    let list = ListBackEnd::filled(alloc, buffers, bytes, 0xff)?;
    let looking = Script::new(Vec::new(alloc));
    Ok(ScriptedBackEnd::new(list, looking, handing))
}

type ScriptedStream = Stream<ListClock, ScriptedBackEnd>;

/// The calls of a row, and the end of its stream.
fn answers_all(
    rt: &impl Abort,
    alloc: Global,
    stream: ScriptedStream,
    row: &Row,
) -> Result<(), Fail> {
    let mut stream = stream;
    match answers_each(rt, alloc, &mut stream, row) {
        Ok(()) => ends_so(rt, alloc, stream, row),
        Err(fail) => Err(fail),
    }
}

fn answers_each(
    rt: &impl Abort,
    alloc: Global,
    stream: &mut ScriptedStream,
    row: &Row,
) -> Result<(), Fail> {
    for line in row.calls.trim().lines() {
        let (call, want) = line.split_once(" -> ").ok_or("a call without an answer")?;
        let found = answer(alloc, stream, call)?;
        same(rt, found.as_str(), want, (row.shows, line));
    }
    Ok(())
}

/// The stream ends as the row says, where it says so.
fn ends_so(rt: &impl Abort, alloc: Global, stream: ScriptedStream, row: &Row) -> Result<(), Fail> {
    let found = ended(alloc, stream)?;
    if let Some(want) = row.end {
        same(rt, found.as_str(), want, row.shows);
    }
    Ok(())
}

/// The first packet that waits where the stream ends, and whether one is left that came back.
fn ended(alloc: Global, stream: ScriptedStream) -> Result<String, Fail> {
    let (end, _clock) = stream.finish();
    let is_left = end.left.is_some();
    let mut queue = end.done;
    let first = collected(alloc, &mut queue)?;
    Ok(format!(in alloc; "{first}, left {is_left}")?)
}

/// What a call answers, or what is told of the stream.
fn answer(alloc: Global, stream: &mut ScriptedStream, call: &str) -> Result<String, Fail> {
    let (word, data) = call.split_once(" ").unwrap_or((call, ""));
    let said = match word {
        "trace" => {
            let (event, args) = call_in_words(alloc, data)?;
            format!(in alloc; "{:?}", stream.trace(event, &args))
        }
        "open" => format!(in alloc; "{:?}", stream.open_packet()),
        "close" => format!(in alloc; "{:?}", stream.close_packet()),
        "enable" | "disable" => {
            stream.set_enabled(word == "enable");
            String::from_str(alloc, "set")
        }
        "extras" => match stream.set_extras(values_in_words(alloc, data)?) {
            Ok(()) => String::from_str(alloc, "None"),
            Err(refused) => format!(in alloc; "Some({:?})", refused.fault),
        },
        "packet" => {
            let (is_open, is_empty) = (stream.packet_is_open(), stream.packet_is_empty());
            let is_full = stream.packet_is_full();
            format!(in alloc; "open {is_open}, empty {is_empty}, full {is_full}")
        }
        "discarded" => format!(in alloc; "{}", stream.discarded_count()),
        "next" => format!(in alloc; "{}", stream.sequence_number()),
        "collect" => return collected(alloc, stream),
        _ => return Err("no such call".into()),
    };
    Ok(said?)
}

/// The bytes of the next packet in hexadecimal, whose buffer goes back.
fn collected(alloc: Global, queue: &mut impl PacketSource) -> Result<String, Fail> {
    match queue.take() {
        None => Ok(String::from_str(alloc, "none")?),
        Some(packet) => {
            let digits = hex::encode(alloc, packet.bytes())?;
            queue.give_back(packet.into_buf());
            Ok(digits)
        }
    }
}
