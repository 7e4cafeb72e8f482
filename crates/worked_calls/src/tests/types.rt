//! Worked rows, and each call once with ample memory.

mod containers;
mod copies;
mod refills;

use crate::tests::expected::same;
use crate::tests::fixtures::{Datum, Kind, configured, structure, values};
use ctf_types::{
    ArgFault, Args, Base, Config, IntType, Value, Values, align_of, call_faults, fits,
    members_size, size_from,
};
use std::alloc::Global;
use std::process::Abort;
use std::test::Fail;

/// What a row shows, a structure's members, values, and their first fault.
type Row = (
    &'static str,
    &'static [Kind],
    &'static [Datum],
    Result<(), ArgFault>,
);

const PAIR: &[Kind] = &[Kind::Int(8, 8, false), Kind::Str];

static FAULTS: &[Row] = &[
    (
        "a number past its range before a text with a zero byte",
        PAIR,
        &[Datum::Unsigned(256), Datum::Text(b"a\0b")],
        Err(ArgFault::Range),
    ),
    (
        "a signed number for an unsigned one",
        PAIR,
        &[Datum::Signed(1), Datum::Text(b"")],
        Err(ArgFault::Kind),
    ),
    (
        "one value too few",
        PAIR,
        &[Datum::Unsigned(1)],
        Err(ArgFault::Count),
    ),
    (
        "an element too few",
        &[Kind::Array(3, 8, 8)],
        &[Datum::List(&[0, 0])],
        Err(ArgFault::Length),
    ),
    (
        "one past the largest number of 5 signed bits",
        &[Kind::Int(5, 1, true)],
        &[Datum::Signed(16)],
        Err(ArgFault::Range),
    ),
    (
        "the least number of 5 signed bits",
        &[Kind::Int(5, 1, true)],
        &[Datum::Signed(-16)],
        Ok(()),
    ),
];

#[test]
fn first_faults(rt: HostRuntime) -> Result<(), Fail> {
    for row in FAULTS {
        has_fault(&rt, rt.alloc(), row)?;
    }
    Ok(())
}

fn has_fault(
    rt: &impl Abort,
    alloc: Global,
    (shows, kinds, data, expected): &Row,
) -> Result<(), Fail> {
    let s = structure(alloc, kinds)?;
    let given = values(alloc, data)?;
    same(rt, fits(&s, given.as_slice()), *expected, shows);
    Ok(())
}

/// The bits of an integer and its alignment, and whether there is one.
static INTEGERS: &[(u8, u32, bool)] = &[
    (0, 8, false),
    (65, 8, false),
    (8, 3, false),
    (8, 8192, false),
    (64, 4096, true),
];

#[test]
fn integers_have_1_to_64_bits_and_an_alignment_up_to_4096(rt: HostRuntime) -> Result<(), Fail> {
    for row in INTEGERS {
        is_made(&rt, row);
    }
    Ok(())
}

fn is_made(rt: &impl Abort, (size, align, expected): &(u8, u32, bool)) {
    let made = IntType::new(*size, *align, false, Base::Dec).is_some();
    same(rt, made, *expected, "an integer");
}

/// From bit 0, from bit 8, of the members alone, and the alignment.
#[test]
fn sizes_up_to_the_longest_packet(rt: HostRuntime) -> Result<(), Fail> {
    let mut zeros = Values::new(rt.alloc());
    for _ in 0..1 << 20 {
        zeros.push(Value::Unsigned(0))?;
    }
    let longest = structure(rt.alloc(), &[Kind::Array(1 << 20, 8, 8)])?;
    let given = [Value::List(zeros)];
    let found = (
        size_from(&longest, &given, 0),
        size_from(&longest, &given, 8),
        members_size(&longest, 0, &given, 0),
        align_of(&longest),
    );
    same(&rt, found, (Some(1 << 23), None, Some(1 << 23), 8), "sizes");
    Ok(())
}

/// A stream type with one event record type, whose payload is one byte.
static SMALL: &str =
    r#"{"trace":{"type":{"trace-byte-order":"le","$features":{"magic-field-type":false,"data-stream-type-id-field-type":false},"data-stream-types":{"s":{"$features":{"packet":{"total-size-field-type":{"class":"uint","size":32},"content-size-field-type":{"class":"uint","size":32},"discarded-event-records-counter-snapshot-field-type":false},"event-record":{"type-id-field-type":false}},"event-record-types":{"e":{"payload-field-type":{"class":"struct","members":[{"x":{"field-type":{"class":"uint","size":8}}}]}}}}}}}}"#;

/// The number of an event record type, the values of a payload, and their first fault.
static CALLS: &[(usize, &[Datum], Result<(), ArgFault>)] = &[
    (1, &[], Err(ArgFault::NoSuchEvent)),
    (0, &[], Err(ArgFault::Count)),
    (0, &[Datum::Unsigned(256)], Err(ArgFault::Range)),
    (0, &[Datum::Unsigned(255)], Ok(())),
];

#[test]
fn first_faults_of_a_call(rt: HostRuntime) -> Result<(), Fail> {
    let config = configured(rt.alloc(), SMALL)?;
    calls_have_faults(&rt, rt.alloc(), &config)
}

fn calls_have_faults(rt: &impl Abort, alloc: Global, config: &Config) -> Result<(), Fail> {
    let stream = config.streams.get(0).ok_or("no stream")?;
    for (event, data, expected) in CALLS {
        let args = Args {
            common: Values::new(alloc),
            specific: Values::new(alloc),
            payload: values(alloc, data)?,
        };
        same(rt, call_faults(stream, *event, &args), *expected, "a call");
    }
    Ok(())
}
