//! Streams over scripted platforms, of a configuration with a clock, texts and extra members.

ghost use Rattle.ctf_types.specs.AllowedConfig.{IsConfig};

use crate::tests::fixtures::{Datum, configured, values};
use ctf_types::{Config, Values};
use std::alloc::Global;
use std::test::Fail;
use thread_stream::Stream;
use trace_platform::{ListBackEnd, ListClock, Script, ScriptedBackEnd, ScriptedClock, Turn};

/// Event record types: 0 has a signed number of 16 bits, 1 has a string. Header and context take 28 bytes and the bytes of the string `name`;
/// a record of type 1 takes 9 bytes and those of its string.
pub static TRACED: &str =
    r#"{"trace":{"type":{"native-byte-order":"be","clock-types":{"clk":{}},"$features":{"data-stream-type-id-field-type":"u8"},"data-stream-types":{"s":{"$default-clock-type-name":"clk","$features":{"packet":{"total-size-field-type":"u16","content-size-field-type":"u16","discarded-event-records-counter-snapshot-field-type":"u8","sequence-number-field-type":"u8"},"event-record":{"type-id-field-type":"u8"}},"packet-context-field-type-extra-members":[{"cpu":"u8"},{"name":{"field-type":{"class":"str"}}}],"event-record-types":{"a":{"payload-field-type":{"class":"struct","members":[{"n":{"field-type":{"class":"sint","size":16}}}]}},"b":{"payload-field-type":{"class":"struct","members":[{"s":{"field-type":{"class":"str"}}}]}}}}},"$field-type-aliases":{"u8":{"class":"uint","size":8},"u16":{"class":"uint","size":16}}}}}"#;

/// The readings of every clock.
static READINGS: &[u64] = &[
    1, 2, 3, 4, 5, 6, 7, 8, 9, 10, 11, 12, 13, 14, 15, 16, 17, 18, 19, 20,
];

pub type Traced = Stream<ScriptedClock, ScriptedBackEnd>;

/// How the clock answers its readings, and the back end whether it is full and what it is handed.
#[derive(Clone, Copy)]
pub struct Turns {
    pub reading: &'static [Turn],
    pub looking: &'static [Turn],
    pub handing: &'static [Turn],
}

/// Every call works.
pub const WORKS: Turns = Turns {
    reading: &[],
    looking: &[],
    handing: &[],
};

fn script(alloc: Global, turns: &[Turn]) -> Result<Script, Fail> {
    Ok(Script::new(Vec::from_slice(alloc, turns)?))
}

fn clock(alloc: Global, turns: &Turns) -> Result<ScriptedClock, Fail> {
    let readings = Vec::from_slice(alloc, READINGS)?;
    let turns = script(alloc, turns.reading)?;
    let clock = ListClock::new(readings).ok_or("readings that fall")?;
    Ok(ScriptedClock::new(clock, turns))
}

/// Three buffers of 64 bytes.
fn back_end(alloc: Global, turns: &Turns) -> Result<ScriptedBackEnd, Fail> {
    let looking = script(alloc, turns.looking)?;
    let handing = script(alloc, turns.handing)?;
    let list = ListBackEnd::new(alloc, 3, 64)?;
    Ok(ScriptedBackEnd::new(list, looking, handing))
}

/// A stream of this configuration, whose extra members are 1 and `x`.
fn started(alloc: Global, config: &Config, turns: &Turns) -> Result<Traced, Fail>
    requires { IsConfig config.now }
{
    let extras = values(alloc, &[Datum::Unsigned(1), Datum::Text(b"x")])?;
    let clock = clock(alloc, turns)?;
    let back_end = back_end(alloc, turns)?;
    match Stream::new(alloc, config, "s", clock, back_end, extras) {
        Ok(stream) => Ok(stream),
        Err(refused) => Err(Fail::new(refused.fault)),
    }
}

/// A stream over three buffers of 64 bytes, whose extra members are 1 and `x`.
pub fn traced(alloc: Global, turns: &Turns) -> Result<Traced, Fail> {
    let config = configured(alloc, TRACED)?;
    started(alloc, &config, turns)
}

/// A clock, a back end and extra members: what an idle stream gives back.
pub fn parts_of(stream: Traced) -> Option<(ScriptedClock, ScriptedBackEnd, Values)> {
    if !stream.is_idle() {
        return None;
    }
    Some(stream.into_parts())
}
