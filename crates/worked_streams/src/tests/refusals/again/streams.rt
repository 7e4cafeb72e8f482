//! The calls that make a stream over a ring, and the sinks of a collector.

ghost use Rattle.std.specs.Prelude.{◌<◌, length, IfOk};
ghost use Rattle.ctf_types.specs.AllowedConfig.{IsConfig};

use super::at_last;
use crate::tests::expected::same;
use crate::tests::rings::{RingStream, makes_empty};
use ctf_types::{Config, Values};
use packet_collector::{Collected, Collector};
use packet_ring::{RingBackEnd, RingEnd, ring};
use std::alloc::Global;
use std::test::Fail;
use thread_stream::{NotMade, Stream, StreamFault};
use trace_platform::{ListClock, MemorySink};
use worked_fixtures::{SMALL, changed, configuration};

fn both_ends(alloc: Global) -> Result<(RingBackEnd, RingEnd), Fail> {
    match ring(alloc, 1, 16) {
        Ok(ends) => Ok(ends),
        Err(_) => at_last(ring(alloc, 1, 16)),
    }
}

/// A stream; where memory was wanting, of what was handed back.
fn begun(alloc: Global, config: &Config, back_end: RingBackEnd) -> Result<RingStream, Fail>
    requires { IsConfig config.now }
{
    let clock = ListClock::new(Vec::new(alloc)).ok_or("readings that fall")?;
    let NotMade {
        fault,
        clock,
        back_end,
        extras,
    } = match Stream::new(alloc, config, "s", clock, back_end, Values::new(alloc)) {
        Ok(stream) => return Ok(stream),
        Err(refused) => refused,
    };
    if fault != StreamFault::OutOfMemory {
        return Err("another refusal".into());
    }
    at_last(Stream::new(alloc, config, "s", clock, back_end, extras))
}

/// A collector with one sink, which has room for a packet.
fn collector(alloc: Global) -> Result<Collector<MemorySink>, Fail>
    ensures { IfOk result (λ c. 0 < length c) }
{
    let sink = MemorySink::with_capacity(alloc, 16)?;
    let mut collector = Collector::new(alloc);
    let Err(sink) = collector.add(sink) else {
        return Ok(collector);
    };
    match collector.add(sink) {
        Ok(_) => Ok(collector),
        Err(_) => Err("a second refusal".into()),
    }
}

#[test]
fn collects_a_packet_over_a_ring(rt: HostRuntime) -> Result<(), Fail> {
    let answers = answers(rt.alloc())?;
    same(&rt, answers, (true, Collected::Took(0)), "a packet");
    Ok(())
}

/// Whether a packet without event records is made, and what is answered to its collection.
fn answers(alloc: Global) -> Result<(bool, Collected), Fail> {
    let config = configuration(alloc, changed(alloc, SMALL, &[])?.as_str())?;
    answers_by(alloc, &config)
}

fn answers_by(alloc: Global, config: &Config) -> Result<(bool, Collected), Fail>
    requires { IsConfig config.now }
{
    let mut collector = collector(alloc)?;
    let (back_end, ring_end) = both_ends(alloc)?;
    answers_over(alloc, config, &mut collector, back_end, ring_end)
}

fn answers_over(
    alloc: Global,
    config: &Config,
    collector: &mut Collector<MemorySink>,
    back_end: RingBackEnd,
    mut ring_end: RingEnd,
) -> Result<(bool, Collected), Fail>
    requires config { IsConfig config.now }
    requires sink { 0 < length collector.old }
{
    let mut stream = begun(alloc, config, back_end)?;
    let made = makes_empty(&mut stream);
    Ok((made, collector.collect(0, &mut ring_end)))
}
