//! A packet that is held while its ring is full, and a sink that may have no memory for the packets.

ghost use Rattle.std.specs.Prelude.{◌≡◌, false};
ghost use Rattle.ctf_types.specs.AllowedConfig.{IsConfig};
ghost use Rattle.packet_ring.specs.declared.ring_done.RingDone.{RingDone};
ghost use Rattle.packet_ring.specs.Taking.{IsOwn};
ghost use Rattle.worked_threads.specs.Rings.{IsAtRing, StaysAtRing};

use super::super::OUT_OF_MEMORY;
use crate::tests::ring_stream::{
    Lane, PACKETS, RingStream, begun, collected, ended, fills, gathered, traced,
};
use ctf_types::{Args, Config};
use packet_collector::{Collected, FinishAnswer};
use packet_ring::ring;
use std::alloc::Global;
use std::process::Abort;
use std::test::Fail;
use thread_stream::Verdict;
use trace_platform::{ListClock, MemorySink};
use worked_fixtures::{Datum, SMALL, bytes_of, changed, configuration, granted, payload};

/// A packet is held until one is collected. A sink that has no memory for that faults.
fn holds_until_collected(rt: &impl Abort, stream: &mut RingStream, args: &Args, lane: &mut Lane)
    ensures stream { StaysAtRing stream.old stream.new }
    ensures lane { (done : RingDone) → IsOwn lane.old.ring_end done → IsOwn lane.new.ring_end done }
{
    let filled = fills(stream, args);
    assert!(rt; filled);
    let answer = collected(lane);
    assert!(rt; answer == Collected::Took(0) || (answer == Collected::Faulted && lane.faulted));
    let last = traced(stream, args);
    assert_eq!(rt; last, Verdict::Accepted(None));
}

/// The last packet is left, and is gathered. A sink that faulted stays so.
fn gathers(rt: &impl Abort, stream: RingStream, args: &Args, lane: &mut Lane) -> FinishAnswer
    requires ends { IsAtRing stream lane.old.ring_end }
    requires open { lane.old.ring_end.settled ≡ false }
{
    let mut stream = stream;
    holds_until_collected(rt, &mut stream, args, lane);
    let end = ended(stream);
    assert!(rt; end.left.is_some());
    let was_faulted = lane.faulted;
    let answer = gathered(lane, end);
    assert!(rt; answer == FinishAnswer::Faulted || !was_faulted);
    answer
}

/// The stream at the one end of its ring, and the sink at the other. A sink that had no memory faulted, and is answered with its mark.
fn run(rt: &impl Abort, alloc: Global) -> Result<(FinishAnswer, MemorySink), Fail> {
    let text = granted(changed(alloc, SMALL, &[]))?;
    let config = configuration(alloc, text.as_str())?;
    run_by(rt, alloc, &config)
}

fn run_by(
    rt: &impl Abort,
    alloc: Global,
    config: &Config,
) -> Result<(FinishAnswer, MemorySink), Fail>
    requires { IsConfig config.now }
{
    let args = granted(payload(alloc, &[Datum::Unsigned(9)]))?;
    let clock = ListClock::new(Vec::new(alloc)).ok_or("readings that fall")?;
    let Ok((back_end, ring_end)) = ring(alloc, 1, 16) else {
        return Err(Fail::new(OUT_OF_MEMORY));
    };
    let mut lane = Lane {
        sink: MemorySink::new(alloc),
        faulted: false,
        ring_end,
    };
    match begun(alloc, config, clock, back_end) {
        Ok(stream) => {
            let answer = gathers(rt, stream, &args, &mut lane);
            Ok((answer, lane.sink))
        }
        Err(fault) => Err(Fail::new(fault)),
    }
}

/// The sink has all packets, or a front of them where it faulted.
fn has_packets(
    rt: &impl Abort,
    answer: FinishAnswer,
    found: &[u8],
    want: &[u8],
) -> Result<(), Fail> {
    assert!(rt; want.starts_with(found));
    if answer == FinishAnswer::Faulted {
        return Err(Fail::new(OUT_OF_MEMORY));
    }
    assert_eq!(rt; answer, FinishAnswer::Settled);
    assert_eq!(rt; found, want);
    Ok(())
}

#[test]
fn holds_a_packet(rt: HostRuntime) -> Result<(), Fail> {
    let alloc = rt.alloc();
    let (answer, sink) = run(&rt, alloc)?;
    let want = bytes_of(alloc, PACKETS)?;
    has_packets(&rt, answer, sink.bytes(), want.as_slice())
}
