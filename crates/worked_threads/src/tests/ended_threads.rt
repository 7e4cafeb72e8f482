//! A stream in a thread of its own, which ends before the last collection.

ghost use Rattle.std.specs.Prelude.{◌≡◌, false, IfSome};
ghost use Rattle.ctf_types.specs.AllowedConfig.{IsConfig};
ghost use Rattle.packet_ring.specs.declared.ring_done.RingDone.{RingDone};
ghost use Rattle.packet_ring.specs.declared.ring_end.RingEnd.{RingEnd};
ghost use Rattle.packet_ring.specs.Opening.{AreEnds};
ghost use Rattle.packet_ring.specs.Taking.{IsOwn};
ghost use Rattle.worked_threads.specs.Rings.{StaysAtRing};

use crate::tests::expected::same;
use crate::tests::ring_stream::{
    Lane, PACKETS, RingStream, begun, collected, ended, fills, gathered, traced,
};
use crate::tests::thread_gates::Flag;
use ctf_types::{Args, Config};
use packet_collector::{Collected, FinishAnswer};
use packet_ring::{RingBackEnd, RingDone, RingEnd, ring};
use std::alloc::Global;
use std::test::Fail;
use std::thread;
use std::thread::Threads;
use std::time::Clock;
use thread_stream::{StreamEnd, Verdict};
use trace_platform::{ListClock, MemorySink};
use worked_fixtures::{Datum, SMALL, bytes_of, changed, config_of, payload};

/// What two threads tell each other: that the ring is full, and that a packet was collected.
#[derive(Drop)]
struct Flags {
    full: Flag,
    collected: Flag,
}

/// The calls of the stream, and whether each answer was the wanted one.
fn traces<C: Clock>(
    clock: &C,
    flags: &Flags,
    alloc: Global,
    back_end: RingBackEnd,
) -> Option<(bool, StreamEnd<RingDone>)>
    ensures { IfSome result (λ r. (e : RingEnd) → AreEnds back_end e → e.settled ≡ false → IsOwn e r.1.done) }
{
    let args = payload(alloc, &[Datum::Unsigned(9)]).ok()?;
    let text = changed(alloc, SMALL, &[]).ok()?;
    let config = config_of(alloc, text.as_str())?;
    traces_by(clock, flags, alloc, &config, back_end, &args)
}

fn traces_by<C: Clock>(
    clock: &C,
    flags: &Flags,
    alloc: Global,
    config: &Config,
    back_end: RingBackEnd,
    args: &Args,
) -> Option<(bool, StreamEnd<RingDone>)>
    requires { IsConfig config.now }
    ensures { IfSome result (λ r. (e : RingEnd) → AreEnds back_end e → e.settled ≡ false → IsOwn e r.1.done) }
{
    let readings = ListClock::new(Vec::new(alloc))?;
    let Ok(mut stream) = begun(alloc, config, readings, back_end) else {
        return None;
    };
    let as_wanted = traces_in_turn(clock, flags, &mut stream, args);
    let end = ended(stream);
    Some((as_wanted, end))
}

/// An event record follows the packets once one of them was collected.
fn traces_in_turn<C: Clock>(clock: &C, flags: &Flags, stream: &mut RingStream, args: &Args) -> bool
    ensures { StaysAtRing stream.old stream.new }
{
    let filled = fills(stream, args);
    flags.full.raise();
    let seen = flags.collected.is_seen(clock);
    let last = traced(stream, args);
    filled && seen && last == Verdict::Accepted(None)
}

/// One collection, once the ring is full, and whether it took the first packet.
fn collects<C: Clock>(clock: &C, flags: &Flags, alloc: Global, ring_end: RingEnd) -> (bool, Lane)
    ensures { (done : RingDone) → IsOwn ring_end done → IsOwn result.1.ring_end done }
{
    let mut lane = Lane {
        sink: MemorySink::new(alloc),
        faulted: false,
        ring_end,
    };
    let seen = flags.full.is_seen(clock);
    let answer = collected(&mut lane);
    flags.collected.raise();
    (seen && answer == Collected::Took(0), lane)
}

/// The stream in one thread and the sink in another; once both have ended the sink is gathered. None where an answer was not the wanted one.
fn in_two_threads<R: Threads + Clock + Sync>(
    rt: &R,
    alloc: Global,
) -> Option<(FinishAnswer, MemorySink)> {
    let Ok((back_end, ring_end)) = ring(alloc, 1, 16) else {
        return None;
    };
    let flags = Flags {
        full: Flag::new(),
        collected: Flag::new(),
    };
    let flags = &flags;
    let (traced, collected) = thread::join(
        rt,
        move || -> Option<(bool, StreamEnd<RingDone>)>
            ensures { IfSome result (λ r. (e : RingEnd) → AreEnds back_end e → e.settled ≡ false → IsOwn e r.1.done) }
        { traces(rt, flags, alloc, back_end) },
        move || -> (bool, Lane)
            ensures { (done : RingDone) → IsOwn ring_end done → IsOwn result.1.ring_end done }
        { collects(rt, flags, alloc, ring_end) },
    );
    let (as_wanted, end) = traced?;
    let (took, mut lane) = collected;
    if !as_wanted || !took {
        return None;
    }
    let answer = gathered(&mut lane, end);
    Some((answer, lane.sink))
}

#[test]
fn gathers_what_a_thread_left_behind(rt: HostRuntime) -> Result<(), Fail> {
    let want = bytes_of(rt.alloc(), PACKETS)?;
    let (answer, sink) = in_two_threads(&rt, rt.alloc()).ok_or("an answer was another one")?;
    same(&rt, answer, FinishAnswer::Settled, "the last collection");
    same(&rt, sink.bytes(), want.as_slice(), "the packets");
    Ok(())
}
