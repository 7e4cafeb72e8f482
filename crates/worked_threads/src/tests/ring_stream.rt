//! A stream of the small configuration at the one end of a ring, and a sink at the other: a packet is held while the ring is full, and the packet that is left comes
//! last.

ghost use Rattle.std.specs.Prelude.{◌≡◌, false, IfOk};
ghost use Rattle.ctf_types.specs.AllowedConfig.{IsConfig};
ghost use Rattle.packet_ring.specs.declared.ring_done.RingDone.{RingDone};
ghost use Rattle.packet_ring.specs.declared.ring_end.RingEnd.{RingEnd};
ghost use Rattle.packet_ring.specs.Opening.{AreEnds};
ghost use Rattle.packet_ring.specs.Taking.{IsOwn};
ghost use Rattle.worked_threads.specs.Rings.{IsAtRing, StaysAtRing};

use ctf_types::{Args, Config, Values};
use packet_collector::{Collected, FinishAnswer, collect_into, finish_into};
use packet_ring::{RingBackEnd, RingDone, RingEnd};
use std::alloc::Global;
use thread_stream::{PacketAnswer, Stream, StreamEnd, StreamFault, Verdict, Why};
use trace_platform::{ListClock, MemorySink};

pub type RingStream = Stream<ListClock, RingBackEnd>;

/// Two packets without event records, and one with 9.
pub const PACKETS: &str =
    "c11ffcc1 80000000 60000000 00000000 c11ffcc1 80000000 60000000 00000000 c11ffcc1 80000000 68000000 09000000";

/// A stream of the configuration over this end of a ring.
pub fn begun(
    alloc: Global,
    config: &Config,
    clock: ListClock,
    back_end: RingBackEnd,
) -> Result<RingStream, StreamFault>
    requires { IsConfig config.now }
    ensures { IfOk result (λ a. (e : RingEnd) → AreEnds back_end e → IsAtRing a e) }
{
    match Stream::new(alloc, config, "s", clock, back_end, Values::new(alloc)) {
        Ok(stream) => Ok(stream),
        Err(refused) => Err(refused.fault),
    }
}

fn opened(stream: &mut RingStream) -> PacketAnswer
    ensures { StaysAtRing stream.old stream.new }
{
    stream.open_packet()
}

fn closed(stream: &mut RingStream) -> PacketAnswer
    ensures { StaysAtRing stream.old stream.new }
{
    stream.close_packet()
}

pub fn traced(stream: &mut RingStream, args: &Args) -> Verdict
    ensures { StaysAtRing stream.old stream.new }
{
    stream.trace(0, args)
}

/// A packet without event records. It answers whether the stream said so.
fn makes_empty(stream: &mut RingStream) -> bool
    ensures { StaysAtRing stream.old stream.new }
{
    let first = opened(stream);
    let second = closed(stream);
    first == PacketAnswer::Done && second == PacketAnswer::Done
}

/// Calls until the ring is full and a packet is held.
pub fn fills(stream: &mut RingStream, args: &Args) -> bool
    ensures { StaysAtRing stream.old stream.new }
{
    let first = makes_empty(stream);
    let second = makes_empty(stream);
    let full = opened(stream);
    let lost = traced(stream, args);
    first && second && full == PacketAnswer::Full && lost == Verdict::Discarded(Why::BackEndFull)
}

/// What the stream leaves belongs to the other end of its ring, which is not settled yet.
pub fn ended(stream: RingStream) -> StreamEnd<RingDone>
    ensures { (e : RingEnd) → IsAtRing stream e → e.settled ≡ false → IsOwn e result.done }
{
    let (end, _clock) = stream.finish();
    end
}

/// A sink with its mark, and the end of a ring that its packets come from.
#[derive(Drop)]
pub struct Lane {
    pub sink: MemorySink,
    pub faulted: bool,
    pub ring_end: RingEnd,
}

/// One collection.
pub fn collected(lane: &mut Lane) -> Collected
    ensures { (done : RingDone) → IsOwn lane.old.ring_end done → IsOwn lane.new.ring_end done }
{
    collect_into(&mut lane.sink, &mut lane.faulted, &mut lane.ring_end)
}

/// The last collection.
pub fn gathered(lane: &mut Lane, end: StreamEnd<RingDone>) -> FinishAnswer
    requires { IsOwn lane.old.ring_end end.done }
{
    finish_into(&mut lane.sink, &mut lane.faulted, &mut lane.ring_end, end)
}
