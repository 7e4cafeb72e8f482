//! A ring of packets, with both its ends in one thread: what comes back and what goes round.

ghost use Rattle.std.specs.Prelude.{◌≡◌, ◌≤◌, length};
ghost use Rattle.ctf_types.specs.AllowedConfig.{IsConfig};
ghost use Rattle.packet_ring.specs.Taking.{SameRing};

use crate::tests::expected::same;
use ctf_types::{Args, Config, Values};
use number_packets::{small_config, trace_packet};
use packet_ring::{RingBackEnd, RingEnd, ring};
use packet_writer::Packet;
use std::alloc::{AllocError, Global};
use std::process::Abort;
use std::test::Fail;
use thread_stream::{PacketAnswer, Stream, Verdict, Why};
use trace_platform::{BackEnd, ListClock, PacketSource};
use worked_fixtures::{Datum, bytes_of, payload, small};

pub type RingStream = Stream<ListClock, RingBackEnd>;

/// A stream of the small configuration over this back end.
pub fn stream<B: BackEnd + Drop>(alloc: Global, back_end: B) -> Result<Stream<ListClock, B>, Fail> {
    let config = small(alloc, &[])?;
    begun(alloc, &config, back_end)
}

fn begun<B: BackEnd + Drop>(
    alloc: Global,
    config: &Config,
    back_end: B,
) -> Result<Stream<ListClock, B>, Fail>
    requires { IsConfig config.now }
{
    let clock = ListClock::new(Vec::new(alloc)).ok_or("readings that fall")?;
    match Stream::new(alloc, config, "s", clock, back_end, Values::new(alloc)) {
        Ok(stream) => Ok(stream),
        Err(refused) => Err(Fail::new(refused.fault)),
    }
}

/// A stream of the small configuration over a ring of one place, and the ring's other end.
pub fn ring_stream(alloc: Global) -> Result<(RingStream, RingEnd), Fail> {
    let (back_end, ring_end) = ring(alloc, 1, 16)?;
    let stream = stream(alloc, back_end)?;
    Ok((stream, ring_end))
}

/// Whether the next packet is these bytes; its buffer goes back.
fn takes(source: &mut RingEnd, want: &[u8]) -> bool
    ensures { SameRing source.old source.new × (source.new.settled ≡ source.old.settled) }
{
    match source.take() {
        None => false,
        Some(packet) => {
            let same = packet.bytes() == want;
            source.give_back(packet.into_buf());
            same
        }
    }
}

/// Whether a packet without event records is opened and closed.
pub fn makes_empty(stream: &mut RingStream) -> bool {
    stream.open_packet() == PacketAnswer::Done && stream.close_packet() == PacketAnswer::Done
}

/// Whether the stream leaves a packet of these bytes behind.
fn leaves(stream: RingStream, want: &[u8]) -> bool {
    let (end, _clock) = stream.finish();
    match &end.left {
        None => false,
        Some(packet) => packet.bytes() == want,
    }
}

/// A full ring of one place hands the second packet back, and a call behind that leaves the third behind.
#[test]
fn holds_the_packet_that_a_ring_hands_back(rt: HostRuntime) -> Result<(), Fail> {
    let args = payload(rt.alloc(), &[Datum::Unsigned(9)])?;
    let empty = bytes_of(rt.alloc(), "c11ffcc1 80000000 60000000 00000000")?;
    let nine = bytes_of(rt.alloc(), "c11ffcc1 80000000 68000000 09000000")?;
    let (mut stream, mut ring_end) = ring_stream(rt.alloc())?;
    fills(&rt, &mut stream, &mut ring_end, empty.as_slice(), &args);
    same(&rt, leaves(stream, nine.as_slice()), true, "what is left");
    let is_ended = ring_end.is_ended();
    let is_last = takes(&mut ring_end, empty.as_slice());
    let is_all = ring_end.take().is_none();
    same(
        &rt,
        (is_ended, is_last, is_all),
        (true, true, true),
        "the end",
    );
    Ok(())
}

/// Two packets without records fill the ring: no packet is opened, and a call is discarded until the first packet is taken.
fn fills(
    rt: &impl Abort,
    stream: &mut RingStream,
    ring_end: &mut RingEnd,
    empty: &[u8],
    args: &Args,
) {
    same(rt, makes_empty(stream), true, "a packet");
    same(rt, makes_empty(stream), true, "a second packet");
    same(rt, stream.open_packet(), PacketAnswer::Full, "a full ring");
    let lost = Verdict::Discarded(Why::BackEndFull);
    same(rt, stream.trace(0, args), lost, "a call that is lost");
    same(rt, takes(ring_end, empty), true, "the first packet");
    let held = Verdict::Accepted(None);
    same(rt, stream.trace(0, args), held, "a call in a third packet");
}

/// A closed packet of 16 bytes with this number, and with an event record of each value.
pub fn packet(alloc: Global, sequence: u64, values: &[u8]) -> Result<Packet, AllocError>
    requires { length values.now ≤ 4 }
{
    let config = small_config(alloc)?;
    trace_packet(alloc, &config, sequence, values)
}

const FIRST: &str = "c11ffcc1 80000000 68000000 01000000";

const SECOND: &str = "c11ffcc1 80000000 68000000 02000000";

/// A ring of one place: whether it takes the first packet, hands the second back, counts that, gives the first, takes the second then, settles, and gives
/// the second and no more.
fn hands_over(alloc: Global, first: Packet, second: Packet) -> Result<[bool; 8], Fail> {
    let first_bytes = bytes_of(alloc, FIRST)?;
    let second_bytes = bytes_of(alloc, SECOND)?;
    let (mut back_end, mut ring_end) = ring(alloc, 1, 16)?;
    let takes_first = back_end.hand_over(first).is_ok();
    let Err(second) = back_end.hand_over(second) else {
        return Err("a place too many".into());
    };
    let counts = back_end.full_count() == 1;
    let gives_first = takes(&mut ring_end, first_bytes.as_slice());
    let takes_second = back_end.hand_over(second).is_ok();
    let settles = ring_end.settle(back_end.end());
    let gives_second = takes(&mut ring_end, second_bytes.as_slice());
    let gives_no_more = ring_end.take().is_none();
    Ok([
        takes_first,
        true,
        counts,
        gives_first,
        takes_second,
        settles,
        gives_second,
        gives_no_more,
    ])
}

#[test]
fn hands_over_in_order_and_settles(rt: HostRuntime) -> Result<(), Fail> {
    let first = packet(rt.alloc(), 0, &[1])?;
    let second = packet(rt.alloc(), 0, &[2])?;
    let answers = hands_over(rt.alloc(), first, second)?;
    same(&rt, answers, [true; 8], "answers");
    Ok(())
}

/// A ring of two places has these two packets, and no third.
#[test]
fn hands_back_a_packet_while_its_places_are_taken(rt: HostRuntime) -> Result<(), Fail> {
    let first = packet(rt.alloc(), 0, &[1])?;
    let second = packet(rt.alloc(), 0, &[2])?;
    let third = packet(rt.alloc(), 0, &[3])?;
    let first_bytes = bytes_of(rt.alloc(), FIRST)?;
    let second_bytes = bytes_of(rt.alloc(), SECOND)?;
    let (mut back_end, mut ring_end) = ring(rt.alloc(), 2, 16)?;
    same(&rt, back_end.hand_over(first).is_ok(), true, "the first");
    same(&rt, back_end.hand_over(second).is_ok(), true, "the second");
    same(&rt, back_end.hand_over(third).is_ok(), false, "the third");
    let both = (
        takes(&mut ring_end, first_bytes.as_slice()),
        takes(&mut ring_end, second_bytes.as_slice()),
    );
    let no_more = ring_end.take().is_none();
    same(&rt, (both, no_more), ((true, true), true), "packets");
    Ok(())
}
