//! Streams over seats of one clock, of which one is told what another traced. None of it takes memory: the script beside the gate counts the requests of the test
//! that makes two streams and those of the test that makes them and traces.

ghost use Rattle.std.specs.Prelude.{◌≡◌, IfOk};
ghost use Rattle.ctf_types.specs.AllowedConfig.{IsConfig};
ghost use Rattle.thread_stream.specs.Telling.{HasHistory};
ghost use Rattle.trace_clock.specs.Seats.{clock_of};

use crate::tests::clocks::two_seats;
use crate::tests::expected::{holds, same};
use crate::tests::fixtures::{Datum, configured, values};
use crate::tests::traced::TRACED;
use ctf_types::{ArgFault, Args, Config, Values};
use std::alloc::Global;
use std::test::Fail;
use thread_stream::{
    Stream, Verdict, Why, calls_are_walks, packets_in_turn, seats_stay_at_their_clock,
};
use trace_clock::TickSeat;
use trace_platform::{BackEnd, ListBackEnd};

type Seated = Stream<TickSeat, ListBackEnd>;

fn begun(alloc: Global, config: &Config, seat: TickSeat) -> Result<Seated, Fail>
    requires { IsConfig config.now }
    ensures history { IfOk result (λ a. HasHistory ⟦<ListBackEnd as BackEnd>⟧ a) }
    ensures clock { IfOk result (λ a. clock_of a.clock ≡ clock_of seat) }
{
    let extras = values(alloc, &[Datum::Unsigned(1), Datum::Text(b"x")])?;
    let back_end = ListBackEnd::new(alloc, 3, 64)?;
    match Stream::new(alloc, config, "s", seat, back_end, extras) {
        Ok(stream) => Ok(stream),
        Err(refused) => Err(Fail::new(refused.fault)),
    }
}

/// Two streams at one clock.
#[derive(Drop)]
struct Two {
    first: Seated,
    second: Seated,
}

fn both_begun(alloc: Global, config: &Config, seats: (TickSeat, TickSeat)) -> Result<Two, Fail>
    requires config { IsConfig config.now }
    requires seats { clock_of seats.0 ≡ clock_of seats.1 }
    ensures history { IfOk result (λ t. HasHistory ⟦<ListBackEnd as BackEnd>⟧ t.first) }
    ensures clock { IfOk result (λ t. clock_of t.first.clock ≡ clock_of t.second.clock) }
{
    let (first_seat, second_seat) = seats;
    let first = begun(alloc, config, first_seat)?;
    let second = begun(alloc, config, second_seat)?;
    Ok(Two { first, second })
}

/// Two streams at one clock, whose seats have these quotas.
fn both(alloc: Global, first: u64, second: u64) -> Result<Two, Fail>
    ensures history { IfOk result (λ t. HasHistory ⟦<ListBackEnd as BackEnd>⟧ t.first) }
    ensures clock { IfOk result (λ t. clock_of t.first.clock ≡ clock_of t.second.clock) }
{
    let seats = two_seats(alloc, 0, 6, first, second)?;
    let config = configured(alloc, TRACED)?;
    both_begun(alloc, &config, seats)
}

fn number(alloc: Global, n: i64) -> Result<Args, Fail> {
    let payload = values(alloc, &[Datum::Signed(n)])?;
    Ok(Args {
        common: Values::new(alloc),
        specific: Values::new(alloc),
        payload,
    })
}

/// Traces: the stream stays at its clock.
fn traced<B: BackEnd>(stream: &mut Stream<TickSeat, B>, args: &Args) -> Verdict
    requires { HasHistory B.BackEnd stream.old }
    ensures { clock_of stream.new.clock ≡ clock_of stream.old.clock }
{
    packets_in_turn::<TickSeat, B>();
    calls_are_walks::<TickSeat, B>();
    seats_stay_at_their_clock::<B>();
    stream.trace(0, args)
}

/// What the first stream answers before it tells: both stay at their clock.
fn first_traces(two: &mut Two, args: &Args) -> Verdict
    requires history { HasHistory ⟦<ListBackEnd as BackEnd>⟧ two.old.first }
    requires clock { clock_of two.old.first.clock ≡ clock_of two.old.second.clock }
    ensures { clock_of two.new.first.clock ≡ clock_of two.new.second.clock }
{
    traced(&mut two.first, args)
}

/// What the second stream answers to a call after what the first told, where it could tell.
fn second_traces_after(alloc: Global, two: &mut Two, args: &Args) -> Option<Verdict>
    requires { clock_of two.old.first.clock ≡ clock_of two.old.second.clock }
{
    match two.first.tell(alloc) {
        Ok(told) => Some(two.second.trace_after(told, 0, args)),
        Err(_) => None,
    }
}

/// What a stream answers, of which no more is said.
fn traces(stream: &mut Seated, args: &Args) -> Verdict {
    stream.trace(0, args)
}

/// Which calls two streams are made.
#[derive(Clone, Copy)]
enum Calls {
    None,
    /// The first traces, the second after what the first told, and the first again.
    InTurn,
    /// The second after what the first told, and the first behind it.
    FirstBehind,
    /// The second after what the first told, and the second once more.
    SecondBehind,
}

type Verdicts = [Option<Verdict>; 3];

fn in_turn(alloc: Global, two: &mut Two, args: &Args) -> Verdicts
    requires history { HasHistory ⟦<ListBackEnd as BackEnd>⟧ two.old.first }
    requires clock { clock_of two.old.first.clock ≡ clock_of two.old.second.clock }
{
    let before = first_traces(two, args);
    let after = second_traces_after(alloc, two, args);
    [Some(before), after, Some(traces(&mut two.first, args))]
}

/// The second after what the first told, and one of them behind it.
fn behind(alloc: Global, two: &mut Two, calls: Calls, told: &Args, args: &Args) -> Verdicts
    requires { clock_of two.old.first.clock ≡ clock_of two.old.second.clock }
{
    let after = second_traces_after(alloc, two, told);
    let last = match calls {
        Calls::SecondBehind => traces(&mut two.second, args),
        _ => traces(&mut two.first, args),
    };
    [None, after, Some(last)]
}

/// Whether a packet is open once two streams of these quotas are made, what they answer to calls, of which the one after what was told has arguments
/// of its own, and how many of them the second has discarded then.
fn answers(
    alloc: Global,
    (first, second): (u64, u64),
    calls: Calls,
    told: &Args,
    args: &Args,
) -> Result<(bool, Verdicts, u64), Fail> {
    let mut two = both(alloc, first, second)?;
    let are_open = two.first.packet_is_open() || two.second.packet_is_open();
    let verdicts = match calls {
        Calls::None => [None; 3],
        Calls::InTurn => in_turn(alloc, &mut two, args),
        _ => behind(alloc, &mut two, calls, told, args),
    };
    Ok((are_open, verdicts, two.second.discarded_count()))
}

#[test]
fn makes_two_streams_at_one_clock(rt: HostRuntime) -> Result<(), Fail> {
    let args = number(rt.alloc(), 5)?;
    let (are_open, _, _) = answers(rt.alloc(), (3, 3), Calls::None, &args, &args)?;
    holds(&rt, !are_open, "no packet is open");
    Ok(())
}

static IN_TURN: Verdicts = [
    Some(Verdict::Accepted(Some(0))),
    Some(Verdict::Accepted(Some(1))),
    Some(Verdict::Accepted(Some(2))),
];

#[test]
fn traces_after_what_was_told(rt: HostRuntime) -> Result<(), Fail> {
    let args = number(rt.alloc(), 5)?;
    let (_, found, _) = answers(rt.alloc(), (3, 3), Calls::InTurn, &args, &args)?;
    same(&rt, found, IN_TURN, "three calls");
    Ok(())
}

static SPENT: Verdicts = [
    None,
    Some(Verdict::Discarded(Why::ClockSpent)),
    Some(Verdict::Accepted(Some(0))),
];

static REFUSED: Verdicts = [
    None,
    Some(Verdict::Misuse(ArgFault::Range)),
    Some(Verdict::Accepted(Some(0))),
];

/// What was told is spent where the clock is spent, and nothing is read for a call that is refused before the clock.
#[test]
fn traces_nothing_after_what_was_told(rt: HostRuntime) -> Result<(), Fail> {
    let large = number(rt.alloc(), 40000)?;
    let small = number(rt.alloc(), 5)?;
    let (_, spent, discarded) = answers(rt.alloc(), (1, 0), Calls::FirstBehind, &small, &small)?;
    same(&rt, spent, SPENT, "a clock that is spent");
    same(&rt, discarded, 1, "calls that the second discarded");
    let (_, refused, _) = answers(rt.alloc(), (1, 1), Calls::SecondBehind, &large, &small)?;
    same(&rt, refused, REFUSED, "a number out of range");
    Ok(())
}
