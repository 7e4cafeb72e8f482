//! One clock for many threads: its readings are given once each, up to the quota of each seat. A clock with a floor.

ghost use Rattle.std.specs.Prelude.{◌≡◌, ◌+◌, ◌<◌, ◌^◌, IfOk};
ghost use Rattle.trace_clock.specs.Seats.{SameClock, clock_of, told_clock};

use crate::tests::expected::{holds, same};
use std::alloc::{AllocError, Global};
use std::test::Fail;
use std::thread;
use trace_clock::{ClockFault, FloorClock, TickClock, TickSeat, Told, join_all};
use trace_platform::{Clock, ClockSpent, ListClock};

/// Two seats of one clock of so many readings from here on, with these quotas.
pub fn two_seats(
    alloc: Global,
    start: u64,
    total: u64,
    first: u64,
    second: u64,
) -> Result<(TickSeat, TickSeat), Fail>
    requires { start + total < 2 ^ 64 }
    ensures { IfOk result (λ p. clock_of p.0 ≡ clock_of p.1) }
{
    let mut clock = TickClock::new(alloc, start, total)?;
    let first = clock.seat(alloc, first)?;
    let second = clock.seat(alloc, second)?;
    Ok((first, second))
}

#[test]
fn gives_no_more_readings_than_its_total(rt: HostRuntime) -> Result<(), Fail> {
    let mut clock = TickClock::new(rt.alloc(), 0, 3)?;
    let mut seat = clock.seat(rt.alloc(), 2)?;
    let refused = matches!(clock.seat(rt.alloc(), 2), Err(ClockFault::QuotaSpent));
    holds(&rt, refused, "a quota that the clock has not");
    let readings = [seat.read(), seat.read(), seat.read()];
    let want = [Ok(0), Ok(1), Err(ClockSpent)];
    same(&rt, readings, want, "three readings");
    same(&rt, seat.spent_count(), 1, "readings that were refused");
    Ok(())
}

#[test]
fn gives_each_reading_to_one_seat(rt: HostRuntime) -> Result<(), Fail> {
    let (mut first, mut second) = two_seats(rt.alloc(), 10, 4, 2, 2)?;
    let readings = [first.read(), second.read(), second.read(), first.read()];
    let want = [Ok(10), Ok(11), Ok(12), Ok(13)];
    same(&rt, readings, want, "all readings");
    let spent = [first.read(), second.read()];
    same(&rt, spent, [Err(ClockSpent); 2], "one more each");
    Ok(())
}

fn read_all(alloc: Global, mut seat: TickSeat) -> Result<Vec<u64>, AllocError> {
    let mut readings = Vec::new(alloc);
    for _ in 0..1000 {
        if let Ok(reading) = seat.read() {
            readings.push(reading)?;
        }
    }
    Ok(readings)
}

#[test]
fn gives_each_reading_to_one_thread(rt: HostRuntime) -> Result<(), Fail> {
    let alloc = rt.alloc();
    let (here, there) = two_seats(alloc, 5, 2000, 1000, 1000)?;
    let (all, other) = thread::join(
        &rt,
        move || read_all(alloc, here),
        move || read_all(alloc, there),
    );
    let mut all = all?;
    all.extend_from_slice(&other?)?;
    all.sort()?;
    same(&rt, all.len(), 2000, "all readings");
    for (i, reading) in all.iter().enumerate() {
        same(&rt, *reading, i as u64 + 5, "each reading once");
    }
    Ok(())
}

/// A reading: the seat stays at its clock.
fn reading(seat: &mut TickSeat) -> Result<u64, ClockSpent>
    ensures { SameClock seat.old seat.new }
{
    seat.read()
}

/// A reading after what was told: the seat stays at its clock.
fn reading_after(seat: &mut TickSeat, told: Told) -> Result<u64, ClockSpent>
    requires { told_clock told ≡ clock_of seat.old }
    ensures { SameClock seat.old seat.new }
{
    seat.read_after(told)
}

/// The second seat has one reading, and one more once the first one joins it.
#[test]
fn reads_after_what_was_told_and_joins(rt: HostRuntime) -> Result<(), Fail> {
    let (mut first, mut second) = two_seats(rt.alloc(), 0, 3, 2, 1)?;
    let before = reading(&mut first);
    let told = first.tell(rt.alloc())?;
    let after = reading_after(&mut second, told);
    let told = first.tell(rt.alloc())?;
    let spent = reading_after(&mut second, told);
    let want = [Ok(0), Ok(1), Err(ClockSpent)];
    same(&rt, [before, after, spent], want, "one after the other");
    same(&rt, second.spent_count(), 1, "readings that were refused");
    second.join(first);
    let joined = [second.read(), second.read()];
    let want = [Ok(2), Err(ClockSpent)];
    same(&rt, joined, want, "the quota of the seat that joined");
    Ok(())
}

/// A seat that two more joined, of a clock of three readings.
#[test]
fn all_seats_join_the_first(rt: HostRuntime) -> Result<(), Fail> {
    let alloc = rt.alloc();
    let mut clock = TickClock::new(alloc, 0, 3)?;
    let first = clock.seat(alloc, 1)?;
    let second = clock.seat(alloc, 1)?;
    let third = clock.seat(alloc, 1)?;
    let others = vec![in alloc; second, third]?;
    let mut all = join_all(first, others);
    let readings = [all.read(), all.read(), all.read(), all.read()];
    let want = [Ok(0), Ok(1), Ok(2), Err(ClockSpent)];
    same(&rt, readings, want, "all readings");
    Ok(())
}

/// A clock of the readings 3 and 9 with the floor 5.
#[test]
fn a_floor_clock_begins_at_its_floor(rt: HostRuntime) -> Result<(), Fail> {
    let readings = vec![in rt.alloc(); 3, 9]?;
    let clock = ListClock::new(readings).ok_or("these never fall")?;
    let mut clock = FloorClock::new(clock, 5);
    let readings = [clock.read(), clock.read(), clock.read()];
    let want = [Ok(5), Ok(9), Err(ClockSpent)];
    same(&rt, readings, want, "three readings");
    same(&rt, clock.spent_count(), 1, "readings that were refused");
    Ok(())
}
