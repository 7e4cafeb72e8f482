//! The clock that all workers read.

ghost use Rattle.std.specs.Prelude.{◌≡◌, ◌↔◌, ◌≤◌, ◌<◌, ◌+◌, ◌*◌, ◌^◌, IfOk, IsTrue, length};
ghost use Rattle.trace_clock.specs.Seats.{IsNew, SameClock, left, rest};
ghost use Rattle.trace_commands.specs.Begun.{HasRoom};
ghost use Rattle.trace_commands.specs.Tracing.{AreFree};
ghost use Rattle.trace_commands.specs.Workers.{HasClock, IsSharedBy};

use command_words::Quota;
use std::alloc::{AllocError, Global};
use trace_clock::{ClockFault, TickClock, TickSeat};
use trace_text::Script;

/// A clock, and how many of its readings each worker may make.
#[derive(Drop)]
pub struct SharedClock {
    pub clock: TickClock,
    pub quota: Quota,
}

/// Whether the workers of the script's streams, where they are asked for, have room at a clock that begins at this reading.
pub fn has_room(asked: Option<Quota>, script: &Script, start: u64) -> bool
    requires { AreFree script.now }
    ensures { IsTrue result ↔ HasRoom asked (length script.now.streams) start }
{
    match asked {
        None => true,
        Some(quota) => start.checked_add(readings_of_all(quota, script)).is_some(),
    }
}

/// How many readings all workers together may make.
fn readings_of_all(quota: Quota, script: &Script) -> u64
    requires { quota.readings * length script.now.streams < 2 ^ 64 }
    ensures { result ≡ quota.readings * length script.now.streams }
{
    let workers = script.streams.as_slice().len() as u64;
    quota.readings * workers
}

/// The clock of the workers of the script's streams, where workers are asked for. It begins at this reading.
pub fn shared_clock(
    alloc: Global,
    asked: Option<Quota>,
    script: &Script,
    start: u64,
) -> Result<Option<SharedClock>, AllocError>
    requires { HasRoom asked (length script.now.streams) start }
    ensures { IfOk result (HasClock asked (length script.now.streams) start) }
{
    match asked {
        None => Ok(None),
        Some(quota) => {
            let clock = clock_for(alloc, quota, script, start)?;
            Ok(Some(SharedClock { clock, quota }))
        }
    }
}

fn clock_for(
    alloc: Global,
    quota: Quota,
    script: &Script,
    start: u64,
) -> Result<TickClock, AllocError>
    requires { start + quota.readings * length script.now.streams < 2 ^ 64 }
    ensures { IfOk result (IsSharedBy quota (length script.now.streams) start) }
{
    TickClock::new(alloc, start, readings_of_all(quota, script))
}

/// A seat for one worker.
pub fn seat_for(alloc: Global, clock: &mut TickClock, quota: Quota) -> Result<TickSeat, AllocError>
    requires { quota.readings ≤ left clock.old }
    ensures new { IfOk result (λ s. IsNew (rest clock.old) quota.readings s × (left clock.new + quota.readings ≡ left clock.old)) }
    ensures same { SameClock (rest clock.old) (rest clock.new) }
{
    match clock.seat(alloc, quota.readings) {
        Ok(seat) => Ok(seat),
        Err(ClockFault::OutOfMemory) => Err(AllocError),
        Err(ClockFault::QuotaSpent) => unreachable!(),
    }
}
