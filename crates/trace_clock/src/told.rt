//! What one seat tells another.

ghost use Rattle.std.specs.Prelude.{◌≡◌, []};
ghost use Rattle.trace_clock.specs.History.{fresh};

use crate::clock_table::ClockSeat;

/// That a seat drew certain numbers: what `TickSeat::tell` gives, and `TickSeat::read_after` takes in. It may go to another thread. It gives no
/// reading.
#[derive(Drop)]
pub struct Told {
    pub(crate) seat: ClockSeat,
    ghost no_slot: { seat.me.1 ≡ [] },
    ghost no_reading: { seat.me.0.view ≡ fresh 0 },
}
