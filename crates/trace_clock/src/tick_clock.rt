//! A clock that many threads read.

ghost use Rattle.std.specs.Prelude.{◌≡◌, ◌↔◌, ◌+◌, ◌<◌, ◌^◌, [], IfOk, OnErr, Err};

use crate::clock_steps::lay;
use crate::{Bounds, ClockFault, TickSeat};
use std::alloc::{AllocError, Global};
use std::sync::Arc;

/// A clock whose readings are the numbers from a start on, each given once. It hands out seats, which threads read it by, and may be dropped
/// before them.
#[derive(Drop)]
pub struct TickClock {
    rest: TickSeat,
}

impl TickClock {
    ghost use Rattle.trace_clock.specs.Seats.{IsNew, SameClock, bounds_of, drawn, floor_of, left, rest};
    ghost use Rattle.trace_clock.specs.declared.clock_fault.ClockFault.TheVariants as fault;

    /// A clock whose first reading is `start`, and which gives `total` readings in all. Their sum is at most 2^64 - 1.
    pub fn new(alloc: Global, start: u64, total: u64) -> Result<TickClock, AllocError>
        requires { start + total < 2 ^ 64 }
        ensures bounds { IfOk result (λ c. bounds_of (rest c) ≡ record { start = start; total = total }) }
        ensures left { IfOk result (λ c. (left c ≡ total) × (drawn (rest c) ≡ [])) }
    {
        let (table, seat) = lay(alloc, Bounds { start, total })?;
        Ok(TickClock {
            rest: TickSeat {
                table: Arc::new(alloc, table)?,
                seat,
                quota: total,
                spent: 0,
            },
        })
    }

    /// A seat for `quota` readings. `QuotaSpent` exactly where the clock has fewer left for new seats; a fault leaves the clock as it was.
    pub fn seat(&mut self, _alloc: Global, quota: u64) -> Result<TickSeat, ClockFault>
        ensures ok { IfOk result (λ s. IsNew (rest self.old) quota s × (left self.new + quota ≡ left self.old)) }
        ensures floor { IfOk result (λ s. floor_of s ≡ (bounds_of (rest self.old)).start) }
        ensures quota_spent { (result ≡ Err fault.QuotaSpent) ↔ (left self.old < quota) }
        ensures err { OnErr result (left self.new ≡ left self.old) }
        ensures same { SameClock (rest self.old) (rest self.new) × (drawn (rest self.new) ≡ drawn (rest self.old)) }
    {
        if self.rest.quota < quota {
            return Err(ClockFault::QuotaSpent);
        }
        match self.rest.part(quota) {
            Ok(seat) => Ok(seat),
            Err(AllocError) => Err(ClockFault::OutOfMemory),
        }
    }
}
