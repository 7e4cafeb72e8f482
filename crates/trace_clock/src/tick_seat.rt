//! A seat at a clock that many threads read.

ghost use Rattle.std.specs.Prelude.{◌≡◌, ◌+◌, ◌≤◌, ◌++◌, [], IfOk, OnErr};
ghost use Rattle.std.specs.Arc.{arc_value};

use crate::Told;
use crate::clock_steps::{draw, look, take_in};
use crate::clock_table::{Amount, ClockSeat, ClockTable, Cut};
use std::alloc::{AllocError, Global};
use std::marker::Brand;
use std::sync::Arc;
use trace_platform::{Clock, ClockSpent};

/// The right to draw so many readings of a clock. It may go to another thread. What is left when it is dropped nobody draws.
#[derive(Drop)]
pub struct TickSeat {
    pub(crate) table: Arc<ClockTable>,
    pub(crate) seat: ClockSeat,
    pub(crate) quota: u64,
    pub(crate) spent: u64,
    ghost at_table: { seat.table_id ≡ (arc_value table).shared.table_id },
    ghost words: { (arc_value table).shared.table_id.words ≡ 31 },
    ghost no_slot: { seat.me.1 ≡ [] },
    ghost quota_is: { seat.me.0.view.quota ≡ quota },
}

impl TickSeat {
    ghost use Rattle.std.specs.Arc.{arc_value};
    ghost use Rattle.trace_clock.specs.History.{AllBelow, EachOnce, Rises, Shows, fresh, gave, knows, merged, numbers_of};
    ghost use Rattle.trace_clock.specs.Seats.{IsNew, Reads, SameClock, bounds_of, clock_of, drawn, heard_of, quota_of, refused_of, told_clock, told_numbers, view_of};

    /// A new seat, which has this quota of what this one has.
    pub(crate) fn part(&mut self, quota: u64) -> Result<TickSeat, AllocError>
        requires { quota ≤ quota_of self.old }
        ensures ok { IfOk result (λ s. IsNew self.old quota s × (quota_of self.new + quota ≡ quota_of self.old)) }
        ensures err { OnErr result (quota_of self.new ≡ quota_of self.old) }
        ensures same { SameClock self.old self.new × (drawn self.new ≡ drawn self.old) × (refused_of self.new ≡ refused_of self.old) }
    {
        let table = Arc::try_clone(&self.table)?;
        let seat = self.cut::<Brand>(quota);
        Ok(TickSeat {
            table,
            seat,
            quota,
            spent: 0,
        })
    }

    /// Cuts a part of this quota off.
    fn cut<Q: Amount>(&mut self, quota: u64) -> ClockSeat
        requires quota { (quota ≡ Q.quota) × (quota ≤ quota_of self.old) }
        ensures new { (result.table_id ≡ clock_of self.old) × (result.me ≡ (knows (fresh quota) (heard_of self.old ++ drawn self.old), [])) }
        ensures left { self.new.seat.me.0 ≡ knows (gave (view_of self.old) quota) (heard_of self.old) }
        ensures quota_is { quota_of self.new + quota ≡ quota_of self.old }
        ensures same { SameClock self.old self.new × (refused_of self.new ≡ refused_of self.old) }
    {
        let seat = self.table.shared.split_seat::<Cut<Q>>(&mut self.seat);
        self.quota -= quota;
        seat
    }

    /// What may be told of this seat: each number that it drew or heard of so far. The seat stays as it is. It needs no memory.
    pub fn tell(&mut self, _alloc: Global) -> Result<Told, AllocError>
        ensures ok { IfOk result (λ t. (told_clock t ≡ clock_of self.old) × (told_numbers t ≡ heard_of self.old ++ drawn self.old)) }
        ensures same { SameClock self.old self.new × (view_of self.new ≡ view_of self.old) × (refused_of self.new ≡ refused_of self.old) }
        ensures heard { heard_of self.new ≡ heard_of self.old }
        ensures quota { quota_of self.new ≡ quota_of self.old }
    {
        Ok(Told {
            seat: self.cut::<Brand>(0),
        })
    }

    /// A reading, as `read` gives one, that is above every number that the `Told` tells of. The `Told` is spent and what it tells of is heard,
    /// whatever the answer. The `Told` is of this clock. It takes no memory and waits for nobody.
    pub fn read_after(&mut self, told: Told) -> Result<u64, ClockSpent>
        requires { told_clock told ≡ clock_of self.old }
        ensures reads { Reads self.old result self.new }
        ensures above { IfOk result (λ n. AllBelow n (told_numbers told)) }
        ensures heard { heard_of self.new ≡ heard_of self.old ++ told_numbers told }
    {
        self.hear(told);
        self.read()
    }

    /// Takes in what was told.
    fn hear(&mut self, told: Told)
        requires { told_clock told ≡ clock_of self.old }
        ensures same { SameClock self.old self.new × (view_of self.new ≡ view_of self.old) × (refused_of self.new ≡ refused_of self.old) }
        ensures heard { heard_of self.new ≡ heard_of self.old ++ told_numbers told }
        ensures quota { quota_of self.new ≡ quota_of self.old }
    {
        let Told { seat } = told;
        take_in(&self.table, &mut self.seat, seat);
    }

    /// The seat stays as it is, and learns that no number stands in it twice.
    pub(crate) fn look(&mut self)
        ensures same { SameClock self.old self.new × (view_of self.new ≡ view_of self.old) × (refused_of self.new ≡ refused_of self.old) }
        ensures quota { quota_of self.new ≡ quota_of self.old }
        ensures once { EachOnce (drawn self.old) }
    {
        look::<Brand>(&self.table, &mut self.seat);
    }

    /// Takes in another seat of this clock: the numbers that both drew, in order, both quotas, and what both heard of. No number stands in both.
    /// The count of the readings that this seat refused stays; the other seat's goes with it. It takes no memory and waits for nobody.
    pub fn join(&mut self, other: TickSeat)
        requires { clock_of other ≡ clock_of self.old }
        ensures same { SameClock self.old self.new × (refused_of self.new ≡ refused_of self.old) }
        ensures drawn { drawn self.new ≡ merged (drawn self.old) (drawn other) }
        ensures distinct { EachOnce (drawn self.old ++ drawn other) }
        ensures rises { Rises (drawn self.new) }
        ensures quota { quota_of self.new ≡ quota_of self.old + quota_of other }
        ensures heard { heard_of self.new ≡ heard_of self.old ++ heard_of other }
        ensures history { Shows (bounds_of self.new) (view_of self.new) }
    {
        let TickSeat {
            table: _,
            seat,
            quota,
            spent: _,
        } = other;
        take_in(&self.table, &mut self.seat, seat);
        look::<Brand>(&self.table, &mut self.seat);
        self.quota += quota;
    }
}

impl Clock for TickSeat {
    ghost use Rattle.trace_clock.specs.History.{AllBelow};
    ghost use Rattle.trace_clock.specs.Seats.{Reads, floor_of, heard_of, refused_of};
    ghost use Rattle.trace_clock.specs.SeatLaws as law;

    ghost floor = { floor_of };

    ghost spent = { refused_of };

    ghost reads = { Reads };

    ghost rises = { law.rises };

    ghost refuses = { law.refuses };

    /// The clock's word before one is added to it. It is refused exactly where the quota is spent.
    fn read(&mut self) -> Result<u64, ClockSpent>
        ensures reads { Reads self.old result self.new }
        ensures above { IfOk result (λ n. AllBelow n (heard_of self.old)) }
        ensures heard { heard_of self.new ≡ heard_of self.old }
    {
        if self.quota == 0 {
            self.spent = self.spent.wrapping_add(1);
            return Err(ClockSpent);
        }
        let reading = draw::<Brand>(&self.table, &mut self.seat);
        self.quota -= 1;
        Ok(reading)
    }

    fn spent_count(&self) -> u64 {
        self.spent
    }
}
