//! The word of a clock and its seats, and the steps on them.

ghost use Rattle.std.specs.Prelude.{◌≡◌, ℕ, []};
ghost use Rattle.trace_clock.specs.declared.bounds.Bounds.{Bounds};
ghost use Rattle.trace_clock.specs.History.{Keeps, Draws, Shows, fresh, gave, knows, numbers_of, joined};

use crate::{Bounds, Known};
use atomic_table::{Join, Play, Seat, Split, Table, TableRule};
use std::alloc::Global;
use std::marker::{Brand, PhantomData};

/// How many words the table has. The one in their middle is the clock's; each of the others is 0 and never written, so that a reading
/// touches no cache line, nor one that is fetched beside it, that holds anything else.
pub(crate) const WORDS: usize = 31;

pub(crate) const WORD: usize = 15;

/// The clock's history holds between any two steps.
pub struct ClockRule;

impl TableRule<u8, Known, Bounds> for ClockRule {
    ghost holds = { Keeps };

    ghost first = { λ b. knows (fresh b.total) [] };
}

pub(crate) type ClockTable = Table<u8, Known, Bounds, ClockRule, Global>;

pub(crate) type ClockSeat = Seat<u8, Known>;

/// The bounds of the clock of which a step tells.
pub(crate) trait OfClock {
    ghost bounds: { Bounds };
}

impl OfClock for Brand {
    ghost bounds = { record { start = 0; total = 0 } };
}

pub(crate) struct Draw<C> {
    of: PhantomData<C>,
}

impl<C: OfClock> Play<u8, Known> for Draw<C> {
    ghost then = { λ step before n after. Draws C.bounds before.0 n after.0 × (after.1 ≡ []) };
}

/// A seat stays as it is, and learns that the history shows it.
pub(crate) struct Look<C> {
    of: PhantomData<C>,
}

impl<C: OfClock> Play<u8, Known> for Look<C> {
    ghost then = { λ step before n after. (after ≡ before) × Shows C.bounds before.0.view };
}

/// How many readings a seat gives away.
pub(crate) trait Amount {
    ghost quota: { ℕ };
}

impl Amount for Brand {
    ghost quota = { 0 };
}

pub(crate) struct Cut<Q> {
    of: PhantomData<Q>,
}

impl<Q: Amount> Split<Known> for Cut<Q> {
    ghost left = { λ k. knows (gave k.view Q.quota) k.heard };

    ghost right = { λ k. knows (fresh Q.quota) (numbers_of k) };
}

/// All that two seats know is one seat's.
pub(crate) struct Whole;

impl Join<Known> for Whole {
    ghost both = { joined };

    ghost spent = { knows (fresh 0) [] };
}
