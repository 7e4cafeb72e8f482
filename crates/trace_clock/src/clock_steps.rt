//! A clock's table is made, a number is drawn, and two seats are made one.

ghost use Rattle.std.specs.Prelude.{◌≡◌, ◌+◌, ◌<◌, ◌^◌, [], IfOk};
ghost use Rattle.trace_clock.specs.History.{Draws, Shows, fresh, joined, knows};

use crate::Bounds;
use crate::clock_table::{ClockSeat, ClockTable, Draw, Look, OfClock, WORD, WORDS, Whole};
use atomic_table::Table;
use std::alloc::{AllocError, Global};

pub(crate) fn lay(alloc: Global, bounds: Bounds) -> Result<(ClockTable, ClockSeat), AllocError>
    requires { bounds.start + bounds.total < 2 ^ 64 }
    ensures table { IfOk result (λ t. (t.0.shared.table_id.words ≡ 31) × (t.0.shared.key ≡ bounds)) }
    ensures seat { IfOk result (λ t. (t.1.table_id ≡ t.0.shared.table_id) × (t.1.me ≡ (knows (fresh bounds.total) [], []))) }
{
    let mut words = [0; WORDS];
    words[WORD] = bounds.start;
    Table::of_words(alloc, &words, &bounds)
}

/// Adds one to the clock's word and answers what it was before.
pub(crate) fn draw<C: OfClock>(table: &ClockTable, seat: &mut ClockSeat) -> u64
    requires clock { table.now.shared.key ≡ C.bounds }
    requires table { (seat.old.table_id ≡ table.now.shared.table_id) × (table.now.shared.table_id.words ≡ 31) }
    requires seat { (seat.old.me.1 ≡ []) × (0 < seat.old.me.0.view.quota) }
    ensures table { (seat.new.table_id ≡ seat.old.table_id) × (seat.new.me.1 ≡ []) }
    ensures drawn { Draws table.now.shared.key seat.old.me.0 result seat.new.me.0 }
{
    table.shared.fetch_add::<Draw<C>>(seat, WORD, 1)
}

/// Looks at the clock's word: the seat learns that the history shows it.
pub(crate) fn look<C: OfClock>(table: &ClockTable, seat: &mut ClockSeat)
    requires clock { table.now.shared.key ≡ C.bounds }
    requires table { (seat.old.table_id ≡ table.now.shared.table_id) × (table.now.shared.table_id.words ≡ 31) }
    ensures table { (seat.new.table_id ≡ seat.old.table_id) × (seat.new.id ≡ seat.old.id) }
    ensures same { seat.new.me ≡ seat.old.me }
    ensures shown { Shows table.now.shared.key seat.old.me.0.view }
{
    let _word = table.shared.load::<Look<C>>(seat, WORD);
}

/// A seat takes in another, with all that it knows.
pub(crate) fn take_in(table: &ClockTable, seat: &mut ClockSeat, other: ClockSeat)
    requires table { (seat.old.table_id ≡ table.now.shared.table_id) × (table.now.shared.table_id.words ≡ 31) }
    requires other { (other.table_id ≡ seat.old.table_id) × (other.me.1 ≡ []) }
    ensures table { (seat.new.table_id ≡ seat.old.table_id) × (seat.new.me.1 ≡ seat.old.me.1) }
    ensures joined { seat.new.me.0 ≡ joined seat.old.me.0 other.me.0 }
{
    table.shared.join_seat::<Whole>(seat, other);
}
