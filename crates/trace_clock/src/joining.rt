//! Many seats of one clock are made one.

ghost use Rattle.std.specs.Prelude.{◌≡◌, ◌+◌, ◌++◌};
ghost use Rattle.std.specs.List.{All, flat_map, sum_by};
ghost use Rattle.trace_clock.specs.History.{EachOnce, HaveSameNumbers};
ghost use Rattle.trace_clock.specs.Seats.{SameClock, clock_of, drawn, quota_of, refused_of};

use crate::TickSeat;

/// The first seat, after it took in all others. Each number stands at most once over all of them. It takes no memory and waits for nobody.
pub fn join_all(first: TickSeat, others: Vec<TickSeat>) -> TickSeat
    requires { All (λ s. clock_of s ≡ clock_of first) others.items }
    ensures once { EachOnce (drawn first ++ flat_map drawn others.items) }
    ensures drawn { HaveSameNumbers (drawn result) (drawn first ++ flat_map drawn others.items) }
    ensures quota { quota_of result ≡ quota_of first + sum_by quota_of others.items }
    ensures same { SameClock first result × (refused_of result ≡ refused_of first) }
{
    let mut all = first;
    all.look();
    for seat in others {
        all.join(seat);
    }
    all
}
