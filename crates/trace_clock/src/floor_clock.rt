//! A clock that begins at a floor.

ghost use Rattle.std.specs.Prelude.{◌≡◌};

use trace_platform::{Clock, ClockSpent};

/// A clock whose readings are not below a floor, in cycles: each is the larger of another clock's reading and the floor. It refuses where that refuses.
/// A stream that goes on behind earlier packets reads such a clock, so that its clock values do not fall below theirs.
#[derive(Drop)]
pub struct FloorClock<S: Clock> {
    clock: S,
    floor: u64,
}

impl<S: Clock> FloorClock<S> {
    /// A clock over another one, with this floor, in cycles. It takes no memory.
    pub fn new(clock: S, floor: u64) -> FloorClock<S>
        ensures { (result.clock ≡ clock) × (result.floor ≡ floor) }
    {
        FloorClock { clock, floor }
    }
}

impl<S: Clock> Clock for FloorClock<S> {
    ghost use Rattle.std.specs.Prelude.{max};
    ghost use Rattle.trace_clock.specs.Floors.{Reads, rises, refuses};

    ghost floor = { λ c. max (S.floor c.clock) c.floor };

    ghost spent = { λ c. S.spent c.clock };

    ghost reads = { λ a answer b. Reads S.reads a.clock a.floor answer b.clock b.floor };

    ghost rises = { λ a b n h. rises S.reads S.floor S.spent S.rises a.clock a.floor b.clock b.floor n h };

    ghost refuses = { λ a b e h. refuses S.reads S.floor S.spent S.refuses a.clock a.floor b.clock b.floor e h };

    fn read(&mut self) -> Result<u64, ClockSpent> {
        let reading = self.clock.read()?;
        Ok(reading.max(self.floor))
    }

    fn spent_count(&self) -> u64 {
        self.clock.spent_count()
    }
}
