//! The clock that a stream reads.

ghost use Rattle.std.specs.Prelude.{◌≡◌, ℕ, ◌≤◌, Result, Ok, Err};
ghost use Rattle.trace_platform.specs.Count.{next_count};
ghost use Rattle.trace_platform.specs.declared.clock.ClockSpent.{ClockSpent};

use thiserror::Error;

/// A clock gives no reading.
#[derive(Clone, Copy, Debug, PartialEq, Eq, Error)]
#[error("the clock gives no reading")]
pub struct ClockSpent;

/// A clock: its readings, in cycles, never fall. It may refuse one, and counts these refusals.
pub trait Clock {
    /// A number that no later reading is below.
    ghost floor: { Self → ℕ };

    ghost spent: { Self → ℕ };
    /// What one reading does: the clock before it, its answer, the clock after it.
    ghost reads: { Self → Result ℕ ClockSpent → Self → Type 0 };

    /// The next reading, in cycles.
    fn read(&mut self) -> Result<u64, ClockSpent>
        ensures { reads self.old result self.new };

    /// How many readings it refused, modulo 2^64.
    fn spent_count(&self) -> u64
        ensures { result ≡ spent self.now };

    ghost rises: { (a b : Self) (n : ℕ) → reads a (Ok n) b → (floor a ≤ n) × (n ≤ floor b) × (spent b ≡ spent a) };

    ghost refuses: { (a b : Self) (e : ClockSpent) → reads a (Err e) b → (floor a ≤ floor b) × (spent b ≡ next_count (spent a)) };
}
