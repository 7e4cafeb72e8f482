//! A clock of a list of readings.

ghost use Rattle.std.specs.Prelude.{◌≡◌, ◌↔◌, List, [], IsTrue, SomeIff};
ghost use Rattle.ctf_types.specs.Packets.{NeverFall};
ghost use Rattle.trace_platform.specs.Readings.{Reads, rises, refuses};

use crate::{Clock, ClockSpent};
use std::marker::Model;

/// A clock that gives the readings of a list, in their order, and refuses every reading after them.
#[derive(Drop)]
pub struct ListClock {
    readings: Vec<u64>,
    next: usize,
    last: u64,
    spent: u64,
}

impl Model for ListClock {
    ghost use Rattle.std.specs.Prelude.{drop};
    ghost use Rattle.ctf_types.specs.Packets.{NeverFall};
    ghost use Rattle.trace_platform.specs.Readings.{Readings};

    ghost Value = { Readings };

    ghost view = { λ c. record { left = drop c.next c.readings.items; floor = c.last; spent = c.spent } };

    ghost invariant = { λ c. NeverFall c.last (drop c.next c.readings.items) };
}

impl ListClock {
    /// None where a reading is below the one before it.
    pub fn new(readings: Vec<u64>) -> Option<ListClock>
        ensures { SomeIff result (NeverFall 0 readings.items) (record { left = readings.items; floor = 0; spent = 0 }) }
    {
        if !never_fall(&readings) {
            return None;
        }
        Some(ListClock {
            readings,
            next: 0,
            last: 0,
            spent: 0,
        })
    }
}

/// Whether no number is below the one before it.
fn never_fall(readings: &[u64]) -> bool
    ensures { IsTrue result ↔ NeverFall 0 readings.now }
{
    let mut last = 0;
    for reading in readings {
        if *reading < last {
            return false;
        }
        last = *reading;
    }
    true
}

impl Clock for ListClock {
    ghost floor = { λ c. c.floor };

    ghost spent = { λ c. c.spent };

    ghost reads = { Reads };

    ghost rises = { rises };

    ghost refuses = { refuses };

    fn read(&mut self) -> Result<u64, ClockSpent> {
        match self.readings.get(self.next) {
            None => {
                self.spent = self.spent.wrapping_add(1);
                Err(ClockSpent)
            }
            Some(reading) => {
                let reading = *reading;
                self.next += 1;
                self.last = reading;
                Ok(reading)
            }
        }
    }

    fn spent_count(&self) -> u64 {
        self.spent
    }
}
