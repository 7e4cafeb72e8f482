//! A clock that refuses by a script.

ghost use Rattle.std.specs.Prelude.{◌≡◌, ◌+◌};
ghost use Rattle.trace_platform.specs.Scripted.{ClockReads};
ghost use Rattle.trace_platform.specs.ScriptedLaws as law;

use crate::{Clock, ClockSpent, ListClock, Script, Turn};

/// A clock of a list that also refuses a reading where its script says so. That reading is then the next one's.
#[derive(Drop)]
pub struct ScriptedClock {
    pub clock: ListClock,
    pub script: Script,
    spent: u64,
}

impl ScriptedClock {
    pub fn new(clock: ListClock, script: Script) -> ScriptedClock
        ensures { result ≡ record { clock = clock; script = script; spent = 0 } }
    {
        ScriptedClock {
            clock,
            script,
            spent: 0,
        }
    }
}

impl Clock for ScriptedClock {
    ghost floor = { λ c. c.clock.floor };

    ghost spent = { λ c. c.spent };

    ghost reads = { ClockReads };

    ghost rises = { law.rises };

    ghost refuses = { law.refuses };

    fn read(&mut self) -> Result<u64, ClockSpent> {
        let answer = match self.script.take_turn() {
            Turn::Works => self.clock.read(),
            Turn::Fails => Err(ClockSpent),
        };
        if answer.is_err() {
            self.spent = self.spent.wrapping_add(1);
        }
        answer
    }

    fn spent_count(&self) -> u64 {
        self.spent
    }
}
