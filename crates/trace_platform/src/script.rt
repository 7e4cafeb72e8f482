//! The script of a scripted platform.

ghost use Rattle.std.specs.Prelude.{◌≡◌, List};
ghost use Rattle.trace_platform.specs.Turns.{first_turn, later_turns};

use std::marker::Model;

/// How a scripted platform answers one call.
#[derive(Clone, Copy, Debug, PartialEq, Eq)]
pub enum Turn {
    /// As the platform below it does.
    Works,
    /// With a refusal, whatever the platform below it would answer.
    Fails,
}

/// The turns of the calls to come, in their order. After them every call works.
#[derive(Drop)]
pub struct Script {
    turns: Vec<Turn>,
    next: usize,
}

impl Model for Script {
    ghost use Rattle.std.specs.Prelude.{List, drop};
    ghost use Rattle.trace_platform.specs.declared.script.Turn.{Turn};

    ghost Value = { List Turn };

    ghost view = { λ s. drop s.next s.turns.items };
}

impl Script {
    pub fn new(turns: Vec<Turn>) -> Script
        ensures { result ≡ turns.items }
    {
        Script { turns, next: 0 }
    }

    /// The turn of the next call.
    pub fn take_turn(&mut self) -> Turn
        ensures turn { result ≡ first_turn self.old }
        ensures later { self.new ≡ later_turns self.old }
    {
        match self.turns.get(self.next) {
            None => Turn::Works,
            Some(turn) => {
                let turn = *turn;
                self.next += 1;
                turn
            }
        }
    }
}
