//! Gates that let a worker's call wait for what another thread does.

ghost use Rattle.std.specs.Prelude.{◌≡◌, false};

use std::sync::atomic::{AtomicU64, Ordering};
use std::thread;
use std::time::{Clock, Duration};
use trace_platform::{MemorySink, Sink, SinkFault};
use trace_stack::Gate;

/// What one thread tells others once.
#[derive(Drop)]
pub struct Flag {
    raised: AtomicU64,
}

impl Flag {
    pub fn new() -> Flag {
        Flag {
            raised: AtomicU64::new(0),
        }
    }

    pub fn raise(&self) {
        self.raised.store(1, Ordering::SeqCst);
    }

    /// Whether it is raised within 2,000 turns of one millisecond's sleep.
    pub fn is_seen<C: Clock>(&self, clock: &C) -> bool {
        for _turn in 0..2000 {
            if self.raised.load(Ordering::SeqCst) == 1 {
                return true;
            }
            thread::sleep(clock, Duration::from_millis(1));
        }
        false
    }
}

/// A gate of two workers: each one's call 1 waits until the other's call 1 is asked for.
#[derive(Drop)]
pub struct Meeting<'c, C> {
    pub clock: &'c C,
    pub first: Flag,
    pub second: Flag,
}

impl<'c, C: Clock> Gate for Meeting<'c, C> {
    ghost opens = { false };

    fn pass(&self, worker: usize, call: usize) -> bool {
        if call != 1 {
            return true;
        }
        let (own, other) = if worker == 0 {
            (&self.first, &self.second)
        } else {
            (&self.second, &self.first)
        };
        own.raise();
        other.is_seen(self.clock)
    }
}

/// A sink that raises a flag at each appending.
#[derive(Drop)]
pub struct FlaggingSink<'f> {
    pub sink: MemorySink,
    pub flag: &'f Flag,
}

impl<'f> Sink for FlaggingSink<'f> {
    ghost use Rattle.std.specs.Prelude.{Some};
    ghost use Rattle.trace_platform.specs.Appending.{Fills};
    ghost use Rattle.trace_platform.specs.AppendingLaws.{fills_all, fills_part};

    ghost held = { λ s. Some s.sink.bytes };

    ghost faults = { λ s. s.sink.faults };

    ghost appends = { λ a xs answer b. Fills a.sink xs answer b.sink };

    ghost adds_all = { λ a b. fills_all a.sink b.sink };

    ghost adds_part = { λ a b. fills_part a.sink b.sink };

    fn append(&mut self, bytes: &[u8]) -> Result<(), SinkFault> {
        self.flag.raise();
        self.sink.append(bytes)
    }

    fn fault_count(&self) -> u64 {
        self.sink.fault_count()
    }
}

/// A gate whose worker's call 2 waits until the flag is raised.
#[derive(Drop)]
pub struct Collecting<'c, 'f, C> {
    pub clock: &'c C,
    pub flag: &'f Flag,
}

impl<'c, 'f, C: Clock> Gate for Collecting<'c, 'f, C> {
    ghost opens = { false };

    fn pass(&self, _worker: usize, call: usize) -> bool {
        call != 2 || self.flag.is_seen(self.clock)
    }
}

/// A gate that lets no more than so many calls of each worker pass.
#[derive(Drop)]
pub struct Shutting {
    pub calls: usize,
}

impl Gate for Shutting {
    ghost opens = { false };

    fn pass(&self, _worker: usize, call: usize) -> bool {
        call < self.calls
    }
}
