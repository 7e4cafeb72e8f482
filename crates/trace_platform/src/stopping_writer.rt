//! A writer that stops.

ghost use Rattle.std.specs.Prelude.{◌≡◌, ◌+◌, [], Some, length, min, IfOk};
ghost use Rattle.std.specs.Io.{WritesAtMost};
ghost use Rattle.std.specs.Io.KnownBytes.{WriteAppends};

use std::alloc::Global;
use std::io::{Result, Write};

/// A writer that takes at most `piece` bytes by one write, and nothing more once it took as many as it has room for.
#[derive(Drop)]
pub struct StoppingWriter {
    pub bytes: Vec<u8>,
    pub room: usize,
    pub piece: usize,
}

impl StoppingWriter {
    /// It stops after `room` bytes.
    pub fn new(alloc: Global, room: usize, piece: usize) -> StoppingWriter
        ensures bytes { result.bytes.items ≡ [] }
        ensures room { result.room ≡ room }
        ensures piece { result.piece ≡ piece }
    {
        StoppingWriter {
            bytes: Vec::new(alloc),
            room,
            piece,
        }
    }
}

impl Write for StoppingWriter {
    ghost contents = { λ w. Some w.bytes.items };

    fn write(&mut self, bytes: &[u8]) -> Result<usize>
        ensures bound { WritesAtMost result bytes.now }
        ensures bytes { WriteAppends (Some self.old.bytes.items) (Some self.new.bytes.items) result bytes.now }
        ensures taken { IfOk result (λ n. n ≡ min (min (length bytes.now) self.old.piece) self.old.room) }
        ensures room { IfOk result (λ n. self.new.room + n ≡ self.old.room) }
        ensures piece { self.new.piece ≡ self.old.piece }
    {
        let taken = bytes.len().min(self.piece).min(self.room);
        self.bytes.extend_from_slice(&bytes[..taken])?;
        self.room -= taken;
        Ok(taken)
    }

    fn flush(&mut self) -> Result<()> {
        Ok(())
    }
}
