//! A byte string that a tracing call hands over or a reader shows.

ghost use Rattle.std.specs.Prelude.{◌≡◌, ◌+◌, ◌≤◌, ◌↔◌, ◌++◌, ℕ, List, [], length, IfOk, OnOk, OnErr, IsTrue};
ghost use Rattle.std.specs.Bool.{OnTrue, OnFalse};

use std::alloc::{AllocError, Global};
use std::marker::Model;

/// The bytes of a string field, without the zero byte that ends it in a packet.
///
/// A caller that traces in a loop makes it once and refills it: `clear` and `refill` keep its capacity and take no memory.
#[derive(Debug, Drop)]
pub struct Bytes {
    bytes: Vec<u8>,
}

impl Model for Bytes {
    ghost Value = { List ℕ };

    ghost view = { λ b. b.bytes.items };
}

impl Bytes {
    /// No bytes. It takes no memory.
    pub fn new(alloc: Global) -> Bytes
        ensures { result ≡ [] }
    {
        Bytes {
            bytes: Vec::new(alloc),
        }
    }

    /// The bytes of this vector, with its capacity. It takes no memory.
    pub fn from_vec(bytes: Vec<u8>) -> Bytes
        ensures { result ≡ bytes.items }
    {
        Bytes { bytes }
    }

    /// A copy of these bytes in memory of its own.
    pub fn from_slice(alloc: Global, bytes: &[u8]) -> Result<Bytes, AllocError>
        ensures { IfOk result (λ b. b ≡ bytes.now) }
    {
        Ok(Bytes {
            bytes: Vec::from_slice(alloc, bytes)?,
        })
    }

    /// The bytes as a vector, with their capacity. It takes no memory.
    pub fn into_vec(self) -> Vec<u8>
        ensures { result.items ≡ self }
    {
        let Self { bytes } = self;
        bytes
    }

    /// The bytes, in their order.
    pub fn as_slice(&self) -> &[u8]
        ensures { result.now ≡ self.now }
    {
        self.bytes.as_slice()
    }

    /// The number of bytes, without the zero byte that ends them in a packet.
    pub fn len(&self) -> usize
        ensures { result ≡ length self.now }
    {
        self.bytes.len()
    }

    /// Whether there is no byte.
    pub fn is_empty(&self) -> bool
        ensures { IsTrue result ↔ (self.now ≡ []) }
    {
        self.bytes.is_empty()
    }

    /// An equal byte string in memory of its own.
    pub fn copy(&self, alloc: Global) -> Result<Bytes, AllocError>
        ensures { IfOk result (λ b. b ≡ self.now) }
    {
        Bytes::from_slice(alloc, self.as_slice())
    }

    /// Removes every byte and keeps the capacity.
    pub fn clear(&mut self)
        ensures { self.new ≡ [] }
    {
        self.bytes.clear();
    }

    /// Adds bytes at the end, and grows where they have no room.
    pub fn extend_from_slice(&mut self, more: &[u8]) -> Result<(), AllocError>
        ensures ok { OnOk result (self.new ≡ self.old ++ more.now) }
        ensures err { OnErr result (self.new ≡ self.old) }
    {
        self.bytes.extend_from_slice(more)
    }

    /// Puts these bytes in the place of all that is held, within the capacity: it never takes memory.
    /// The answer is false where they have no room: bytes that are no more than those that are held always have it.
    pub fn refill(&mut self, bytes: &[u8]) -> bool
        ensures filled { OnTrue result (self.new ≡ bytes.now) }
        ensures no_room { OnFalse result (self.new ≡ self.old) }
        ensures has_room { length bytes.now ≤ length self.old → IsTrue result }
    {
        if self.bytes.capacity() < bytes.len() {
            return false;
        }
        let held = &mut self.bytes;
        held.clear();
        match held.extend_from_slice(bytes) {
            Ok(()) => true,
            Err(_) => unreachable!(),
        }
    }
}
