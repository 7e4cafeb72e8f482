//! The bytes of a page, in memory that is all there from the start.

ghost use Rattle.std.specs.Prelude.{◌≡◌, ◌≤◌, ◌++◌, ℕ, List, [], false, IfOk, IsTrue, length, take};

use std::alloc::{AllocError, Global};
use std::marker::Model;

/// Bytes that were put one behind the other, seen as a list. Only so many have room.
#[derive(Drop)]
pub(crate) struct PageBytes {
    bytes: Vec<u8>,
    /// How many of them were put.
    used: usize,
}

impl Model for PageBytes {
    ghost Value = { List ℕ };

    ghost view = { λ page. take page.used page.bytes.items };

    ghost invariant = { λ page. page.used ≤ length page.bytes.items };
}

impl PageBytes {
    /// No bytes, and room for so many.
    pub(crate) fn new(alloc: Global, room: usize) -> Result<PageBytes, AllocError>
        ensures { IfOk result (λ page. page ≡ []) }
    {
        Ok(PageBytes {
            bytes: vec![in alloc; 0; room]?,
            used: 0,
        })
    }

    pub(crate) fn as_slice(&self) -> &[u8]
        ensures { result.now ≡ self.now }
    {
        &self.bytes[..self.used]
    }

    /// Puts bytes behind the others. The answer is false where they have no room: then none is put.
    #[inline(always)]
    pub(crate) fn put(&mut self, text: &[u8]) -> bool
        ensures put { IsTrue result → self.new ≡ self.old ++ text.now }
        ensures stays { result ≡ false → self.new ≡ self.old }
    {
        if text.len() > self.bytes.len() - self.used {
            return false;
        }
        let end = self.used + text.len();
        self.bytes[self.used..end].copy_from_slice(text);
        self.used = end;
        true
    }

    /// Lets all bytes go, and keeps the room.
    pub(crate) fn clear(&mut self)
        ensures { self.new ≡ [] }
    {
        self.used = 0;
    }
}
