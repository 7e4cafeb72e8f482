//! The arguments of a tracing call.

ghost use Rattle.std.specs.Prelude.{◌≡◌, IfOk};

use crate::Values;
use plain_lists::{Duplicate, both};
use std::alloc::{AllocError, Global};

/// What a tracing call records: the values of the three structures of an event record that the caller fills, in the order of their members.
/// A dynamic array's length member has no value here: it is the length of the list.
#[derive(Debug, Drop)]
pub struct Args {
    /// Of the common context of the data stream type's event records.
    pub common: Values,
    /// Of the specific context of the event record type.
    pub specific: Values,
    pub payload: Values,
}

impl Duplicate for Args {
    fn copy(&self, alloc: Global) -> Result<Args, AllocError> {
        let contexts = both(self.common.copy(alloc), self.specific.copy(alloc));
        let ((common, specific), payload) = both(contexts, self.payload.copy(alloc))?;
        Ok(Args {
            common,
            specific,
            payload,
        })
    }
}
