//! Why there is no value to read.

ghost use Rattle.std.specs.Prelude.{◌≡◌};
ghost use Rattle.value_codec.specs.declared.read_fault.ReadFault.TheVariants.{OutOfMemory};

use std::alloc::{AllocError, AllocFailed};
use thiserror::Error;

/// Why a field could not be read: the first fault, in the order of the fields.
#[derive(Clone, Copy, Debug, PartialEq, Eq, Error)]
pub enum ReadFault {
    /// A field reaches past the end of the bits, or an empty array or a string would begin there.
    #[error("a field reaches past the end")]
    PastEnd,
    /// A string begins before the end of the bits, and no zero byte ends it.
    #[error("a string has no zero byte")]
    NoTerminator,
    #[error("out of memory")]
    OutOfMemory,
}

impl From<AllocError> for ReadFault {
    ghost from_gives = { λ _ e. e ≡ OutOfMemory };

    fn from(_error: AllocError) -> ReadFault {
        ReadFault::OutOfMemory
    }
}

impl<T: Drop> From<AllocFailed<T>> for ReadFault {
    ghost from_gives = { λ _ e. e ≡ OutOfMemory };

    fn from(_error: AllocFailed<T>) -> ReadFault {
        ReadFault::OutOfMemory
    }
}
