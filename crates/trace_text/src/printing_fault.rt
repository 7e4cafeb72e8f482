//! Why a trace is not printed to its end.

ghost use Rattle.std.specs.Prelude.{◌≡◌};
ghost use Rattle.trace_text.specs.declared.printing_fault.PrintFault.TheVariants.{OutOfMemory};

use std::alloc::AllocError;
use thiserror::Error;

/// Why a trace is not printed to its end.
#[derive(Clone, Copy, Debug, PartialEq, Eq, Error)]
pub enum PrintFault {
    #[error("the writer failed")]
    Writer,
    #[error("out of memory")]
    OutOfMemory,
}

impl From<AllocError> for PrintFault {
    ghost from_gives = { λ _ e. e ≡ OutOfMemory };

    fn from(_error: AllocError) -> PrintFault {
        PrintFault::OutOfMemory
    }
}
