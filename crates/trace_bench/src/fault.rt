//! Why nothing was measured.

use std::alloc::AllocError;
use thiserror::Error;

/// Why nothing was measured.
#[derive(Clone, Copy, Debug, PartialEq, Eq, Error)]
pub enum BenchFault {
    #[error("wanted: byte|clocked|text share|make THREADS (0 to 64) CALLS (0 to 100000000), or trace|write CALLS, or decode or configure")]
    Words,
    #[error("the configuration was refused")]
    Configuration,
    #[error("the clock has no readings left")]
    Clock,
    #[error("the stream was refused")]
    Stream,
    #[error("the workers were refused or did not end")]
    Workers,
    #[error("the output took no more")]
    Output,
    #[error("the input is no whole stream file of such records")]
    Input,
    #[error("out of memory")]
    OutOfMemory,
}

impl From<AllocError> for BenchFault {
    ghost use Rattle.std.specs.Prelude.{◌≡◌};
    ghost use Rattle.trace_bench.specs.declared.fault.BenchFault.TheVariants.{OutOfMemory};

    ghost from_gives = { λ _ e. e ≡ OutOfMemory };

    fn from(_error: AllocError) -> BenchFault {
        BenchFault::OutOfMemory
    }
}
