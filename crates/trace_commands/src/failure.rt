//! Why a command has no answer.

ghost use Rattle.std.specs.Prelude.{◌≡◌};
ghost use Rattle.trace_commands.specs.Telling.{FailsAt, IsFailureLine, SaysLine};

use crate::answer::{OUT_OF_MEMORY, fail};
use crate::files::{FileFault, fail_at};
use std::alloc::{AllocError, AllocFailed, Global};
use std::io::Write;

/// What failed: a file of this path, or memory was wanting.
#[derive(Debug, Drop)]
pub enum Failure {
    File(String, FileFault),
    OutOfMemory,
}

impl From<AllocError> for Failure {
    ghost use Rattle.trace_commands.specs.declared.failure.Failure.TheVariants.{OutOfMemory};

    ghost from_gives = { λ _ e. e ≡ OutOfMemory };

    fn from(_: AllocError) -> Failure {
        Failure::OutOfMemory
    }
}

impl<T: Drop> From<AllocFailed<T>> for Failure {
    ghost use Rattle.trace_commands.specs.declared.failure.Failure.TheVariants.{OutOfMemory};

    ghost from_gives = { λ _ e. e ≡ OutOfMemory };

    fn from(_: AllocFailed<T>) -> Failure {
        Failure::OutOfMemory
    }
}

/// That a file of this path failed.
pub fn file_failure(alloc: Global, path: &str, fault: FileFault) -> Failure
    ensures { FailsAt (λ failed. failed ≡ path.now) result }
{
    match String::from_str(alloc, path) {
        Ok(path) => Failure::File(path, fault),
        Err(_) => Failure::OutOfMemory,
    }
}

/// Says what failed, as far as `errors` takes it.
pub fn say_failure<E: Write>(alloc: Global, failure: &Failure, errors: &mut E) -> u8
    ensures status { result ≡ 3 }
    ensures said { SaysLine (IsFailureLine failure.now) (E.contents errors.old) (E.contents errors.new) }
{
    match failure {
        Failure::File(path, fault) => fail_at(alloc, path.as_str(), fault, errors),
        Failure::OutOfMemory => fail(errors, OUT_OF_MEMORY),
    }
}
