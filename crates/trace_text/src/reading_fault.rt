//! Why a trace is not printed to its end while it is read.

ghost use Rattle.std.specs.Prelude.{◌≡◌};
ghost use Rattle.trace_text.specs.declared.reading_fault.ReadingFault.TheVariants.{OutOfMemory};
ghost use Rattle.trace_text.specs.ReadingFaults.{of_print_fault, of_stop};

use crate::printing_fault::PrintFault;
use packet_reader::ReadStop;
use std::alloc::{AllocError, AllocFailed};
use thiserror::Error;

/// Why a trace is not printed to its end while it is read.
#[derive(Clone, Copy, Debug, PartialEq, Eq, Error)]
pub enum ReadingFault {
    /// The reader at this place of the list, from 0 on, stopped for a reason that is not want of memory.
    #[error("stream file {0}: {1}")]
    Reader(usize, ReadStop),
    #[error("the writer failed")]
    Writer,
    /// 2^64 packets and records were told, and there are more.
    #[error("no end after 2^64 records")]
    TooManyRecords,
    #[error("out of memory")]
    OutOfMemory,
}

/// What stopped the reader at this place of the list.
pub(crate) fn stop_at(place: usize, stop: ReadStop) -> ReadingFault
    ensures { result ≡ of_stop place stop }
{
    match stop {
        ReadStop::ReaderFault | ReadStop::TooManyReads => ReadingFault::Reader(place, stop),
        ReadStop::OutOfMemory => ReadingFault::OutOfMemory,
    }
}

impl From<PrintFault> for ReadingFault {
    ghost from_gives = { λ fault e. e ≡ of_print_fault fault };

    fn from(fault: PrintFault) -> ReadingFault {
        match fault {
            PrintFault::Writer => ReadingFault::Writer,
            PrintFault::OutOfMemory => ReadingFault::OutOfMemory,
        }
    }
}

impl From<AllocError> for ReadingFault {
    ghost from_gives = { λ _ e. e ≡ OutOfMemory };

    fn from(_error: AllocError) -> ReadingFault {
        ReadingFault::OutOfMemory
    }
}

impl<T: Drop> From<AllocFailed<T>> for ReadingFault {
    ghost from_gives = { λ _ e. e ≡ OutOfMemory };

    fn from(_error: AllocFailed<T>) -> ReadingFault {
        ReadingFault::OutOfMemory
    }
}
