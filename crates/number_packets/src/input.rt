//! Reading a reader to its end.

ghost use Rattle.std.specs.Prelude.{◌≡◌, IfOk, IfSome};

use std::alloc::{AllocError, Global};
use std::io::{ErrorKind, Read};
use thiserror::Error;

/// How many reads may pass before a reader is given up as endless.
const MOST_READS: u64 = 1 << 32;

const PIECE: usize = 4096;

/// Why a reader was not read to its end.
#[derive(Debug, Drop, Error)]
pub enum InputFault {
    #[error("{0}")]
    Failed(ErrorKind),
    #[error("no end after 2^32 reads")]
    Endless,
    #[error("out of memory")]
    OutOfMemory,
}

impl From<AllocError> for InputFault {
    fn from(_: AllocError) -> InputFault {
        InputFault::OutOfMemory
    }
}

/// All the bytes that the reader has left. A read that is interrupted is tried again.
pub fn read_all<R: Read>(alloc: Global, input: &mut R) -> Result<Vec<u8>, InputFault>
    ensures { IfOk result (λ text. IfSome (R.remaining input.old) (λ bytes. text.items ≡ bytes)) }
{
    let mut text = Vec::new(alloc);
    let mut piece = [0u8; PIECE];
    for _ in 0..MOST_READS {
        match input.read(&mut piece) {
            Ok(0) => return Ok(text),
            Ok(count) => text.extend_from_slice(&piece[..count])?,
            Err(fault) => {
                let kind = fault.kind();
                if kind != ErrorKind::Interrupted {
                    return Err(InputFault::Failed(kind));
                }
            }
        }
    }
    Err(InputFault::Endless)
}
