//! Files of the command line, read whole, and why a file fails.

ghost use Rattle.std.specs.Prelude.{◌≡◌, IfOk};
ghost use Rattle.trace_commands.specs.Telling.{IsFileLine, SaysLine, WasGiven};

use crate::answer::{OUT_OF_MEMORY, fail};
use crate::fault_lines::fault_line;
use number_packets::{InputFault, read_all};
use packet_reader::ReadStop;
use std::alloc::Global;
use std::fs;
use std::io::{ErrorKind, Write};
use std::rt::Files;
use thiserror::Error;

/// Why a file was not read, or not written, or a folder not found or not listed.
#[derive(Debug, Drop, Error)]
pub enum FileFault {
    #[error("cannot open: {0}")]
    NotOpened(ErrorKind),
    #[error("cannot read: {0}")]
    NotRead(InputFault),
    /// The reader of a stream file stopped.
    #[error("cannot read: {0}")]
    Stopped(ReadStop),
    #[error("cannot find: {0}")]
    NotFound(ErrorKind),
    #[error("not a folder")]
    NoFolder,
    #[error("cannot list: {0}")]
    NotListed(ErrorKind),
    #[error("cannot make: {0}")]
    NotMade(ErrorKind),
    /// The folder that is to be made is there.
    #[error("cannot make: entity already exists (--resume goes on in a trace that is there)")]
    IsThere,
    #[error("a write failed")]
    NotWritten,
}

/// The bytes of a file.
pub fn read_file<X: Files + AllocGlobal>(rt: &X, path: &str) -> Result<Vec<u8>, FileFault>
    ensures { IfOk result (λ text. WasGiven X.File.remaining text.items) }
{
    let mut file = match fs::open(rt, path) {
        Ok(file) => file,
        Err(fault) => return Err(FileFault::NotOpened(fault.kind())),
    };
    match read_all(rt.alloc(), &mut file) {
        Ok(text) => Ok(text),
        Err(fault) => Err(FileFault::NotRead(fault)),
    }
}

/// Says what failed of a file.
pub fn fail_at<E: Write>(alloc: Global, path: &str, fault: &FileFault, errors: &mut E) -> u8
    ensures status { result ≡ 3 }
    ensures said { SaysLine (IsFileLine path.now) (E.contents errors.old) (E.contents errors.new) }
{
    let Ok(said) = format!(in alloc; "{fault}") else {
        return fail(errors, OUT_OF_MEMORY);
    };
    match fault_line(alloc, path, said.as_str()) {
        Ok(line) => fail(errors, line.as_slice()),
        Err(_) => fail(errors, OUT_OF_MEMORY),
    }
}
