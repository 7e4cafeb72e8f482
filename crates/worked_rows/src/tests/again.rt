//! A script that is read and run, and its trace that is read back and printed. Each call that is refused for want of memory is made once more: it answers as
//! with ample memory, since the refused call left all as it was. The test passes then; where another request is refused it answers that it is out of memory.
//! The script beside the gate refuses each request in turn.

mod reading;
mod sessions;

use crate::tests::expected::same;
use reading::{prints_from_bytes, prints_from_readers};
use sessions::{ALL, BESIDE, recorded};
use std::test::Fail;

#[test]
fn runs_a_script_and_prints_its_trace(rt: HostRuntime) -> Result<(), Fail> {
    let (metadata, files) = recorded(&rt, rt.alloc(), &ALL)?;
    prints_from_bytes(&rt, rt.alloc(), metadata.as_str(), &files)?;
    prints_from_readers(&rt, rt.alloc(), metadata.as_str(), &files)
}

#[test]
fn goes_on_beside_a_sink_that_faults(rt: HostRuntime) -> Result<(), Fail> {
    let (_metadata, files) = recorded(&rt, rt.alloc(), &BESIDE)?;
    same(&rt, files.len(), 2, "files");
    Ok(())
}

/// What the second call answers.
fn at_last<T, E: Drop>(answer: Result<T, E>) -> Result<T, Fail> {
    match answer {
        Ok(value) => Ok(value),
        Err(_) => Err("a second refusal".into()),
    }
}
