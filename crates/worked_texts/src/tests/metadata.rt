//! Texts that are no metadata: the first fault of each, and its place. What `read` says of them stands in the cases.

mod faults;
mod syntax;

use crate::tests::rows::same;
use crate::tests::words::spelled;
use faults::{BAD_LENGTH, DUPLICATE, LIMIT, NAMES, NO_PACKET_SIZE, UNSUPPORTED};
use std::alloc::Global;
use std::process::Abort;
use std::test::Fail;
use syntax::SYNTAX;
use tsdl_reader::read_metadata;

/// The kind of the fault that a text is refused with, and its place.
fn told_of(alloc: Global, text: &[u8]) -> Result<String, Fail> {
    match read_metadata(alloc, text) {
        Err(fault) => Ok(format!(in alloc; "{:?} at {}", fault.kind, fault.place)?),
        Ok(_) => Err("a text that denotes nothing was read".into()),
    }
}

/// The first fault of a row stands at its caret. It is of this kind, or of the one behind the row's arrow.
fn is_refused(rt: &impl Abort, alloc: Global, row: &str, kind: &str) -> Result<(), Fail> {
    if row.is_empty() || row.starts_with("# ") {
        return Ok(());
    }
    let (text, kind) = row.split_once(" -> ").unwrap_or((row, kind));
    let (front, end) = text.split_once("^").ok_or("a row without a caret")?;
    let front = spelled(alloc, front)?;
    let front = format!(in alloc; "/* CTF 1.8 */{front}")?;
    let metadata = format!(in alloc; "{front}{end}")?;
    let found = told_of(alloc, metadata.as_str().as_bytes())?;
    let expected = format!(in alloc; "{kind} at {}", front.len())?;
    same(rt, found.as_str(), expected.as_str(), row);
    Ok(())
}

/// The rows of a table, a line each.
fn are_refused(rt: &impl Abort, alloc: Global, table: &str, kind: &str) -> Result<(), Fail> {
    for row in table.lines() {
        is_refused(rt, alloc, row, kind)?;
    }
    Ok(())
}

#[test]
fn finds_the_first_fault_and_its_place(rt: HostRuntime) -> Result<(), Fail> {
    are_refused(&rt, rt.alloc(), SYNTAX, "Syntax")?;
    are_refused(&rt, rt.alloc(), UNSUPPORTED, "Unsupported")?;
    are_refused(&rt, rt.alloc(), DUPLICATE, "Duplicate")?;
    are_refused(&rt, rt.alloc(), NO_PACKET_SIZE, "NoPacketSize")?;
    are_refused(&rt, rt.alloc(), BAD_LENGTH, "BadLength")?;
    are_refused(&rt, rt.alloc(), LIMIT, "Limit")?;
    are_refused(&rt, rt.alloc(), NAMES, "Limit")
}
