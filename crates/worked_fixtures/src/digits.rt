//! Bytes as the rows say them.

use std::alloc::Global;
use std::test::Fail;

/// Bytes in hexadecimal, in groups with blanks between them.
pub fn bytes_of(alloc: Global, digits: &str) -> Result<Vec<u8>, Fail> {
    let digits = digits.replace(alloc, " ", "")?;
    Ok(hex::decode(alloc, digits.as_str())?)
}
