//! The clocks of a text in words, where an integer is mapped to one that is not there.

use ctf_types::{Text, is_identifier, is_unused_keyword};
use std::alloc::{AllocError, Global};

/// How many clocks are named.
const MOST_CLOCKS: usize = 10;

/// How many bytes of a name are shown.
const MOST_BYTES: usize = 60;

/// The clocks that an integer can be mapped to: those whose names can stand there.
pub(crate) fn clock_words(alloc: Global, clocks: &[Text]) -> Result<String, AllocError> {
    let mut said = String::new(alloc);
    let mut count = 0usize;
    for clock in clocks {
        if can_be_mapped_to(clock.as_str()) {
            push_clock(&mut said, count, clock.as_str())?;
            count = count.saturating_add(1);
        }
    }
    match count.saturating_sub(MOST_CLOCKS) {
        0 if clocks.is_empty() => said.push_str("there is none")?,
        0 if count == 0 => said.push_str("no clock's name is an identifier")?,
        0 => {}
        more => said.push_str(format!(in alloc; " and {more} more")?.as_str())?,
    }
    Ok(said)
}

/// Whether a clock's name can stand in `clock.NAME.value`. A string can be any name.
fn can_be_mapped_to(name: &str) -> bool {
    is_identifier(name) && !is_unused_keyword(name)
}

/// Adds the name of a clock behind so many others. A long name is cut, and dots stand behind it.
fn push_clock(said: &mut String, before: usize, name: &str) -> Result<(), AllocError> {
    if before >= MOST_CLOCKS {
        return Ok(());
    }
    if before > 0 {
        said.push_str(", ")?;
    }
    let shown = name.get(..MOST_BYTES).unwrap_or(name);
    said.push_str("`")?;
    said.push_str(shown)?;
    said.push_str(if shown.len() < name.len() {
        "`..."
    } else {
        "`"
    })
}
