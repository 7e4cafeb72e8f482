//! Names of a text as people read them: long ones are cut.

use std::alloc::{AllocError, Global};
use tsdl_flaw::{Flaw, Orphan};

/// How many characters of a name are shown.
const MOST_CHARACTERS: usize = 60;

/// A flaw whose words show no more of a name.
pub(crate) fn with_short_name(alloc: Global, flaw: Flaw) -> Result<Flaw, AllocError> {
    match flaw {
        Flaw::Unsupported(name, remedy) => {
            Ok(Flaw::Unsupported(cut(alloc, name.as_str())?, remedy))
        }
        Flaw::NoStream(Orphan { stream, event }) => {
            let event = cut(alloc, event.as_str())?;
            Ok(Flaw::NoStream(Orphan { stream, event }))
        }
        other => Ok(other),
    }
}

/// A name, or its first characters and three dots.
fn cut(alloc: Global, name: &str) -> Result<String, AllocError> {
    let mut shown = String::new(alloc);
    let mut count = 0usize;
    for character in name.chars() {
        if count == MOST_CHARACTERS {
            shown.push_str("...")?;
            break;
        }
        shown.push(character)?;
        count = count.saturating_add(1);
    }
    Ok(shown)
}
