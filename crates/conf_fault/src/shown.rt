//! Texts that others wrote, as an explanation shows them: on one line, and not too long.

ghost use Rattle.std.specs.Prelude.{◌≡◌, ◌++◌, IfOk, OnOk, string_bytes};
ghost use Rattle.conf_fault.specs.Shown.{IsOneLine, cut, shown};

use conf_tree::OneLine;
use std::alloc::{AllocError, Global};

/// The most characters of a text from the configuration that an explanation shows.
const MOST_CHARACTERS: usize = 60;

/// Adds a text, or its first characters and three dots.
pub fn push_cut(said: &mut String, text: &str) -> Result<(), AllocError>
    ensures { OnOk result (string_bytes said.new ≡ string_bytes said.old ++ cut text.now) }
{
    let mut count = 0usize;
    for character in text.chars() {
        if count == MOST_CHARACTERS {
            return said.push_str("...");
        }
        said.push(character)?;
        count += 1;
    }
    Ok(())
}

/// The text on one line, as `OneLine` prints it.
pub fn on_one_line(alloc: Global, text: &str) -> Result<String, AllocError>
    ensures bytes { IfOk result (λ line. string_bytes line ≡ shown text.now) }
    ensures one_line { IfOk result (λ line. IsOneLine (string_bytes line)) }
{
    format!(in alloc; "{}", OneLine(text))
}
