//! A value of the text as it is written, without the white space between its parts.

ghost use Rattle.std.specs.Prelude.{◌≡◌, ◌++◌, IfOk, OnOk, encode_utf8_all, string_bytes};
ghost use Rattle.conf_fault.specs.Written.{closed_up as text_closed_up, kept, place_behind, skips as is_skipped};

use std::alloc::{AllocError, Global};

/// Where a character of a JSON value stands: between texts, in one, or in one behind a backslash that does something to it.
#[derive(Clone, Copy)]
pub(crate) enum Within {
    Between,
    Text,
    Escape,
}

impl Within {
    /// Whether it is white space between the parts of the value.
    fn skips(self, character: char) -> bool
        ensures { result ≡ is_skipped self character }
    {
        match self {
            Within::Between => matches!(character, ' ' | '\t' | '\n' | '\r'),
            Within::Text | Within::Escape => false,
        }
    }

    /// Where the character behind it stands.
    pub(crate) fn behind(self, character: char) -> Within
        ensures { result ≡ place_behind self character }
    {
        match self {
            Within::Between if character == '"' => Within::Text,
            Within::Between => Within::Between,
            Within::Text if character == '"' => Within::Between,
            Within::Text if character == '\\' => Within::Escape,
            Within::Text | Within::Escape => Within::Text,
        }
    }
}

/// The text of a value without the white space between its parts.
pub(crate) fn closed_up(alloc: Global, value: &str) -> Result<String, AllocError>
    ensures { IfOk result (λ words. string_bytes words ≡ text_closed_up value.now) }
{
    let mut words = String::new(alloc);
    let mut within = Within::Between;
    for character in value.chars() {
        push_kept(&mut words, within, character)?;
        within = within.behind(character);
    }
    Ok(words)
}

/// Adds a character where it is no white space between the parts of a value.
fn push_kept(words: &mut String, within: Within, character: char) -> Result<(), AllocError>
    ensures { OnOk result (string_bytes words.new ≡ string_bytes words.old ++ encode_utf8_all (kept within character)) }
{
    if within.skips(character) {
        return Ok(());
    }
    words.push(character)
}
