//! Words of the command line that say a number or an identifier.

ghost use Rattle.std.specs.Prelude.{◌≡◌, ◌⊎◌, ℕ, List, Option, IfOk, IfErr, Some, codes, option_map};
ghost use Rattle.command_words.specs.CommandLine.{SaysNumber, IsMemory, uuid_said};
ghost use Rattle.command_words.specs.LineFaults.{Expects, TellsValue, range_words};

use crate::line_fault::LineFault;
use std::alloc::Global;
use uuid::Uuid;

/// The number that the value of an option says: from 1 to `most`, in decimal digits, perhaps behind a plus sign.
pub fn number(alloc: Global, option: &str, value: &str, most: u32) -> Result<u32, LineFault>
    requires { Expects option.now (range_words 1 most) }
    ensures says { IfOk result (λ n. SaysNumber value.now most n) }
    ensures refused { IfErr result (λ fault. IsMemory fault ⊎ ((n : ℕ) → SaysNumber value.now most n → ⊥)) }
    ensures told { IfErr result (TellsValue option.now value.now) }
{
    match value.parse::<u32>() {
        Ok(number) if 1 <= number && number <= most => Ok(number),
        _ => Err(out_of_range(alloc, option, value, 1, u64::from(most))),
    }
}

/// The identifier that the value of an option says, where it is given.
pub fn identifier(alloc: Global, value: Option<&str>) -> Result<Option<Uuid>, LineFault>
    ensures says { IfOk result (λ u. uuid_said (option_map (λ s. s.now) value.entry) ≡ Some u) }
    ensures refused { IfErr result (λ fault. IsMemory fault ⊎ ((u : Option (List ℕ)) → uuid_said (option_map (λ s. s.now) value.entry) ≡ Some u → ⊥)) }
    ensures told { IfErr result (λ fault. (text : List ℕ) × (option_map (λ s. s.now) value.entry ≡ Some text) × TellsValue (codes "uuid") text fault) }
{
    let Some(text) = value else {
        return Ok(None);
    };
    match Uuid::try_parse(text) {
        Ok(uuid) => Ok(Some(uuid)),
        Err(_) => Err(bad_value(
            alloc,
            "uuid",
            text,
            "an identifier, as `urn:uuid:` or 32 hexadecimal digits in groups of 8, 4, 4, 4 and 12",
        )),
    }
}

/// That the value of an option is no whole number from the least to the most.
pub fn out_of_range(alloc: Global, option: &str, value: &str, least: u64, most: u64) -> LineFault
    requires { Expects option.now (range_words least most) }
    ensures { TellsValue option.now value.now result }
{
    match format!(in alloc; "a whole number from {least} to {most}") {
        Ok(expected) => bad_value(alloc, option, value, expected.as_str()),
        Err(_) => LineFault::OutOfMemory,
    }
}

/// That the value of an option says nothing of what is expected there.
pub fn bad_value(alloc: Global, option: &str, value: &str, expected: &str) -> LineFault
    requires { Expects option.now expected.now }
    ensures { TellsValue option.now value.now result }
{
    match format!(in alloc;
        "error: invalid value '{value}' for '--{option}': expected {expected}\n\nFor more information, try '--help'.\n"
    ) {
        Ok(text) => LineFault::Bad(text),
        Err(_) => LineFault::OutOfMemory,
    }
}
