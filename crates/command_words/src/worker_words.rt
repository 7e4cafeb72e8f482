//! The words of the command line that ask for workers.

ghost use Rattle.std.specs.Prelude.{◌≡◌, ◌⊎◌, ◌^◌, ℕ, List, Option, Some, IfOk, IfErr, codes, option_map};
ghost use Rattle.clap.specs.Words.{first_of, found_of, rows_of};
ghost use Rattle.command_words.specs.CommandLine.{HasWorkers, IsMemory, SaysBelow, SaysQuota};
ghost use Rattle.command_words.specs.LineFaults.{IsBlamed, TellsValue};

use crate::command_line::flag;
use crate::line_fault::LineFault;
use crate::quota::Quota;
use crate::word_values::{bad_value, out_of_range};
use clap::ArgMatches;
use std::alloc::Global;

/// The readings of each worker where no quota is said.
const READINGS: u64 = 1_000_000;

/// A quota is below this number: 64 workers together then make fewer than 2^64 readings, so each reading has 64 bits.
const BOUND: u64 = 1 << 58;

/// The quota of each worker, where workers are asked for. A quota without workers is refused.
pub fn workers(alloc: Global, found: &ArgMatches<'_>) -> Result<Option<Quota>, LineFault>
    ensures has { IfOk result (λ q. HasWorkers (rows_of (found_of found.now)) q) }
    ensures blamed { IfErr result (IsBlamed HasWorkers (rows_of (found_of found.now))) }
{
    let said = found.get_str("quota");
    if flag(alloc, found, "workers")? {
        return Ok(Some(quota(alloc, said)?));
    }
    match said {
        None => Ok(None),
        Some(text) => Err(bad_value(alloc, "quota", text, "no quota without --workers")),
    }
}

/// The quota that is said, or the default.
fn quota(alloc: Global, said: Option<&str>) -> Result<Quota, LineFault>
    ensures says { IfOk result (λ q. SaysQuota (option_map (λ s. s.now) said.entry) q.readings) }
    ensures refused { IfErr result (λ fault. IsMemory fault ⊎ ((n : ℕ) → SaysQuota (option_map (λ s. s.now) said.entry) n → ⊥)) }
    ensures told { IfErr result (λ fault. (text : List ℕ) × (option_map (λ s. s.now) said.entry ≡ Some text) × TellsValue (codes "quota") text fault) }
{
    match said {
        None => Ok(Quota { readings: READINGS }),
        Some(text) => readings(alloc, text),
    }
}

/// The quota that a text says: a number from 0 to 2^58 - 1, in decimal digits, perhaps behind a plus sign.
fn readings(alloc: Global, text: &str) -> Result<Quota, LineFault>
    ensures says { IfOk result (λ q. SaysBelow text.now (2 ^ 58) q.readings) }
    ensures refused { IfErr result (λ fault. IsMemory fault ⊎ ((n : ℕ) → SaysBelow text.now (2 ^ 58) n → ⊥)) }
    ensures told { IfErr result (TellsValue (codes "quota") text.now) }
{
    match text.parse::<u64>() {
        Ok(readings) if readings < BOUND => Ok(Quota { readings }),
        _ => Err(out_of_range(alloc, "quota", text, 0, BOUND - 1)),
    }
}
