//! What the words of a command line ask for.

ghost use Rattle.std.specs.Prelude.{◌⊎◌, map, Contains, IfOk, IfErr};
ghost use Rattle.clap.specs.Words.{rows_of, found_of};
ghost use Rattle.command_words.specs.CommandLine.{Asks, AsksBy, AsksTrace, AsksMetadata, AsksRead, HasWord, HasPath, HasNumber, HasUuid, HasFlag, HasResuming, IsMemory};
ghost use Rattle.command_words.specs.LineFaults.{Expects, IsBlamed, IsBlamedOf, IsFaultOfWords, TellsMissing, flag_words, paths, range_words};
ghost use Rattle.command_words.specs.declared.commands.Command.{Command as Wanted};

use crate::commands::{
    self, MOST_BUFFERS, MOST_PACKET_BYTES, MetadataCommand, ReadCommand, Resuming, TraceCommand,
};
use crate::line_fault::{LineFault, line_fault};
use crate::program_words::program;
use crate::word_values::{bad_value, identifier, number};
use crate::worker_words::workers;
use clap::ArgMatches;
use std::alloc::Global;
use uuid::Uuid;

/// The command that the words ask for, without the program's own name; no words ask for the first path. A refusal has the text to print:
/// help and the version are asked for, and go to standard output; all else is a bad line.
pub fn command<'a>(alloc: Global, words: &'a [&'a str]) -> Result<commands::Command<'a>, LineFault>
    ensures asks { IfOk result (λ c. Asks (map (λ s. s.now) words.now) c) }
    ensures refused { IfErr result (λ fault. IsMemory fault ⊎ ((c : Wanted) → Asks (map (λ s. s.now) words.now) c → ⊥)) }
    ensures told { IfErr result (IsFaultOfWords (map (λ s. s.now) words.now)) }
{
    if words.is_empty() {
        return Ok(commands::Command::FirstPath);
    }
    let matches = match program(alloc)?.try_get_matches_from(words) {
        Ok(matches) => matches,
        Err(error) => return Err(line_fault(alloc, &error)),
    };
    match matches.subcommand() {
        Some((name, found)) => named(alloc, name, found),
        None => Err(incomplete(alloc, "COMMAND")),
    }
}

/// The command of this name, with what was found for its words.
fn named<'a>(
    alloc: Global,
    name: &str,
    found: &ArgMatches<'a>,
) -> Result<commands::Command<'a>, LineFault>
    ensures asks { IfOk result (λ c. AsksBy name.now (rows_of (found_of found.now)) c) }
    ensures blamed { IfErr result (IsBlamedOf name.now (rows_of (found_of found.now))) }
{
    match name {
        "check" => Ok(commands::Command::Check(path(alloc, found, "config")?)),
        "metadata" => Ok(commands::Command::Metadata(metadata_command(alloc, found)?)),
        "trace" => Ok(commands::Command::Trace(trace_command(alloc, found)?)),
        "read" => Ok(commands::Command::Read(read_command(alloc, found)?)),
        _ => Err(incomplete(alloc, "COMMAND")),
    }
}

fn metadata_command<'a>(
    alloc: Global,
    found: &ArgMatches<'a>,
) -> Result<MetadataCommand<'a>, LineFault>
    ensures asks { IfOk result (λ m. AsksMetadata (rows_of (found_of found.now)) m) }
    ensures blamed { IfErr result (IsBlamed AsksMetadata (rows_of (found_of found.now))) }
{
    let config = path(alloc, found, "config")?;
    let uuid = identified(alloc, found)?;
    Ok(MetadataCommand { config, uuid })
}

fn trace_command<'a>(alloc: Global, found: &ArgMatches<'a>) -> Result<TraceCommand<'a>, LineFault>
    ensures asks { IfOk result (λ t. AsksTrace (rows_of (found_of found.now)) t) }
    ensures blamed { IfErr result (IsBlamed AsksTrace (rows_of (found_of found.now))) }
{
    let config = path(alloc, found, "config")?;
    let script = path(alloc, found, "script")?;
    let folder = path(alloc, found, "folder")?;
    let packet_bytes = counted(alloc, found, "packet", MOST_PACKET_BYTES)?;
    let buffers = counted(alloc, found, "buffers", MOST_BUFFERS)?;
    let uuid = identified(alloc, found)?;
    let is_quiet = flag(alloc, found, "quiet")?;
    let workers = workers(alloc, found)?;
    let resume = resuming(alloc, found)?;
    Ok(TraceCommand {
        config,
        script,
        folder,
        packet_bytes,
        buffers,
        uuid,
        is_quiet,
        workers,
        resume,
    })
}

fn read_command<'a>(alloc: Global, found: &ArgMatches<'a>) -> Result<ReadCommand<'a>, LineFault>
    ensures asks { IfOk result (λ r. AsksRead (rows_of (found_of found.now)) r) }
    ensures blamed { IfErr result (IsBlamed AsksRead (rows_of (found_of found.now))) }
{
    let folder = path(alloc, found, "folder")?;
    let is_quiet = flag(alloc, found, "quiet")?;
    Ok(ReadCommand { folder, is_quiet })
}

/// Whether a trace is to go on in its folder.
fn resuming(alloc: Global, found: &ArgMatches<'_>) -> Result<Resuming, LineFault>
    ensures has { IfOk result (HasResuming (rows_of (found_of found.now))) }
    ensures blamed { IfErr result (IsBlamed HasResuming (rows_of (found_of found.now))) }
{
    if flag(alloc, found, "resume")? {
        return Ok(Resuming::Behind);
    }
    Ok(Resuming::Anew)
}

/// The path that was found for a place. An empty one, as a variable without a value gives, is none: a file below it would be one of the root folder.
fn path<'a>(alloc: Global, found: &ArgMatches<'a>, id: &str) -> Result<&'a str, LineFault>
    requires { Contains paths id.now }
    ensures has { IfOk result (λ path. HasPath (rows_of (found_of found.now)) id.now path) }
    ensures blamed { IfErr result (IsBlamed (λ rows path. HasPath rows id.now path) (rows_of (found_of found.now))) }
{
    match needed(alloc, found, id)? {
        "" => Err(incomplete(alloc, id)),
        word => Ok(word),
    }
}

/// The word that was found for a place.
fn needed<'a>(alloc: Global, found: &ArgMatches<'a>, id: &str) -> Result<&'a str, LineFault>
    ensures has { IfOk result (λ word. HasWord (rows_of (found_of found.now)) id.now word) }
    ensures blamed { IfErr result (IsBlamed (λ rows word. HasWord rows id.now word) (rows_of (found_of found.now))) }
{
    match found.get_str(id) {
        Some(word) => Ok(word),
        None => Err(incomplete(alloc, id)),
    }
}

/// The number that was found for an option.
fn counted(alloc: Global, found: &ArgMatches<'_>, id: &str, most: u32) -> Result<u32, LineFault>
    requires { Expects id.now (range_words 1 most) }
    ensures has { IfOk result (λ n. HasNumber (rows_of (found_of found.now)) id.now most n) }
    ensures blamed { IfErr result (IsBlamed (λ rows n. HasNumber rows id.now most n) (rows_of (found_of found.now))) }
{
    let word = needed(alloc, found, id)?;
    number(alloc, id, word, most)
}

/// The identifier that was found, if one is given.
fn identified(alloc: Global, found: &ArgMatches<'_>) -> Result<Option<Uuid>, LineFault>
    ensures has { IfOk result (HasUuid (rows_of (found_of found.now))) }
    ensures blamed { IfErr result (IsBlamed HasUuid (rows_of (found_of found.now))) }
{
    identifier(alloc, found.get_str("uuid"))
}

/// Whether a flag was found.
pub fn flag(alloc: Global, found: &ArgMatches<'_>, id: &str) -> Result<bool, LineFault>
    requires { Expects id.now flag_words }
    ensures has { IfOk result (λ b. HasFlag (rows_of (found_of found.now)) id.now b) }
    ensures blamed { IfErr result (IsBlamed (λ rows b. HasFlag rows id.now b) (rows_of (found_of found.now))) }
{
    match needed(alloc, found, id)? {
        "true" => Ok(true),
        "false" => Ok(false),
        word => Err(bad_value(alloc, id, word, "`true` or `false`")),
    }
}

/// That a word is missing.
fn incomplete(alloc: Global, word: &str) -> LineFault
    ensures { TellsMissing word.now result }
{
    match format!(in alloc;
        "error: nothing is given for {word}\n\nFor more information, try '--help'.\n"
    ) {
        Ok(text) => LineFault::Bad(text),
        Err(_) => LineFault::OutOfMemory,
    }
}
