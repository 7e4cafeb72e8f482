//! The words that the program knows: its commands, and what each is given.

ghost use Rattle.std.specs.Prelude.{◌≡◌, IfOk, false};
ghost use Rattle.clap.specs.Words.{app_of, shape_of, with_subcommand};
ghost use Rattle.clap.specs.declared.builder.command.Command.TheViews.{out-Command as fields_of};
ghost use Rattle.command_words.specs.ProgramWords.{own, program as program_of, shape_of_command, with_commands, with_words};

use crate::known_word::{Form, KnownWord};
use clap::Command;
use std::alloc::{AllocError, Global};

/// A command: its name, what it does, an example with its statuses, and its words in their order.
#[derive(Clone, Copy)]
struct KnownCommand {
    name: &'static str,
    about: &'static str,
    after_help: &'static str,
    words: &'static [KnownWord],
}

const CONFIG: KnownWord = KnownWord {
    id: "config",
    form: Form::Needed("CONFIG"),
    help: "The file of the configuration, as JSON",
};

const UUID: KnownWord = KnownWord {
    id: "uuid",
    form: Form::Valued("U"),
    help: "The trace's identifier, where the configuration says `auto`",
};

const QUIET: KnownWord = KnownWord {
    id: "quiet",
    form: Form::Flag,
    help: "Says no progress on a terminal",
};

const CHECK: KnownCommand = KnownCommand {
    name: "check",
    about: "Judges a configuration",
    after_help: "Example: ctftrace check conf.json\n\nStatus: 0 it is one; 1 it has a fault; 2 a bad command line; 3 a file or memory failed",
    words: &[CONFIG],
};

const METADATA: KnownCommand = KnownCommand {
    name: "metadata",
    about: "Prints the metadata of a configuration",
    after_help: "Example: ctftrace metadata conf.json > metadata\n\nStatus: 0; 1 the configuration has a fault; 2 a bad command line; 3 a file or memory failed",
    words: &[CONFIG, UUID],
};

const TRACE: KnownCommand = KnownCommand {
    name: "trace",
    about: "Traces the events of a script into a new folder, or goes on in one, and prints the answer to each",
    after_help: "Examples: ctftrace trace conf.json script.json trace\n          ctftrace trace conf.json script.json threads --workers --quota 1000\n          ctftrace trace conf.json more.json trace --resume\n\nStatus: 0; 1 the configuration or the script has a fault, or the trace in DIR does not go on; 2 a bad command line; 3 a file, a thread or memory failed",
    words: &[
        CONFIG,
        KnownWord {
            id: "script",
            form: Form::Needed("SCRIPT"),
            help: "The file of the script, as JSON: streams and events",
        },
        KnownWord {
            id: "folder",
            form: Form::Needed("DIR"),
            help: "The folder that is made for the trace, or with --resume that of the trace",
        },
        KnownWord {
            id: "packet",
            form: Form::Defaulted("BYTES", "4096"),
            help: "The bytes of a packet, from 1 to 1048576",
        },
        KnownWord {
            id: "buffers",
            form: Form::Defaulted("N", "4"),
            help: "The packets that a stream keeps until they are collected, from 1 to 1024",
        },
        UUID,
        QUIET,
        KnownWord {
            id: "workers",
            form: Form::Flag,
            help: "Traces each stream in a thread of its own, all by one clock; without the script's collections and readings",
        },
        KnownWord {
            id: "quota",
            form: Form::Valued("Q"),
            help: "With --workers: the readings of each stream, from 0 to 288230376151711743 [default: 1000000]",
        },
        KnownWord {
            id: "resume",
            form: Form::Flag,
            help: "Goes on behind the trace in DIR, which has this configuration's metadata",
        },
    ],
};

const READ: KnownCommand = KnownCommand {
    name: "read",
    about: "Prints the trace in a folder",
    after_help: "Example: ctftrace read trace\n\nStatus: 0; 1 the metadata or a stream file has a fault; 2 a bad command line; 3 a file or memory failed",
    words: &[
        KnownWord {
            id: "folder",
            form: Form::Needed("DIR"),
            help: "The folder of the trace: its `metadata`, and a file for each stream",
        },
        QUIET,
    ],
};

/// The program with its commands.
pub fn program<'a>(alloc: Global) -> Result<Command<'a>, AllocError>
    ensures words { IfOk result (λ c. app_of c ≡ program_of) }
{
    with_commands(alloc, bare(alloc)?, &[CHECK, METADATA, TRACE, READ])
}

/// A program with these commands behind those that it has.
fn with_commands<'a>(
    alloc: Global,
    program: Command<'a>,
    commands: &[KnownCommand],
) -> Result<Command<'a>, AllocError>
    ensures { IfOk result (λ c. app_of c ≡ with_commands (app_of program.entry) commands.now) }
{
    let mut program = program;
    for command in commands {
        program = with_command(alloc, program, command)?;
    }
    Ok(program)
}

/// A program with this command behind those that it has.
fn with_command<'a>(
    alloc: Global,
    program: Command<'a>,
    command: &KnownCommand,
) -> Result<Command<'a>, AllocError>
    ensures { IfOk result (λ c. app_of c ≡ with_subcommand (app_of program.entry) (shape_of_command command.now)) }
{
    program.subcommand(command_of(alloc, command)?)
}

/// The command as a part of the program.
fn command_of<'a>(alloc: Global, command: &KnownCommand) -> Result<Command<'a>, AllocError>
    ensures shape { IfOk result (λ c. shape_of c ≡ shape_of_command command.now) }
    ensures local { IfOk result (λ c. (fields_of c).has_globals ≡ false) }
{
    let bare = Command::new(alloc, command.name)
        .about(command.about)
        .after_help(command.after_help);
    with_words(alloc, bare, command.words)
}

/// A command with these words behind those that it has.
fn with_words<'a>(
    alloc: Global,
    command: Command<'a>,
    words: &[KnownWord],
) -> Result<Command<'a>, AllocError>
    ensures words { IfOk result (λ c. app_of c ≡ with_words (app_of command.entry) words.now) }
    ensures local { (fields_of command.entry).has_globals ≡ false → IfOk result (λ c. (fields_of c).has_globals ≡ false) }
{
    let mut command = command;
    for word in words {
        command = command.arg(word.arg(alloc))?;
    }
    Ok(command)
}

/// The program without commands. The usage lines of its commands begin with its name.
fn bare<'a>(alloc: Global) -> Result<Command<'a>, AllocError>
    ensures { IfOk result (λ c. app_of c ≡ own) }
{
    Command::new(alloc, "ctftrace")
        .version("0.1.0")
        .about(
            "Traces and reads Common Trace Format 1.8.3. Without words: traces the numbers of standard input, and reads them back.",
        )
        .after_help(STATUSES)
        .no_binary_name(true)
        .subcommand_required(true)
        .bin_name("ctftrace")
}

/// What the statuses say, below each help.
const STATUSES: &str =
    "Status: 0; 1 a fault in what was read; 2 a bad command line; 3 a file, a thread or memory failed";
