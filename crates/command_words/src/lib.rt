//! The words of the program's command line: the command that they ask for with its parts, or what is wrong with them.
#![tactic(auto)]

mod command_line;
mod commands;
mod known_word;
mod line_fault;
mod program_words;
mod quota;
mod word_values;
mod worker_words;

pub use command_line::command;
pub use commands::{Command, MetadataCommand, ReadCommand, Resuming, TraceCommand};
pub use line_fault::LineFault;
pub use quota::Quota;
