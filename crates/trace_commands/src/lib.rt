//! The commands of the program, from the command that its words ask for to its answer and its exit status.
#![tactic(auto)]

mod answer;
mod answer_lines;
mod bad_value;
mod check_command;
mod end_lines;
mod failure;
mod fault_lines;
mod files;
mod first_command;
mod found_folder;
mod going_on;
mod judged;
mod line_answer;
mod metadata_command;
mod new_folder;
mod points;
mod progress;
mod read_command;
mod recording;
mod running;
mod script_entry;
mod script_form;
mod script_lines;
mod script_workers;
mod settling;
mod shared_clock;
mod trace_command;
mod trace_folder;
mod worker_lines;
mod workers_command;

pub use answer::{OUT_OF_MEMORY, fail};
pub use progress::{CountedFiles, Progress, Tally};
pub use running::run;
