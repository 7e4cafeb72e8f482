//! Reads scripts: the streams of a session, and what they are to do; and prints traces that were read.
#![tactic(auto)]

mod file_counts;
mod file_turns;
mod names;
mod next_step;
mod open_file;
mod page_bytes;
mod printing;
mod printing_closing;
mod printing_fault;
mod printing_from;
mod printing_law;
mod printing_numbers;
mod printing_order;
mod printing_page;
mod printing_records;
mod printing_streams;
mod printing_texts;
mod printing_values;
mod reading_fault;
mod script;
mod script_bad_value;
mod script_event;
mod script_fault;
mod script_law;
mod script_lists;
mod script_object;
mod script_property;
mod script_reading;
mod script_stream;
mod script_value;
mod side_by_side;
mod stream_counts;

pub use names::names_fault;
pub use printing::print_trace;
pub use printing_fault::PrintFault;
pub use printing_from::{PrintedFile, print_trace_from};
pub use printing_law::one_printed_trace;
pub use reading_fault::ReadingFault;
pub use script::{Script, ScriptStream};
pub use script_bad_value::first_bad_value;
pub use script_fault::{ScriptFault, ScriptFaultKind};
pub use script_law::scripts_or_faults;
pub use script_lists::{FaultyList, faulty_list};
pub use script_object::{Presence, PropertyKind, ScriptObject, ScriptProperty};
pub use script_reading::read_script;
