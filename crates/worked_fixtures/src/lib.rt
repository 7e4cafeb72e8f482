//! What the crates of worked rows share: configurations from their JSON, arguments and bytes as the rows say them, what is read in lines, and want of memory in its words.
#![tactic(auto)]

mod arguments;
mod configurations;
mod digits;
mod memory;
mod shown;
mod words;

pub use arguments::{Datum, payload, values};
pub use configurations::{
    CLOCKED, Changes, NARROW, SMALL, WITH_BITS, changed, config_of, configured, small,
};
pub use digits::bytes_of;
pub use memory::{configuration, granted};
pub use shown::shown_streams;
pub use words::{call_in_words, values_in_words};
