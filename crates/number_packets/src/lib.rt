//! The first path through all layers: numbers, one a line, are traced in packets of a small configuration, printed, and read back from those bytes alone.
#![tactic(auto)]

mod input;
mod lines;
mod numbers;
mod packets;
mod printed;
mod small_configuration;

pub use input::{InputFault, read_all};
pub use numbers::{Answer, answer_to_numbers, read_bytes};
pub use packets::trace_packet;
pub use small_configuration::{small_config, small_metadata};
