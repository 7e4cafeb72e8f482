//! Reads the JSON of a configuration into a tree, and looks values up in it with faults that say where they stand.
#![tactic(auto)]

mod at;
mod fault;
mod fault_kind;
mod limits;
mod lookup;
mod one_line;
mod path;
mod read;
mod step;
mod tree;
mod walk;

pub use at::At;
pub use fault::ConfFault;
pub use fault_kind::FaultKind;
pub use limits::{MAX_ALIASES, MAX_LEVELS, MAX_VALUES};
pub use lookup::{flag, list, member, needed, object, optional, text, whole};
pub use one_line::OneLine;
pub use path::Path;
pub use read::read_tree;
pub use step::Step;
pub use tree::Tree;
