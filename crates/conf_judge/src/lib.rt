//! Judges the objects of a resolved configuration by the table of what they may hold.
#![tactic(auto)]

mod around;
mod form;
mod judge;
mod laws;
mod leaf;
mod limits;
mod names;
mod numbers;
mod places;
mod presence;
mod shape;

pub use judge::check_objects;
pub use laws::items_by_entries;
pub use limits::check_limits;
