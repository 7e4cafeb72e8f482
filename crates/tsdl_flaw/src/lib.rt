//! What is wrong at an atom of a TSDL metadata text, and how many atoms spell a tree.
#![tactic(auto)]

mod flaw;
mod limit;
mod spelled;

pub use flaw::{CONVERTED, Fault, Flaw, Numbered, Orphan, Remedy, Sizeless, Stop, dotted};
pub use limit::Limit;
pub use spelled::Spelled;
