//! Writes the TSDL metadata text of a configuration.
#![tactic(auto)]

mod attributes;
mod blocks;
mod layout;
mod members;
mod metadata;
mod printer;
mod scopes;
mod types;

pub use metadata::write_metadata;
