//! Reads a TSDL metadata text into the metadata that it denotes, and says in words why one denotes none.
#![tactic(auto)]

mod cut;
mod laws;
mod meaning;
mod place;
mod read;
mod token_words;
mod unexpected;
mod unexpected_word;
mod words;

pub use laws::denoted_is_unique;
pub use read::read_metadata;
pub use words::explain_fault;
