//! Judges the trees of a metadata text that has no meaning: finds the first flaw in the order of the text.

mod attribute;
mod block;
mod brackets;
mod clock_words;
mod kind;
mod ledger;
mod names;
mod sizes;
mod structure;
mod survey;
mod text;
mod value;

pub use survey::Survey;
pub(crate) use survey::survey_of_blocks;
pub use text::first_flaw;
