//! Reads the single values of a configuration's objects: names, numbers, texts and fixed words.
#![tactic(auto)]

mod name;
mod refusals;
mod scalar;
mod words;

pub use name::{check_name, check_plain_name};
pub use refusals::{kinds_refused, names_refused, numbers_refused};
pub use scalar::{as_natural, is_printable, parsed};
pub use words::{base_word, order_word, words_of_the_table};
