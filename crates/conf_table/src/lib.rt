//! The table of what a configuration may hold: each place, its properties, and what each of them is.
#![tactic(auto)]

mod classes;
mod field_types;
mod laws;
mod maps;
mod objects;
mod place;
mod row;
mod table;
mod words;

pub use classes::{class_of, class_place, class_words};
pub use laws::{known_by_rows, one_row_a_name};
pub use place::Place;
pub use row::{Content, Entries, Keys, Presence, Row};
pub use table::{content, content_at, entries, entries_at, has_property, presence, rows, under};
pub use words::{Words, words_in};
