//! Small configurations by the object that they show, aliases and trees, each with what is said of it.
//!
//! A line has a text, ` -> `, and the path and the kind of its fault, or `accepted`. In the path `@` is the path of the text's place and `<event>` that of
//! the event record type. In a text `U8` is an unsigned integer of 8 bits, `ONE_BIT` one of 1 bit, `BYTE` a structure of one `U8`,
//! `EMPTY` an event record type without fields and `FULL` one with that structure. A line that begins with `#` is a comment.

pub mod aliases;
pub mod arrays;
pub mod clock_types;
pub mod clocked_streams;
pub mod data_stream_features;
pub mod data_stream_types;
pub mod enumerations;
pub mod environment;
pub mod events;
pub mod heirs;
pub mod identified;
pub mod inheritance;
pub mod integers;
pub mod limits;
pub mod places;
pub mod reserved_words;
pub mod structures;
pub mod trace_features;
pub mod trace_types;
pub mod trees;
pub mod whole_texts;
