//! Parses the tokens of a TSDL metadata text into the blocks that they spell, or tells where they halt spelling any.
#![tactic(auto)]

mod attribute;
mod block;
mod enumeration;
mod expected;
mod halt;
mod keyword;
mod laws;
mod member;
mod parsing;
mod repetition;
mod room;

pub use block::parse;
pub use expected::Expected;
pub use halt::{Halt, Missing, Unread};
pub use keyword::first_unread;
pub use laws::blocks_are_unique;
