//! Bytes, texts and lists that a contract sees as the lists they hold.
#![tactic(auto)]

mod bytes;
mod list_of;
mod parts;
mod text;

pub use bytes::Bytes;
pub use list_of::{Duplicate, ListOf};
pub use parts::both;
pub use text::{Text, copy_text};
