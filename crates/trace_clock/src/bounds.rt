//! Which numbers a clock gives.

/// The first number that a clock gives, and how many it gives in all.
#[derive(Clone, Copy, Debug, PartialEq, Eq)]
pub struct Bounds {
    pub start: u64,
    pub total: u64,
}
