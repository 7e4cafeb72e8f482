//! What a seat did at a clock.

use std::collections::LinkedList;

/// The numbers that a seat drew, in their order, and how many it may still draw. It stands in proofs alone: no value of it is made.
pub struct View {
    pub drawn: LinkedList<u64>,
    pub quota: u64,
}
