//! What a seat at a clock knows.

use crate::View;
use std::collections::LinkedList;

/// What a seat drew and may still draw, and, kept apart, the numbers that it heard of from other seats. It stands in proofs alone: no value of it
/// is made.
pub struct Known {
    pub view: View,
    pub heard: LinkedList<u64>,
}
