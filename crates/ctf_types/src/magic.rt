//! The magic number.

/// The number with which every packet begins, where its header has a `magic` (CTF 1.8.3, section 5.1).
pub const MAGIC: u64 = 0xc1fc_1fc1;
