//! The display base of an integer.

/// The base in which a reader prints an integer (CTF 1.8.3, section 4.1.5, "Integers", the attribute `base`).
#[derive(Clone, Copy, Debug, PartialEq, Eq)]
pub enum Base {
    Bin,
    Oct,
    Dec,
    Hex,
}
