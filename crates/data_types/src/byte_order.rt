//! The byte order of a trace.

/// In which order the bytes of a number lie, and inside a byte its bits: one order for a whole trace
/// (CTF 1.8.3, section 4.1.3, "Byte order", and section 7, the attribute `byte_order`).
#[derive(Clone, Copy, Debug, PartialEq, Eq)]
pub enum ByteOrder {
    /// The first bit of a number is the least significant bit of its first byte.
    Little,
    /// The first bit of a number is the most significant bit of its first byte.
    Big,
}
