//! Numbers at any bit position of a byte slice, in both byte orders.
#![tactic(auto)]

mod get;
mod in_byte;
mod number_parts;
mod put;
mod whole_bytes;
mod word;
mod zero;

pub use get::get_bits;
pub use put::put_bits;
pub use whole_bytes::put_bytes;
pub use zero::zero_bits;
