//! Bytes at a whole byte (CTF 1.8.3, section 4.2.5): the same ones in both byte orders.

ghost use Rattle.std.specs.Prelude.{◌≡◌, ℕ, ◌+◌, ◌*◌, ◌%◌, ◌<◌, ◌≤◌, length, slice_index};
ghost use Rattle.ctf_types.specs.declared.ByteOrder.{ByteOrder};
ghost use Rattle.ctf_types.specs.Bits.{bit_of, number_at, SameOutside};

/// Writes bytes one after the other from the bit position `at` on, a multiple of 8, by one copy; every other bit stays.
///
/// Each byte is a number of 8 bits at its place, the same one in both orders: so a string or an identifier is written.
pub fn put_bytes(bytes: &mut [u8], at: u64, text: &[u8])
    requires aligned { at % 8 ≡ 0 }
    requires within { at + 8 * length text.now ≤ 8 * length bytes.old }
    ensures each { (o : ByteOrder) (k : ℕ) → k < length text.now
        → number_at o (bit_of o bytes.new) (at + 8 * k) 8 ≡ slice_index text.now k }
    ensures others { (o : ByteOrder) → SameOutside (bit_of o bytes.new) (bit_of o bytes.old) at (at + 8 * length text.now) }
{
    let index = (at / 8) as usize;
    bytes[index..index + text.len()].copy_from_slice(text);
}
