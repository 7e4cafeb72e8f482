//! Bits that lie in one byte (CTF 1.8.3, section 4.1.5).

ghost use Rattle.std.specs.Prelude.{◌≡◌, ℕ, ◌+◌, ◌*◌, ◌%◌, ◌^◌, ◌<◌, ◌≤◌, length};
ghost use Rattle.std.specs.Int.{bit_at};
ghost use Rattle.ctf_types.specs.Bits.{bit_of, number_at, SameOutside};
ghost use Rattle.bit_codec.specs.Place.{lowest_place};

use ctf_types::ByteOrder;

/// Writes `value` as the `n` bits from the bit position `at` on, all in one byte; every other bit stays.
pub(crate) fn put_in_byte(bytes: &mut [u8], at: u64, n: u32, order: ByteOrder, value: u64)
    requires in_byte { at % 8 + n ≤ 8 }
    requires within { at < 8 * length bytes.old }
    requires fits { value < 2 ^ n }
    ensures number { number_at order (bit_of order bytes.new) at n ≡ value }
    ensures others { SameOutside (bit_of order bytes.new) (bit_of order bytes.old) at (at + n) }
{
    let index = (at / 8) as usize;
    bytes[index] = with_bits(bytes[index], lowest(at, n, order), n, value);
}

/// Reads the number that the `n` bits from the bit position `at` on are, all in one byte.
pub(crate) fn get_in_byte(bytes: &[u8], at: u64, n: u32, order: ByteOrder) -> u64
    requires in_byte { at % 8 + n ≤ 8 }
    requires within { at < 8 * length bytes.now }
    ensures number { result ≡ number_at order (bit_of order bytes.now) at n }
    ensures below { result < 2 ^ n }
{
    let byte = u64::from(bytes[(at / 8) as usize]);
    (byte >> lowest(at, n, order)) % (1 << n)
}

/// How many of the next `n` bits lie in the byte of the bit position `at`.
pub(crate) fn size_in_byte(at: u64, n: u32) -> u32
    requires { 0 < n }
    ensures some { 0 < result }
    ensures at_most { result ≤ n }
    ensures in_byte { at % 8 + result ≤ 8 }
{
    n.min(8 - (at % 8) as u32)
}

/// Which bit of its byte, counted from the least significant, is the least significant one of the `n` bits from the bit
/// position `at` on.
fn lowest(at: u64, n: u32, order: ByteOrder) -> u32
    requires { at % 8 + n ≤ 8 }
    ensures place { result ≡ lowest_place order at n }
    ensures in_byte { result + n ≤ 8 }
{
    let in_byte = (at % 8) as u32;
    match order {
        ByteOrder::Little => in_byte,
        ByteOrder::Big => 8 - in_byte - n,
    }
}

/// The byte with `value` as its `n` bits from the bit `lowest` on, counted from the least significant.
fn with_bits(byte: u8, lowest: u32, n: u32, value: u64) -> u8
    requires in_byte { lowest + n ≤ 8 }
    requires fits { value < 2 ^ n }
    ensures inside { (i : ℕ) → i < n → bit_at result (lowest + i) ≡ bit_at value i }
    ensures below { (i : ℕ) → i < lowest → bit_at result i ≡ bit_at byte i }
    ensures above { (i : ℕ) → lowest + n ≤ i → bit_at result i ≡ bit_at byte i }
{
    let byte = u64::from(byte);
    let high = byte >> (lowest + n);
    let low = byte % (1 << lowest);
    ((((high << n) + value) << lowest) + low) as u8
}
