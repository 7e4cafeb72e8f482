//! The parts of a number that lie one after the other (CTF 1.8.3, section 4.1.5): in little-endian order the first part
//! is the least significant one, in big-endian order the most significant one.

ghost use Rattle.std.specs.Prelude.{◌≡◌, ◌+◌, ◌^◌, ◌<◌, ◌≤◌};
ghost use Rattle.bit_codec.specs.Place.{joined, part_of};

use ctf_types::ByteOrder;

/// The `size` bits of a number of `n` bits that lie behind its first `from` bits.
#[inline(always)]
pub(crate) fn take_part(value: u64, n: u32, from: u32, size: u32, order: ByteOrder) -> u64
    requires within { from + size ≤ n }
    requires at_most_64 { n ≤ 64 }
    requires size { (0 < size) × (size < 64) }
    ensures part { result ≡ part_of order value n from size }
    ensures below { result < 2 ^ size }
{
    match order {
        ByteOrder::Little => (value >> from) % (1 << size),
        ByteOrder::Big => (value >> (n - from - size)) % (1 << size),
    }
}

/// The number whose first `m` bits are the number `front`, and whose last `n` are `back`.
#[inline(always)]
pub(crate) fn join(front: u64, m: u32, back: u64, n: u32, order: ByteOrder) -> u64
    requires at_most_64 { m + n ≤ 64 }
    requires sizes { (0 < m) × (0 < n) }
    requires front_fits { front < 2 ^ m }
    requires back_fits { back < 2 ^ n }
    ensures joined { result ≡ joined order m n front back }
    ensures below { result < 2 ^ (m + n) }
{
    match order {
        ByteOrder::Little => front | (back << m),
        ByteOrder::Big => (front << n) | back,
    }
}
