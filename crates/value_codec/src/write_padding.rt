//! The zero bits up to the place where the next field may begin (CTF 1.8.3, section 4.1.2, "align").

ghost use Rattle.std.specs.Prelude.{◌≡◌, ◌^◌, ◌<◌};
ghost use Rattle.ctf_types.specs.Alignment.{up, IsAlignment};
ghost use Rattle.value_codec.specs.Writing.{Writes, HasRoom};

use bit_codec::zero_bits;
use ctf_types::ByteOrder;

/// Sets every bit from `at` up to the next multiple of `align` to 0, and answers that multiple. Positions and alignments are in bits.
pub(crate) fn write_padding(bytes: &mut [u8], at: u64, order: ByteOrder, align: u32) -> u64
    requires align { IsAlignment align }
    requires room { HasRoom bytes.old (up at align) }
    ensures ends { result ≡ up at align }
    ensures writes { Writes order (λ b pad. pad at result) at result bytes.old bytes.new }
{
    let start = aligned(at, align);
    zero_bits(bytes, at, start, order);
    start
}

/// The least multiple of an alignment that is not below a position, both in bits. An alignment is a power of two, so a mask finds it.
pub(crate) fn aligned(at: u64, align: u32) -> u64
    requires align { IsAlignment align }
    requires position { up at align < 2 ^ 64 }
    ensures { result ≡ up at align }
{
    let align = u64::from(align);
    let past = at & (align - 1);
    if past == 0 { at } else { at - past + align }
}
