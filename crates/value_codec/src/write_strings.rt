//! Strings: their bytes and one zero byte (CTF 1.8.3, section 4.2.5).

ghost use Rattle.std.specs.Prelude.{◌≡◌, ◌+◌, ◌*◌, ◌<◌, All, length};
ghost use Rattle.ctf_types.specs.Alignment.{up};
ghost use Rattle.ctf_types.specs.Layout.{BytesLie};
ghost use Rattle.value_codec.specs.Writing.{Writes, HasRoom};

use crate::write_padding::write_padding;
use bit_codec::{put_bits, put_bytes};
use ctf_types::ByteOrder;

/// Writes a string at the next multiple of 8, and answers its end. Positions are in bits.
pub(crate) fn write_text(bytes: &mut [u8], at: u64, order: ByteOrder, text: &[u8]) -> u64
    requires no_zero { All (λ c. (0 < c) × (c < 256)) text.now }
    requires room { HasRoom bytes.old (up at 8 + 8 * (length text.now + 1)) }
    ensures ends { result ≡ up at 8 + 8 * (length text.now + 1) }
    ensures writes { Writes order
        (λ b pad. pad at (up at 8) × BytesLie order b pad (up at 8) text.now)
        at result bytes.old bytes.new }
{
    let start = write_padding(bytes, at, order, 8);
    put_bytes(bytes, start, text);
    let end = start + 8 * text.len() as u64;
    put_bits(bytes, end, 8, order, 0);
    end + 8
}
