//! Drafts of the zero bits between fields.

ghost use Rattle.std.specs.Prelude.{◌≡◌, ◌≤◌};
ghost use Rattle.ctf_types.specs.Alignment.{up, IsAlignment};
ghost use Rattle.value_codec.specs.Drafting.{Drafts, IsWithin};

use crate::write_padding::{aligned, write_padding};
use ctf_types::ByteOrder;

/// Writes zero bits up to the next multiple of `align`, where it lies in the slice, and answers it.
pub(crate) fn draft_padding(bytes: &mut [u8], at: u64, order: ByteOrder, align: u32) -> Option<u64>
    requires align { IsAlignment align }
    requires within { IsWithin bytes.old at }
    ensures { Drafts order (Unit {0}) (up at align) (λ b pad. pad at (up at align)) at result bytes.old bytes.new }
{
    if aligned(at, align) > 8 * bytes.len() as u64 {
        return None;
    }
    Some(write_padding(bytes, at, order, align))
}
