//! Where a field begins that is read: at the next multiple of its alignment (CTF 1.8.3, section 4.1.2, "align").

ghost use Rattle.std.specs.Prelude.{◌≡◌, ◌≤◌, IfOk};
ghost use Rattle.ctf_types.specs.Alignment.{IsAlignment};
ghost use Rattle.value_codec.specs.Reading.{start_at, members_begin};

use crate::ReadFault;
use ctf_types::{StructType, align_of};

/// The first multiple of the alignment that is not below `at`. Positions and alignment are in bits.
/// `PastEnd` where that is past `limit`. An alignment is a power of two, so a mask finds how far past a multiple `at` is: every field that is
/// read asks, and a division of 64 bits takes tens of cycles.
#[inline]
pub(crate) fn aligned_start(at: u64, limit: u64, align: u32) -> Result<u64, ReadFault>
    requires align { IsAlignment align }
    requires ordered { at ≤ limit }
    ensures start { result ≡ start_at limit align at }
    ensures within { IfOk result (λ start. start ≤ limit) }
{
    let align = u64::from(align);
    let rest = at & (align - 1);
    if rest == 0 {
        return Ok(at);
    }
    let gap = align - rest;
    if gap > limit - at {
        return Err(ReadFault::PastEnd);
    }
    Ok(at + gap)
}

/// Where a structure's first member may begin, in bits from the packet's start: at the first multiple of the structure's alignment that is
/// not below `at`. A structure without members is not there, and aligns nothing. `PastEnd` where that is past `limit`, a position in bits too.
pub fn members_start(at: u64, limit: u64, s: &StructType) -> Result<u64, ReadFault>
    requires ordered { at ≤ limit }
    ensures start { result ≡ members_begin limit s.now.members s.now.min_align at }
    ensures within { IfOk result (λ start. start ≤ limit) }
{
    if s.members.is_empty() {
        return Ok(at);
    }
    aligned_start(at, limit, align_of(s))
}
