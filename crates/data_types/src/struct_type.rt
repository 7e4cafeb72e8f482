//! Structure types.

ghost use Rattle.std.specs.Prelude.{◌≡◌, ◌↔◌, ◌<◌, ◌%◌, ℕ, IfOk, IfSome, IsSome};
ghost use Rattle.data_types.specs.Alignment.{IsAlignment};

use crate::Members;
use plain_lists::Duplicate;
use std::alloc::{AllocError, Global};

/// A structure: its members lie one after the other, from a position that is a multiple of its alignment (CTF 1.8.3, section 4.2.1).
///
/// The minimum alignment is in bits, a power of two up to 4,096. A structure without members is not there: it has no bits and aligns nothing.
#[derive(Drop)]
pub struct StructType {
    pub members: Members,
    pub min_align: u32,
    ghost positive: { 0 < min_align },
    ghost power_of_two: { 4096 % min_align ≡ 0 },
}

impl StructType {
    /// A structure type. None where the minimum alignment is no power of two up to 4,096 bits.
    pub fn new(members: Members, min_align: u32) -> Option<StructType>
        ensures accepted { IsSome result ↔ IsAlignment min_align }
        ensures members { IfSome result (λ s. s.members ≡ members) }
        ensures min_align { IfSome result (λ s. s.min_align ≡ min_align) }
    {
        if min_align == 0 || 4096 % min_align != 0 {
            return None;
        }
        Some(StructType { members, min_align })
    }
}

impl Duplicate for StructType {
    fn copy(&self, alloc: Global) -> Result<StructType, AllocError> {
        Ok(StructType {
            members: self.members.copy(alloc)?,
            min_align: self.min_align,
        })
    }
}
