//! The types of a structure's members.

ghost use Rattle.std.specs.Prelude.{◌≡◌, IfOk};

use crate::FieldType;
use plain_lists::Duplicate;
use std::alloc::{AllocError, Global};

/// Where the length of a dynamic array is.
#[derive(Clone, Copy, Debug, PartialEq, Eq)]
pub enum Length {
    /// In a member of its own that stands before the array and is not listed: `__x_len` for an array `x`, unsigned, 32 bits, alignment 8.
    /// A configuration has this form.
    Auto,
    /// In the member at this index, which stands before the array. Metadata has this form.
    At(usize),
}

/// The type of a structure's member.
#[derive(Debug, Drop)]
pub enum MemberType {
    Plain(FieldType),
    /// A dynamic array of elements of this type, as many as its length says (CTF 1.8.3, section 4.2.4, "Sequences").
    Dyn(FieldType, Length),
}

impl Duplicate for MemberType {
    fn copy(&self, alloc: Global) -> Result<MemberType, AllocError> {
        match self {
            MemberType::Plain(field) => Ok(MemberType::Plain(field.copy(alloc)?)),
            MemberType::Dyn(element, length) => Ok(MemberType::Dyn(element.copy(alloc)?, *length)),
        }
    }
}
