//! Enumeration field types.

ghost use Rattle.std.specs.Prelude.{◌≡◌, IfOk};

use crate::IntType;
use plain_lists::{Duplicate, ListOf, Text};
use std::alloc::{AllocError, Global};

/// A label and one range of numbers that it stands for, both ends included (CTF 1.8.3, section 4.1.8).
/// A label with several ranges has a mapping for each.
#[derive(Debug, Drop)]
pub struct Mapping {
    pub label: Text,
    pub low: i128,
    pub high: i128,
}

/// An enumeration: an integer whose numbers have labels. A number without a label is allowed, and ranges may overlap.
#[derive(Debug, Drop)]
pub struct EnumType {
    pub int: IntType,
    pub mappings: ListOf<Mapping>,
}

impl Duplicate for Mapping {
    fn copy(&self, alloc: Global) -> Result<Mapping, AllocError> {
        Ok(Mapping {
            label: self.label.copy(alloc)?,
            low: self.low,
            high: self.high,
        })
    }
}

impl Duplicate for EnumType {
    fn copy(&self, alloc: Global) -> Result<EnumType, AllocError> {
        Ok(EnumType {
            int: self.int.copy(alloc)?,
            mappings: self.mappings.copy(alloc)?,
        })
    }
}
