//! Clock types.

ghost use Rattle.std.specs.Prelude.{◌≡◌, IfOk};

use plain_lists::{Duplicate, Text, copy_text};
use std::alloc::{AllocError, Global};
use uuid::Uuid;

/// A clock whose values timestamps carry (CTF 1.8.3, section 8; barectf 3.1, "Clock type object").
#[derive(Drop)]
pub struct ClockType {
    pub name: Text,
    pub uuid: Option<Uuid>,
    pub description: Option<Text>,
    /// In cycles a second, at least 1.
    pub frequency: u64,
    /// In cycles.
    pub precision: u64,
    /// The part of the offset from the origin that is whole seconds.
    pub offset_seconds: i64,
    /// The rest of the offset, in cycles.
    pub offset_cycles: u64,
    /// Whether the origin is the Unix epoch.
    pub absolute: bool,
}

impl Duplicate for ClockType {
    fn copy(&self, alloc: Global) -> Result<ClockType, AllocError> {
        Ok(ClockType {
            name: self.name.copy(alloc)?,
            uuid: self.uuid,
            description: copy_text(&self.description, alloc)?,
            frequency: self.frequency,
            precision: self.precision,
            offset_seconds: self.offset_seconds,
            offset_cycles: self.offset_cycles,
            absolute: self.absolute,
        })
    }
}
