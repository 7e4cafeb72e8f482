//! The environment of a trace.

ghost use Rattle.std.specs.Prelude.{◌≡◌, IfOk};

use plain_lists::{Duplicate, Text};
use std::alloc::{AllocError, Global};

/// What an environment entry holds.
#[derive(Debug, Drop)]
pub enum EnvironmentValue {
    Whole(i64),
    Text(Text),
}

/// A fact about the traced system, by name (CTF 1.8.3, section 7, the block `env`).
#[derive(Debug, Drop)]
pub struct EnvironmentEntry {
    pub name: Text,
    pub value: EnvironmentValue,
}

impl Duplicate for EnvironmentValue {
    fn copy(&self, alloc: Global) -> Result<EnvironmentValue, AllocError> {
        match self {
            EnvironmentValue::Whole(number) => Ok(EnvironmentValue::Whole(*number)),
            EnvironmentValue::Text(text) => Ok(EnvironmentValue::Text(text.copy(alloc)?)),
        }
    }
}

impl Duplicate for EnvironmentEntry {
    fn copy(&self, alloc: Global) -> Result<EnvironmentEntry, AllocError> {
        Ok(EnvironmentEntry {
            name: self.name.copy(alloc)?,
            value: self.value.copy(alloc)?,
        })
    }
}
