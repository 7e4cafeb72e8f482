//! The limits that only a configuration has. They are this project's own.

/// The most levels of objects and lists in one another: of a text, of a resolved field type, and of the whole resolved
/// configuration.
pub const MAX_LEVELS: usize = 32;

/// The most JSON values of a field type with what it inherits, and of the value that a `$inherit` leads to.
pub const MAX_VALUES: usize = 4096;

/// The most field type aliases, and the most log level aliases.
pub const MAX_ALIASES: usize = 1024;
