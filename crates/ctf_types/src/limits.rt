//! The limits of a configuration and of a metadata text. The standard has none of them; they are this project's own.

/// The largest alignment of a field or a structure, in bits.
pub const LARGEST_ALIGN: u64 = 4096;

/// The most static arrays in one another.
pub const MAX_ARRAYS: usize = 8;

/// The most elements of static arrays in one another: the product of their lengths, of which a 0 counts as 1.
pub const MAX_ELEMENTS: u64 = 1_048_576;

/// The most entries of an environment.
pub const MAX_ENVIRONMENT: usize = 256;

/// The most members of a structure in a metadata text.
pub const MAX_MEMBERS: usize = 1024;

/// The most members of a structure in a configuration.
pub const MAX_CONFIG_MEMBERS: usize = 256;

/// The most ranges of an enumeration in a metadata text.
pub const MAX_RANGES: usize = 65_536;

/// The most ranges of an enumeration in a configuration.
pub const MAX_CONFIG_RANGES: usize = 1024;

/// The most clock types of a configuration.
pub const MAX_CLOCK_TYPES: usize = 64;

/// The most data stream types of a configuration.
pub const MAX_STREAM_TYPES: usize = 64;

/// The most event record types of a data stream type in a configuration.
pub const MAX_EVENT_TYPES: usize = 1024;

/// The most bytes of a name in a configuration, and of a stream's name.
pub const MAX_NAME_BYTES: usize = 255;

/// The most bytes of a text of a configuration that people read: of an environment entry, a description, or a label.
pub const MAX_TEXT_BYTES: u64 = 4096;

/// The most bytes of a label of an enumeration, which is such a text.
pub const MAX_LABEL_BYTES: u64 = MAX_TEXT_BYTES;
