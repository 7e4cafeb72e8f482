//! How many readings of a shared clock a worker may make.

ghost use Rattle.std.specs.Prelude.{◌<◌, ◌^◌};

/// So many readings, below 2^58, so that 64 workers together make fewer than 2^64.
#[derive(Clone, Copy, Debug)]
pub struct Quota {
    pub readings: u64,
    ghost few: { readings < 2 ^ 58 },
}
