//! A module a crate.

mod again;
mod bits;
mod clocks;
mod codec;
mod expected;
mod fixtures;
mod merging;
mod platform;
mod requests;
mod sink_faults;
mod telling;
mod traced;
mod types;
