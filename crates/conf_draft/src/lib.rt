//! Makes of a resolved configuration, whose objects have no flaw, what they say.
#![tactic(auto)]

mod clock_type;
mod defaults;
mod draft;
mod enumeration;
mod environment;
mod event_type;
mod features;
mod field_type;
mod integer;
mod laws;
mod lookup;
mod members;
mod stream_type;
mod structure;
mod trace;

pub use draft::Draft;
pub use laws::{integers_by_rows, sizes_by_rows};
pub use trace::draft_of;
