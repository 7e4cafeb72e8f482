//! Lays the field types of a configuration over the types that they inherit from.
#![tactic(auto)]

mod alias_check;
mod entry_index;
mod field_places;
mod flaws;
mod law;
mod laying;
mod limits;
mod named;
mod nesting;
mod outcomes;
mod property;
mod resolution;
mod rounds;
mod size;

pub use law::{
    circle_is_refused, limit_is_passed, one_resolution, refusal_holds, resolution_exists,
    resolution_or_fault, resolutions_faultless, type_fits,
};
pub use resolution::resolve;
