//! Judges a resolved configuration tree by the rules over its whole, and makes the configuration of it.
#![tactic(auto)]

mod configuration;
mod judgement;
mod laws;
mod stream_rule;

pub use configuration::configure;
pub use judgement::check;
pub use laws::{
    configurations_by_rows, configurations_faultless, configurations_refused, rules_refused,
    texts_faultless,
};
