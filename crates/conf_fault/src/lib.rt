//! Says of a configuration's fault where it stands in the text, what stands there, and what the table expects.
#![tactic(auto)]

mod by_kind;
mod expected;
mod explanation;
mod found;
mod hints;
mod json_front;
mod layers;
mod line_column;
mod named;
mod not_json;
mod path;
mod shown;
mod sizes;
mod source;
mod stop;
mod written;

pub use explanation::explain_fault;
pub use line_column::LineColumn;
pub use not_json::json_place;
pub use shown::{on_one_line, push_cut};
