//! One step of the path to a value of a configuration.

use crate::OneLine;
use std::fmt;

/// One step from a value to a value in it.
#[derive(Debug, Drop)]
pub enum Step {
    /// To the property of this name.
    Key(String),
    /// To the item at this place of a list, counted from 0.
    Index(usize),
}

/// A name on one line, an index in decimal digits.
impl fmt::Display for Step {
    ghost use Rattle.std.specs.Prelude.{Some};
    ghost use Rattle.conf_tree.specs.Flaw.{text_of_place, place_of};

    ghost output = { λ s. Some (text_of_place (place_of s)) };

    fn fmt<W: fmt::Write>(&self, f: &mut fmt::Formatter<W>) -> fmt::Result {
        match self {
            Step::Key(name) => write!(f, "{}", OneLine(name.as_str())),
            Step::Index(index) => write!(f, "{index}"),
        }
    }
}
