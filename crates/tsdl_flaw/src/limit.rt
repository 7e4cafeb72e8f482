//! The limits that a metadata text may pass.

ghost use Rattle.std.specs.Prelude.{◌≡◌, IfOk, string_bytes};
ghost use Rattle.tsdl_flaw.specs.FlawWords.{limit_words};

use ctf_types::{
    LARGEST_ALIGN, MAX_ARRAYS, MAX_ELEMENTS, MAX_ENVIRONMENT, MAX_MEMBERS, MAX_RANGES,
};
use std::alloc::{AllocError, Global};

/// What is limited.
#[derive(Clone, Copy, Debug)]
pub enum Limit {
    /// The members of a structure.
    Members,
    /// The ranges of an enumeration.
    Ranges,
    /// The names of an environment.
    Environment,
    /// The alignment of a field or a structure.
    Alignment,
    /// Arrays in one another.
    Arrays,
    /// The elements of arrays in one another.
    Elements,
    /// The elements of a sequence, which have bits.
    SequenceElements,
}

impl Limit {
    /// What the limit allows, in words.
    pub fn words(self, alloc: Global) -> Result<String, AllocError>
        ensures { IfOk result (λ said. string_bytes said ≡ limit_words self) }
    {
        match self {
            Limit::Members => format!(in alloc; "at most {MAX_MEMBERS} members"),
            Limit::Ranges => format!(in alloc; "at most {MAX_RANGES} ranges"),
            Limit::Environment => format!(in alloc; "at most {MAX_ENVIRONMENT} names"),
            Limit::Alignment => format!(in alloc; "an alignment of at most {LARGEST_ALIGN} bits"),
            Limit::Arrays => format!(in alloc; "at most {MAX_ARRAYS} arrays in one another"),
            Limit::Elements => format!(in alloc; "at most {MAX_ELEMENTS} elements"),
            Limit::SequenceElements => String::from_str(alloc, "a sequence of elements with bits"),
        }
    }
}
