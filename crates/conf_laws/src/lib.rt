//! Laws of a resolved configuration: what a walk over its objects tells of, and what it says where that is no flaw.
#![tactic(auto)]

mod law;

pub use law::{
    alignments_are_kept, each_flaw_is_one, each_limit_is_passed, first_flaw_is_first,
    first_limit_is_first, first_tree_flaw_is_first, no_flaw_is_left, no_limit_is_passed,
    no_tree_flaw_is_left, sound_drafts_are_allowed, sound_trees_say_something,
};
