//! The values of an object's properties. A property that is left out, or null, or of another kind, has none.
ghost use Rattle.std.specs.Prelude.{◌≡◌, IfOk, option_map};
ghost use Rattle.serde_json.specs.Data.{no_members};
ghost use Rattle.serde_json.specs.View.{items_view, members_view};
ghost use Rattle.conf_draft.specs.Alignments.{alignment as alignment_in};
ghost use Rattle.conf_draft.specs.Lookups.{natural as natural_in, word as word_in, object as object_in, properties, list as list_in};

use conf_tree::optional;
use conf_values::as_natural;
use ctf_types::{LARGEST_ALIGN, Text};
use serde_json::{Map, Value};
use std::alloc::{AllocError, Global};

/// The whole number from 0 to 2^64 - 1 that the property `name` is.
#[tactic(auto, unfolding(crate::specs::Lookups::natural))]
pub(crate) fn natural(members: &Map<String, Value>, name: &str) -> Option<u64>
    ensures { result ≡ natural_in name.now (members_view members.now.entries) }
{
    as_natural(optional(members, name)?)
}

/// The alignment in bits that the property `name` is: a power of two up to `LARGEST_ALIGN`. One that no field can have counts as left
/// out: it is told as a limit later, so no configuration that is accepted has one.
#[tactic(auto, unfolding(crate::specs::Alignments::alignment))]
pub(crate) fn alignment(members: &Map<String, Value>, name: &str) -> Option<u64>
    ensures { result ≡ alignment_in name.now (members_view members.now.entries) }
{
    natural(members, name).filter(|bits| *bits > 0 && LARGEST_ALIGN % *bits == 0)
}

/// The text that the property `name` is.
#[tactic(auto, unfolding(crate::specs::Lookups::word))]
pub(crate) fn word<'v>(members: &'v Map<String, Value>, name: &str) -> Option<&'v str>
    ensures { option_map (λ s. s.now) result ≡ word_in name.now (members_view members.now.entries) }
{
    optional(members, name)?.as_str()
}

/// The object that the property `name` is.
#[tactic(auto, unfolding(crate::specs::Lookups::object))]
pub(crate) fn object<'v>(
    members: &'v Map<String, Value>,
    name: &str,
) -> Option<&'v Map<String, Value>>
    ensures { option_map (λ m. members_view m.now.entries) result ≡ object_in name.now (members_view members.now.entries) }
{
    optional(members, name)?.as_object()
}

/// The object that the property `name` is. Left out, it is this empty one.
#[tactic(auto, unfolding(crate::specs::Lookups::properties))]
pub(crate) fn object_or<'v>(
    members: &'v Map<String, Value>,
    name: &str,
    empty: &'v Map<String, Value>,
) -> &'v Map<String, Value>
    requires { members_view empty.now.entries ≡ no_members }
    ensures { members_view result.now.entries ≡ properties name.now (members_view members.now.entries) }
{
    object(members, name).unwrap_or(empty)
}

/// The items of the list that the property `name` is.
#[tactic(auto, unfolding(crate::specs::Lookups::list))]
pub(crate) fn list<'v>(members: &'v Map<String, Value>, name: &str) -> Option<&'v Vec<Value>>
    ensures { option_map (λ v. items_view v.now.items) result ≡ list_in name.now (members_view members.now.entries) }
{
    optional(members, name)?.as_array()
}

/// A copy of the text that the property `name` is.
pub(crate) fn text(
    alloc: Global,
    members: &Map<String, Value>,
    name: &str,
) -> Result<Option<Text>, AllocError>
    ensures { IfOk result (λ t. t ≡ word_in name.now (members_view members.now.entries)) }
{
    match word(members, name) {
        Some(word) => Ok(Some(Text::from_str(alloc, word)?)),
        None => Ok(None),
    }
}
