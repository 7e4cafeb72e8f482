//! What was expected where a limit is passed.

ghost use Rattle.std.specs.Prelude.{◌≡◌, ◌++◌, OnOk, string_bytes};
ghost use Rattle.std.specs.Option.{option_and_then};
ghost use Rattle.conf_table.specs.Table.{entries_of};
ghost use Rattle.conf_fault.specs.Wanted.{limit_words, most_words, size_words};

use crate::expected::push_expected;
use crate::found::Found;
use conf_table::{Content, Place, entries};
use conf_tree::MAX_VALUES;
use ctf_types::{MAX_ARRAYS, MAX_CONFIG_RANGES, MAX_ELEMENTS, MAX_LABEL_BYTES};
use std::alloc::{AllocError, Global};

/// Adds what a value can hold at most.
#[tactic(auto, unfolding(crate::specs::Wanted::limit_words))]
pub(crate) fn push_limit(said: &mut String, found: &Found<'_>) -> Result<(), AllocError>
    ensures { OnOk result (string_bytes said.new ≡ string_bytes said.old ++ limit_words found.now.content found.now.position) }
{
    match found.content {
        Some(Content::At(place)) => push_most(said, found.source.alloc, place),
        _ => push_expected(said, found),
    }
}

fn push_most(said: &mut String, alloc: Global, place: Place) -> Result<(), AllocError>
    ensures { OnOk result (string_bytes said.new ≡ string_bytes said.old ++ most_words place (option_and_then (λ e. e.most) (entries_of place))) }
{
    match entries(place).and_then(|entries| entries.most) {
        Some(most) => said.push_str(format!(in alloc; "{most} entries at most")?.as_str()),
        None => push_size(said, alloc, place),
    }
}

/// Adds what a value can hold at most where the table sets no limit to its entries.
#[tactic(auto, unfolding(crate::specs::Wanted::size_words))]
fn push_size(said: &mut String, alloc: Global, place: Place) -> Result<(), AllocError>
    ensures { OnOk result (string_bytes said.new ≡ string_bytes said.old ++ size_words place) }
{
    match place {
        Place::Mappings => said.push_str(format!(in alloc;
            "at most {MAX_CONFIG_RANGES} ranges"
        )?.as_str()),
        Place::Ranges => said.push_str(format!(in alloc;
            "a label of at most {MAX_LABEL_BYTES} bytes"
        )?.as_str()),
        Place::MemberType | Place::DynamicElementType | Place::IdentifierFeature => said.push_str(
            format!(in alloc;
                "at most {MAX_ARRAYS} arrays in one another, {MAX_ELEMENTS} elements, and {MAX_VALUES} values with what is inherited"
            )?.as_str(),
        ),
        _ => said.push_str(format!(in alloc;
            "at most {MAX_VALUES} values with what is inherited"
        )?.as_str()),
    }
}
