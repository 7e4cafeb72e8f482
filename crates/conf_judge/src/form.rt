//! What kind of value stands at a place that holds others.
ghost use Rattle.std.specs.Prelude.{◌≡◌, ◌≤◌, IfErr};
ghost use Rattle.serde_json.specs.View.{view};
ghost use Rattle.conf_tree.specs.Reading.{Gives};
ghost use Rattle.conf_judge.specs.Forms.{any_object, feature, form_of, one_member, size_feature, some_items, some_members};
ghost use Rattle.conf_judge.specs.Known.{known_of};

use crate::around::Around;
use crate::leaf::check_that;
use crate::numbers::check_range;
use conf_table::Place;
use conf_tree::{At, ConfFault, FaultKind, list, object};
use serde_json::Value;
use std::alloc::Global;

#[tactic(auto, unfolding(crate::specs::Forms::form_of))]
pub(crate) fn check_form(
    alloc: Global,
    around: &Around<'_>,
    place: Place,
    value: &Value,
) -> Result<(), ConfFault>
    ensures { Gives (λ _. tt) result (form_of (known_of around.now) place (view value.now)) }
{
    match place {
        Place::Members | Place::ExtraMembers => list(alloc, At::Here, value).map(|_| ()),
        Place::Ranges => check_ranges(alloc, value),
        Place::Range => check_range(alloc, around.numbers, value),
        Place::Entry => check_entry(alloc, value),
        Place::Mappings => check_mappings(alloc, value),
        Place::Feature | Place::MagicFeature | Place::IdentifierFeature => {
            check_feature(alloc, value)
        }
        Place::SizeFeature => check_size_feature(alloc, value),
        Place::Scalar | Place::Ignored => Ok(()),
        _ => check_any_object(alloc, value),
    }
}

/// A list has one item at least.
#[tactic(auto, using(crate::proofs::Sizes::items_counted))]
fn check_ranges(alloc: Global, value: &Value) -> Result<(), ConfFault>
    ensures { Gives (λ _. tt) result (some_items (view value.now)) }
{
    check_that(alloc, !list(alloc, At::Here, value)?.is_empty())
}

/// An entry has just one property.
#[tactic(auto, using(crate::proofs::Sizes::members_counted))]
fn check_entry(alloc: Global, value: &Value) -> Result<(), ConfFault>
    ensures { Gives (λ _. tt) result (one_member (view value.now)) }
{
    if object(alloc, At::Here, value)?.len() == 1 {
        Ok(())
    } else {
        Err(ConfFault::here(alloc, FaultKind::WrongKind))
    }
}

/// An object has one property at least.
#[tactic(auto, using(crate::proofs::Sizes::members_counted))]
fn check_mappings(alloc: Global, value: &Value) -> Result<(), ConfFault>
    ensures { Gives (λ _. tt) result (some_members (view value.now)) }
{
    check_that(alloc, !object(alloc, At::Here, value)?.is_empty())
}

/// A feature is on, off, or a type of its own.
#[tactic(auto, unfolding(crate::specs::Forms::feature))]
fn check_feature(alloc: Global, value: &Value) -> Result<(), ConfFault>
    ensures { Gives (λ _. tt) result (feature (view value.now)) }
{
    match value {
        Value::Bool(_) => Ok(()),
        _ => check_any_object(alloc, value),
    }
}

/// A feature without which a packet cannot do is on, or a type of its own.
#[tactic(auto, unfolding(crate::specs::Forms::size_feature))]
fn check_size_feature(alloc: Global, value: &Value) -> Result<(), ConfFault>
    ensures { Gives (λ _. tt) result (size_feature (view value.now)) }
{
    match value {
        Value::Bool(on) => check_that(alloc, *on),
        _ => check_any_object(alloc, value),
    }
}

#[tactic(auto, unfolding(crate::specs::Forms::any_object))]
fn check_any_object(alloc: Global, value: &Value) -> Result<(), ConfFault>
    ensures { Gives (λ _. tt) result (any_object (view value.now)) }
{
    object(alloc, At::Here, value).map(|_| ())
}
