//! What a field type is as a whole, once its properties are as they should be.
ghost use Rattle.std.specs.Prelude.{◌≡◌, ◌≤◌, IfErr, option_map};
ghost use Rattle.serde_json.specs.Data.{object};
ghost use Rattle.serde_json.specs.View.{view, members_view};
ghost use Rattle.conf_tree.specs.Reading.{Gives};
ghost use Rattle.conf_judge.specs.Shapes.{is_byte as is_byte_of, has_bits as has_bits_of, shape_of};

use crate::leaf::check_that;
use crate::numbers::natural_in;
use conf_table::{Place, class_of};
use conf_tree::{ConfFault, member, optional};
use conf_values::as_natural;
use serde_json::{Map, Value};
use std::alloc::Global;

/// Refuses a field type that cannot stand at this place, though its class can.
#[tactic(auto, unfolding(crate::specs::Shapes::shape_of, crate::specs::Shapes::is_identifier))]
pub(crate) fn check_shape(
    alloc: Global,
    place: Place,
    members: &Map<String, Value>,
) -> Result<(), ConfFault>
    ensures { Gives (λ _. tt) result (shape_of place (members_view members.now.entries)) }
{
    let fits = match place {
        Place::MagicFeature => natural_in(members, "size") == Some(32),
        Place::IdentifierFeature => {
            natural_in(members, "length") == Some(16)
                && is_byte(member(members, "element-field-type"))
        }
        Place::DynamicElementType => have_bits(members),
        _ => true,
    };
    check_that(alloc, fits)
}

/// Whether a field type is an unsigned integer of 8 bits with alignment 8.
fn is_byte(element: Option<&Value>) -> bool
    ensures { result ≡ is_byte_of (option_map (λ v. view v.now) element.entry) }
{
    match element {
        Some(Value::Object(members)) => {
            class_of(members) == Some(Place::UnsignedInteger)
                && natural_in(members, "size") == Some(8)
                && optional(members, "alignment").is_none_or(|bits| as_natural(bits) == Some(8))
        }
        _ => false,
    }
}

/// Whether a field type is no empty static array, nor one of such.
#[cycle(bits)]
fn have_bits(members: &Map<String, Value>) -> bool
    ensures { result ≡ has_bits_of (object (members_view members.now.entries)) }
{
    if class_of(members) != Some(Place::StaticArray) {
        return true;
    }
    if natural_in(members, "length") == Some(0) {
        return false;
    }
    for (name, element) in members.iter() {
        if name.as_str() == "element-field-type" {
            return has_bits(element);
        }
    }
    true
}

#[cycle(bits)]
fn has_bits(element: &Value) -> bool
    ensures { result ≡ has_bits_of (view element.now) }
{
    match element {
        Value::Object(members) => have_bits(members),
        _ => true,
    }
}
