//! Where the properties of an object and the items of a list lead: those of a field type by its class, which has to be one that
//! can stand at its place.
ghost use Rattle.std.specs.Prelude.{◌≡◌, IfOk};
ghost use Rattle.serde_json.specs.View.{members_view};
ghost use Rattle.conf_tree.specs.Reading.{Gives};
ghost use Rattle.conf_judge.specs.Flaws.{class_rule};
ghost use Rattle.conf_judge.specs.Places.{item_content as item_content_of, is_position as is_position_of, place_of_properties as place_of_properties_of};

use conf_table::{Content, Place, class_of, class_place};
use conf_tree::{At, ConfFault, FaultKind, needed, text};
use serde_json::{Map, Value};
use std::alloc::Global;

/// What each item of a list at this place is.
#[tactic(auto, unfolding(crate::specs::Places::item_content))]
pub(crate) fn item_content(place: Place) -> Content
    ensures { result ≡ item_content_of place }
{
    match place {
        Place::Members | Place::ExtraMembers => Content::At(Place::Entry),
        Place::Ranges => Content::At(Place::Range),
        _ => Content::Anything,
    }
}

/// The place whose properties an object at a place has: of a field type, that of its class. An alias is judged where it is used,
/// and what is no object has none.
#[tactic(auto, unfolding(crate::specs::Places::place_of_properties, crate::specs::Places::own_place))]
pub(crate) fn place_of_properties(place: Place, members: &Map<String, Value>) -> Place
    ensures { result ≡ place_of_properties_of place (members_view members.now.entries) }
{
    if is_position(place) {
        return class_of(members).unwrap_or(Place::Ignored);
    }
    match place {
        Place::FieldType
        | Place::Members
        | Place::ExtraMembers
        | Place::Ranges
        | Place::Range
        | Place::Scalar => Place::Ignored,
        _ => place,
    }
}

/// Whether field types stand at a place, whose class says what properties they have.
#[tactic(auto, unfolding(crate::specs::Places::is_position))]
pub(crate) fn is_position(place: Place) -> bool
    ensures { result ≡ is_position_of place }
{
    matches!(
        place,
        Place::StructureType
            | Place::MemberType
            | Place::ElementType
            | Place::DynamicElementType
            | Place::Feature
            | Place::SizeFeature
            | Place::MagicFeature
            | Place::IdentifierFeature
    )
}

/// The place whose properties an object has. Refuses a field type without a class, or of one that cannot stand at this place.
#[tactic(auto, unfolding(crate::specs::Flaws::class_rule, crate::specs::Flaws::other_class, conf_table::specs::Classes::class_of, crate::specs::Places::place_of_properties))]
pub(crate) fn classed_place(
    alloc: Global,
    place: Place,
    members: &Map<String, Value>,
) -> Result<Place, ConfFault>
    ensures refused { Gives (λ _. tt) result (class_rule place (members_view members.now.entries)) }
    ensures own { IfOk result (λ own. own ≡ place_of_properties_of place (members_view members.now.entries)) }
{
    if !is_position(place) {
        return Ok(place_of_properties(place, members));
    }
    let value = needed(alloc, members, "class")?;
    let word = text(alloc, At::Property("class"), value)?;
    match class_place(word) {
        Some(class) if place.admits(class) => Ok(class),
        Some(_) if place == Place::IdentifierFeature => {
            Err(ConfFault::here(alloc, FaultKind::OutOfRange))
        }
        Some(_) => Err(ConfFault::here(alloc, FaultKind::WrongKind)),
        None => Err(At::Property("class").fault(alloc, FaultKind::OutOfRange)),
    }
}
