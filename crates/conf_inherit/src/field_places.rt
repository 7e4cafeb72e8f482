//! Where a value stands in a configuration, as far as inheritance goes: which names and texts have a meaning there.
ghost use Rattle.std.specs.Prelude.{◌≡◌};
ghost use Rattle.conf_inherit.specs.FieldPlaces.{field_place, place_in_type, place_under, place_of_items, names_alias, names_member_type, names_type, is_base_name, lists_members, lists_extra_members, is_entry};

use conf_table::{Place, under};

/// The place of the property `name` of an object that stands here.
#[tactic(auto, unfolding(crate::specs::FieldPlaces::place_under))]
pub(crate) fn place_under(place: Place, name: &str) -> Place
    ensures { result ≡ place_under place name.now }
{
    match place {
        Place::FieldType | Place::Member => place_in_type(name),
        _ => under(place, name).map_or(Place::Ignored, field_place),
    }
}

/// What a place is to inheritance: a field type is one at whatever position, and what has none in it is ignored.
#[tactic(auto, unfolding(crate::specs::FieldPlaces::field_place))]
fn field_place(place: Place) -> Place
    ensures { result ≡ field_place place }
{
    match place {
        Place::StructureType
        | Place::MemberType
        | Place::ElementType
        | Place::DynamicElementType
        | Place::Feature
        | Place::SizeFeature
        | Place::MagicFeature
        | Place::IdentifierFeature => Place::FieldType,
        Place::Environment
        | Place::LogLevelAliases
        | Place::ClockTypes
        | Place::ClockType
        | Place::ClockOffset
        | Place::Mappings
        | Place::Ranges
        | Place::Range
        | Place::Scalar => Place::Ignored,
        _ => place,
    }
}

/// The place of the property `name` of an object at a field type, or of a member's value.
#[tactic(auto, unfolding(crate::specs::FieldPlaces::place_in_type, crate::specs::FieldPlaces::field_type_name, crate::specs::FieldPlaces::inherit_name))]
fn place_in_type(name: &str) -> Place
    ensures { result ≡ place_in_type name.now }
{
    match name {
        "members" => Place::Members,
        "field-type" | "element-field-type" | "$inherit" => Place::FieldType,
        _ => Place::Ignored,
    }
}

/// The place of the items of a list that stands here.
#[tactic(auto, unfolding(crate::specs::FieldPlaces::place_of_items))]
pub(crate) fn place_of_items(place: Place) -> Place
    ensures { result ≡ place_of_items place }
{
    match place {
        Place::Members | Place::ExtraMembers => Place::Entry,
        _ => Place::Ignored,
    }
}

/// Whether a text that stands here is the name of an alias.
#[tactic(auto, unfolding(crate::specs::FieldPlaces::names_alias))]
pub(crate) fn names_alias(place: Place) -> bool
    ensures { result ≡ names_alias place }
{
    matches!(place, Place::FieldType)
}

/// Whether a text that stands here is the name of the alias that a member's `field-type` has.
#[tactic(auto, unfolding(crate::specs::FieldPlaces::names_member_type))]
pub(crate) fn names_member_type(place: Place) -> bool
    ensures { result ≡ names_member_type place }
{
    matches!(place, Place::Member)
}

/// Whether a text that stands here is the name of an alias in either way.
pub(crate) fn names_type(place: Place) -> bool
    ensures { result ≡ names_type place }
{
    names_alias(place) || names_member_type(place)
}

/// Whether a list that stands here is a members list.
#[tactic(auto, unfolding(crate::specs::FieldPlaces::lists_members))]
pub(crate) fn lists_members(place: Place) -> bool
    ensures { result ≡ lists_members place }
{
    matches!(place, Place::Members | Place::ExtraMembers)
}

/// Whether a list that stands here has the extra members of a packet context.
#[tactic(auto, unfolding(crate::specs::FieldPlaces::lists_extra_members))]
pub(crate) fn lists_extra_members(place: Place) -> bool
    ensures { result ≡ lists_extra_members place }
{
    matches!(place, Place::ExtraMembers)
}

/// Whether an object that stands here is an entry of a members list.
#[tactic(auto, unfolding(crate::specs::FieldPlaces::is_entry))]
pub(crate) fn is_entry(place: Place) -> bool
    ensures { result ≡ is_entry place }
{
    matches!(place, Place::Entry)
}

/// Whether the property `name` of an object that stands here is what the object inherits from.
#[tactic(auto, unfolding(crate::specs::FieldPlaces::is_base_name, crate::specs::FieldPlaces::inherit_name))]
pub(crate) fn is_base_name(place: Place, name: &str) -> bool
    ensures { result ≡ is_base_name place name.now }
{
    matches!(place, Place::FieldType | Place::Member) && name == "$inherit"
}
