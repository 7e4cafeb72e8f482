//! Look-ups in the table: the rows of an object, what a map or a list holds, and where a property leads.
ghost use Rattle.std.specs.Prelude.{◌≡◌, map, option_map};
ghost use Rattle.conf_table.specs.Table.{rows_of, told_of, entries_of, row_in, has_property as has_property_of, under_of, content_under, presence_under, place_in};

use crate::{Content, Entries, Keys, Place, Presence, Row, field_types, maps, objects};

/// The rows of an object. A map, a list, a number or a text has none.
#[tactic(auto, unfolding(crate::specs::Table::rows_of))]
pub fn rows(place: Place) -> &'static [Row]
    ensures { map told_of result.now ≡ rows_of place }
{
    match place {
        Place::Root => &objects::ROOT,
        Place::Trace => &objects::TRACE,
        Place::TraceType => &objects::TRACE_TYPE,
        Place::TraceFeatures => &objects::TRACE_FEATURES,
        Place::ClockType => &objects::CLOCK_TYPE,
        Place::ClockOffset => &objects::CLOCK_OFFSET,
        Place::StreamType => &objects::STREAM_TYPE,
        Place::StreamFeatures => &objects::STREAM_FEATURES,
        Place::PacketFeatures => &objects::PACKET_FEATURES,
        Place::EventRecordFeatures => &objects::EVENT_RECORD_FEATURES,
        Place::EventType => &objects::EVENT_TYPE,
        Place::Member => &field_types::MEMBER,
        Place::FieldType
        | Place::StructureType
        | Place::MemberType
        | Place::ElementType
        | Place::DynamicElementType
        | Place::Feature
        | Place::SizeFeature
        | Place::MagicFeature
        | Place::IdentifierFeature => &field_types::FIELD_TYPE,
        Place::UnsignedInteger | Place::SignedInteger => &field_types::INTEGER,
        Place::UnsignedEnumeration | Place::SignedEnumeration => &field_types::ENUMERATION,
        Place::Str => &field_types::STR,
        Place::StaticArray => &field_types::STATIC_ARRAY,
        Place::DynamicArray => &field_types::DYNAMIC_ARRAY,
        Place::Structure => &field_types::STRUCTURE,
        Place::Environment
        | Place::FieldTypeAliases
        | Place::LogLevelAliases
        | Place::ClockTypes
        | Place::StreamTypes
        | Place::EventTypes
        | Place::Entry
        | Place::Mappings
        | Place::ExtraMembers
        | Place::Members
        | Place::Ranges
        | Place::Range
        | Place::Scalar
        | Place::Ignored => &[],
    }
}

/// What a map or a list holds. No other place holds entries.
#[tactic(auto, unfolding(crate::specs::Table::entries_of))]
pub fn entries_at(place: Place) -> Option<&'static Entries>
    ensures { option_map (λ e. e.now) result ≡ entries_of place }
{
    match place {
        Place::Environment => Some(&maps::ENVIRONMENT),
        Place::FieldTypeAliases => Some(&maps::FIELD_TYPE_ALIASES),
        Place::LogLevelAliases => Some(&maps::LOG_LEVEL_ALIASES),
        Place::ClockTypes => Some(&maps::CLOCK_TYPES),
        Place::StreamTypes => Some(&maps::STREAM_TYPES),
        Place::EventTypes => Some(&maps::EVENT_TYPES),
        Place::Entry => Some(&maps::ENTRY),
        Place::Mappings => Some(&maps::MAPPINGS),
        Place::ExtraMembers => Some(&maps::EXTRA_MEMBERS),
        Place::Members => Some(&maps::MEMBERS),
        Place::Ranges => Some(&maps::RANGES),
        Place::Range => Some(&maps::RANGE),
        _ => None,
    }
}

/// A copy of what a map or a list holds.
pub fn entries(place: Place) -> Option<Entries>
    ensures { result ≡ entries_of place }
{
    entries_at(place).copied()
}

/// What the value of the property `name` is, where there is one: by its row, or as each entry of a map.
#[tactic(auto, unfolding(crate::specs::Table::content_under))]
pub fn content_at(place: Place, name: &str) -> Option<&'static Content>
    ensures { option_map (λ c. c.now) result ≡ content_under place name.now }
{
    if place == Place::Ignored {
        return Some(&Content::Anything);
    }
    match entries_at(place) {
        Some(entries) => (entries.keys != Keys::Index).then_some(&entries.content),
        None => row_in(rows(place), name).map(|row| &row.2),
    }
}

/// A copy of what the value of the property `name` is.
pub fn content(place: Place, name: &str) -> Option<Content>
    ensures { result ≡ content_under place name.now }
{
    content_at(place, name).copied()
}

/// The row of a name.
fn row_in(rows: &'static [Row], name: &str) -> Option<&'static Row>
    ensures { option_map (λ r. told_of r.now) result ≡ row_in name.now (map told_of rows.now) }
{
    for row in rows {
        if row.0 == name {
            return Some(row);
        }
    }
    None
}

/// Whether the property `name` of an object has to be there, where a row has the name.
#[tactic(auto, unfolding(crate::specs::Table::presence_under))]
pub fn presence(place: Place, name: &str) -> Option<Presence>
    ensures { result ≡ presence_under place name.now }
{
    row_in(rows(place), name).map(|row| row.1)
}

/// Whether an object of a resolved configuration can have the property `name`.
#[tactic(auto, unfolding(crate::specs::Table::has_property, crate::specs::Table::presence_under))]
pub fn has_property(place: Place, name: &str) -> bool
    ensures { result ≡ has_property_of place name.now }
{
    presence(place, name).is_some_and(|presence| presence != Presence::UntilResolved)
}

/// The place of the property `name`. None is an unknown property.
pub fn under(place: Place, name: &str) -> Option<Place>
    ensures { result ≡ under_of place name.now }
{
    content(place, name).map(Content::place)
}

impl Content {
    /// The place that a value of this content is.
    #[tactic(auto, unfolding(crate::specs::Table::place_in))]
    pub fn place(self) -> Place
        ensures { result ≡ place_in self }
    {
        match self {
            Content::At(place) => place,
            Content::Anything => Place::Ignored,
            Content::Whole { .. }
            | Content::PowerOfTwo { .. }
            | Content::Flag
            | Content::OneFlag
            | Content::Text { .. }
            | Content::ClockName
            | Content::Identifier
            | Content::IdentifierOrAuto
            | Content::Word(_)
            | Content::Class
            | Content::WholeOrText { .. }
            | Content::Level { .. } => Place::Scalar,
        }
    }
}
