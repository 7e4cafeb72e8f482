//! The classes of field types, and where each may stand.
ghost use Rattle.std.specs.Prelude.{◌≡◌, map};
ghost use Rattle.serde_json.specs.View.{members_view};
ghost use Rattle.conf_table.specs.Classes.{class_of as class_of_members, class_words as words_of_classes, class_in, class_word_of, is_class as is_class_of, admits_class};

use crate::Place;
use crate::field_types::CLASSES;
use conf_tree::member;
use serde_json::{Map, Value};

/// The words of classes, each with the place that is a field type of the class; those of one class beside one another.
#[tactic(auto, unfolding(crate::specs::Classes::class_words))]
pub fn class_words() -> &'static [(&'static str, Place)]
    ensures { map class_word_of result.now ≡ words_of_classes }
{
    &CLASSES
}

/// The place that is a field type of the class with this word.
pub fn class_place(word: &str) -> Option<Place>
    ensures { result ≡ class_in word.now words_of_classes }
{
    for (class, place) in class_words() {
        if *class == word {
            return Some(*place);
        }
    }
    None
}

/// The place whose properties a field type has, where its class says one.
#[tactic(auto, unfolding(crate::specs::Classes::class_of))]
pub fn class_of(members: &Map<String, Value>) -> Option<Place>
    ensures { result ≡ class_of_members (members_view members.now.entries) }
{
    class_place(member(members, "class")?.as_str()?)
}

impl Place {
    /// Whether the place is a field type of one class.
    #[tactic(auto, unfolding(crate::specs::Classes::is_class))]
    pub fn is_class(self) -> bool
        ensures { result ≡ is_class_of self }
    {
        matches!(
            self,
            Place::UnsignedInteger
                | Place::SignedInteger
                | Place::UnsignedEnumeration
                | Place::SignedEnumeration
                | Place::Str
                | Place::StaticArray
                | Place::DynamicArray
                | Place::Structure
        )
    }

    /// Whether a field type of this class may stand at this position of field types.
    #[tactic(auto, unfolding(crate::specs::Classes::admits_class))]
    pub fn admits(self, class: Place) -> bool
        ensures { result ≡ admits_class self class }
    {
        match self {
            Place::FieldType => class.is_class(),
            Place::StructureType => class == Place::Structure,
            Place::MemberType => class != Place::Structure && class.is_class(),
            Place::ElementType | Place::DynamicElementType => {
                class != Place::Structure && class != Place::DynamicArray && class.is_class()
            }
            Place::Feature | Place::SizeFeature | Place::MagicFeature => {
                class == Place::UnsignedInteger
            }
            Place::IdentifierFeature => class == Place::StaticArray,
            _ => false,
        }
    }
}
