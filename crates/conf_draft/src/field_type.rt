//! Field types that may stand anywhere in a structure (barectf 3.1, "Field type objects").
ghost use Rattle.std.specs.Prelude.{◌≡◌, ◌≤◌, Some, IsSome, IfOk};
ghost use Rattle.serde_json.specs.View.{members_view};
ghost use Rattle.conf_draft.specs.FieldTypes.{of_class as of_class_of, element as element_of};

use crate::enumeration::enumeration;
use crate::integer::integer;
use crate::lookup::natural;
use conf_table::{Place, class_of};
use ctf_types::{Element, FieldType};
use serde_json::{Map, Value};
use std::alloc::{AllocError, Global};

/// The field type that an object of this class is: an integer, an enumeration, a string, or a static array of one of them.
#[cycle(field_type)]
#[tactic(auto, unfolding(crate::specs::FieldTypes::of_class, crate::specs::FieldTypes::length_of))]
pub(crate) fn of_class(
    alloc: Global,
    class: Option<Place>,
    members: &Map<String, Value>,
) -> Result<FieldType, AllocError>
    requires { IsSome (of_class_of class (members_view members.now.entries) (element_of (members_view members.now.entries))) }
    ensures { IfOk result (λ t. of_class_of class (members_view members.now.entries) (element_of (members_view members.now.entries)) ≡ Some t) }
{
    match class {
        Some(Place::UnsignedInteger) => Ok(FieldType::Int(integer(false, members))),
        Some(Place::SignedInteger) => Ok(FieldType::Int(integer(true, members))),
        Some(Place::UnsignedEnumeration) => {
            Ok(FieldType::Enum(enumeration(alloc, false, members)?))
        }
        Some(Place::SignedEnumeration) => Ok(FieldType::Enum(enumeration(alloc, true, members)?)),
        Some(Place::Str) => Ok(FieldType::Str),
        Some(Place::StaticArray) => {
            let length = natural(members, "length").unwrap_or(0);
            let element = Element::new(alloc, element(alloc, members)?)?;
            Ok(FieldType::Static(element, length as u32))
        }
        _ => unreachable!(),
    }
}

/// The type of an array's elements.
#[cycle(field_type)]
pub(crate) fn element(alloc: Global, members: &Map<String, Value>) -> Result<FieldType, AllocError>
    requires { IsSome (element_of (members_view members.now.entries)) }
    ensures { IfOk result (λ t. element_of (members_view members.now.entries) ≡ Some t) }
{
    for (name, value) in members.iter() {
        if name.as_str() == "element-field-type" {
            let Value::Object(own) = value else {
                unreachable!()
            };
            return of_class(alloc, class_of(own), own);
        }
    }
    unreachable!()
}
