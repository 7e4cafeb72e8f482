//! Members lists (barectf 3.1, "Structure field type member object").
ghost use Rattle.std.specs.Prelude.{◌≡◌, Some, IsSome, IfOk, OnOk};
ghost use Rattle.serde_json.specs.View.{members_view};
ghost use Rattle.conf_draft.specs.Members.{member_type as member_type_of, behind_named};
ghost use Rattle.conf_draft.specs.Structures.{listed as listed_in};

use crate::field_type::{element, of_class};
use crate::lookup::{list, object};
use conf_table::{Place, class_of};
use ctf_types::{Length, MemberType, Members, Text};
use serde_json::{Map, Value};
use std::alloc::{AllocError, Global};

/// The members that the property `name` lists. Left out, there are none.
#[tactic(auto, unfolding(crate::specs::Structures::listed))]
pub(crate) fn listed(
    alloc: Global,
    members: &Map<String, Value>,
    name: &str,
) -> Result<Members, AllocError>
    requires { IsSome (listed_in name.now (members_view members.now.entries)) }
    ensures { IfOk result (λ m. listed_in name.now (members_view members.now.entries) ≡ Some m) }
{
    let mut listed = Members::new(alloc);
    let Some(entries) = list(members, name) else {
        return Ok(listed);
    };
    for entry in entries {
        if let Value::Object(named) = entry {
            push_named(alloc, &mut listed, named)?;
        }
    }
    Ok(listed)
}

#[tactic(auto, using(crate::proofs::Names::not_there), unfolding(crate::specs::Members::behind))]
fn push_named(
    alloc: Global,
    members: &mut Members,
    named: &Map<String, Value>,
) -> Result<(), AllocError>
    requires { IsSome (behind_named members.old (members_view named.now.entries)) }
    ensures { OnOk result (behind_named members.old (members_view named.now.entries) ≡ Some members.new) }
{
    for (name, value) in named.iter() {
        let told = value.as_object().unwrap();
        let member = member_type(alloc, object(told, "field-type").unwrap())?;
        let name = Text::from_str(alloc, name.as_str())?;
        members.push(name, member)?;
    }
    Ok(())
}

/// The type of a member that an entry tells of.
#[tactic(auto, unfolding(crate::specs::Members::member_type))]
fn member_type(alloc: Global, members: &Map<String, Value>) -> Result<MemberType, AllocError>
    requires { IsSome (member_type_of (members_view members.now.entries)) }
    ensures { IfOk result (λ t. member_type_of (members_view members.now.entries) ≡ Some t) }
{
    match class_of(members) {
        Some(Place::DynamicArray) => Ok(MemberType::Dyn(element(alloc, members)?, Length::Auto)),
        class => Ok(MemberType::Plain(of_class(alloc, class, members)?)),
    }
}
