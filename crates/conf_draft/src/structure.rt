//! Structures: payloads, contexts, and the extra members of a packet context (barectf 3.1, "Structure field type object").
ghost use Rattle.std.specs.Prelude.{◌≡◌, Some, IsSome, IfOk};
ghost use Rattle.serde_json.specs.View.{members_view};
ghost use Rattle.conf_draft.specs.Structures.{made as made_of, structure as structure_in};

use crate::defaults::alignment_or_default;
use crate::lookup::object;
use crate::members::listed;
use conf_table::Place;
use ctf_types::{Members, StructType};
use serde_json::{Map, Value};
use std::alloc::{AllocError, Global};

/// The structure that the property `name` is. Left out, it has no members. Without members nothing is aligned.
#[tactic(auto, unfolding(crate::specs::Structures::structure, crate::specs::Structures::structure_of, crate::specs::Structures::align_of))]
pub(crate) fn structure(
    alloc: Global,
    members: &Map<String, Value>,
    name: &str,
) -> Result<StructType, AllocError>
    requires { IsSome (structure_in name.now (members_view members.now.entries)) }
    ensures { IfOk result (λ t. structure_in name.now (members_view members.now.entries) ≡ Some t) }
{
    let Some(members) = object(members, name) else {
        return Ok(made(Members::new(alloc), 1));
    };
    let align = alignment_or_default(Place::Structure, members, "minimum-alignment");
    let members = listed(alloc, members, "members")?;
    let align = if members.is_empty() { 1 } else { align };
    Ok(made(members, align))
}

/// The structure of these members and this minimum alignment in bits.
#[tactic(auto, unfolding(crate::specs::Structures::made))]
pub(crate) fn made(members: Members, align: u64) -> StructType
    requires { IsSome (made_of members align) }
    ensures { made_of members align ≡ Some result }
{
    StructType::new(members, align as u32).unwrap()
}
