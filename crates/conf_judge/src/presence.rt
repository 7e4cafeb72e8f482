//! Which properties an object has: those that have to be there, those that cannot be, and those that a null leaves out.
ghost use Rattle.std.specs.Prelude.{◌≡◌, ◌≤◌, IfErr, option_map};
ghost use Rattle.serde_json.specs.View.{view, members_view};
ghost use Rattle.conf_tree.specs.Reading.{Gives};
ghost use Rattle.conf_judge.specs.Flaws.{all_there, resolved_content as resolved_content_of, is_left_out as is_left_out_of};

use conf_table::{Content, Place, Presence, content_at, presence, rows};
use conf_tree::{At, ConfFault, FaultKind, member, optional};
use serde_json::{Map, Value};
use std::alloc::Global;

/// Refuses the first property that has to be there and is not, and a trace type without a byte order.
#[tactic(auto, unfolding(crate::specs::Flaws::all_there, crate::specs::Flaws::orders_there))]
pub(crate) fn check_present(
    alloc: Global,
    place: Place,
    members: &Map<String, Value>,
) -> Result<(), ConfFault>
    ensures { Gives (λ _. tt) result (all_there place (members_view members.now.entries)) }
{
    let rows = rows(place);
    for (name, presence, _) in rows {
        if matches!(presence, Presence::Needed) && member(members, *name).is_none() {
            return Err(At::Property(*name).fault(alloc, FaultKind::Missing));
        }
    }
    if matches!(place, Place::TraceType)
        && optional(members, "trace-byte-order").is_none()
        && optional(members, "native-byte-order").is_none()
    {
        return Err(At::Property("trace-byte-order").fault(alloc, FaultKind::Missing));
    }
    Ok(())
}

/// What the property `name` of a resolved object is. None is an unknown property, as `$inherit` is by now.
#[tactic(auto, unfolding(crate::specs::Flaws::resolved_content))]
pub(crate) fn resolved_content(place: Place, name: &str) -> Option<&'static Content>
    ensures { option_map (λ c. c.now) result ≡ resolved_content_of place name.now }
{
    if name == "$inherit" && presence(place, "$inherit").is_some() {
        None
    } else {
        content_at(place, name)
    }
}

/// Whether a value is a null that stands for no value.
#[tactic(auto, unfolding(crate::specs::Flaws::is_left_out))]
pub(crate) fn is_left_out(place: Place, name: &str, value: &Value) -> bool
    ensures { result ≡ is_left_out_of place name.now (view value.now) }
{
    let needed = matches!(presence(place, name), None | Some(Presence::Needed));
    value.is_null() && !needed
}
