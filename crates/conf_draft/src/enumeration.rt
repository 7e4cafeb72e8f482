//! Enumeration field types (barectf 3.1, "Enumeration field type objects").
ghost use Rattle.std.specs.Prelude.{◌≡◌, ◌++◌, Some, IsSome, IfOk, OnOk, codes, option_map};
ghost use Rattle.serde_json.specs.View.{view, members_view};
ghost use Rattle.conf_draft.specs.Enumerations.{enumeration as enumeration_of, labels_in, ranges_of, low as low_of, high as high_of, whole as whole_of};
ghost use Rattle.conf_draft.specs.Lookups.{properties};

use crate::integer::integer;
use crate::lookup::object_or;
use ctf_types::{EnumType, ListOf, Mapping, Text};
use serde_json::{Map, Value};
use std::alloc::{AllocError, Global};

/// The enumeration type that an object of an enumeration class is.
#[tactic(auto, using(crate::proofs::Lists::behind_many), unfolding(crate::specs::Enumerations::enumeration))]
pub(crate) fn enumeration(
    alloc: Global,
    signed: bool,
    members: &Map<String, Value>,
) -> Result<EnumType, AllocError>
    requires { IsSome (enumeration_of signed (members_view members.now.entries)) }
    ensures { IfOk result (λ t. enumeration_of signed (members_view members.now.entries) ≡ Some t) }
{
    let mut mappings = ListOf::new(alloc);
    let empty = Map::new(alloc);
    for (label, ranges) in object_or(members, "mappings", &empty).iter() {
        push_ranges(alloc, &mut mappings, label.as_str(), ranges)?;
    }
    let int = integer(signed, members);
    Ok(EnumType { int, mappings })
}

#[tactic(auto, using(crate::proofs::Lists::behind_one))]
fn push_ranges(
    alloc: Global,
    mappings: &mut ListOf<Mapping>,
    label: &str,
    ranges: &Value,
) -> Result<(), AllocError>
    ensures { OnOk result (mappings.new ≡ mappings.old ++ ranges_of label.now (view ranges.now)) }
{
    let Value::Array(items) = ranges else {
        return Ok(());
    };
    for range in items {
        let label = Text::from_str(alloc, label)?;
        let (low, high) = ends(range);
        mappings.push(Mapping { label, low, high })?;
    }
    Ok(())
}

/// The lowest and the highest number of a range: a number, or two.
#[tactic(auto, using(crate::proofs::Lists::first, crate::proofs::Lists::second))]
fn ends(range: &Value) -> (i128, i128)
    ensures low { result.0 ≡ low_of (view range.now) }
    ensures high { result.1 ≡ high_of (view range.now) }
{
    match range {
        Value::Array(ends) => (whole(ends.first()), whole(ends.get(1))),
        _ => (whole(Some(range)), whole(Some(range))),
    }
}

fn whole(end: Option<&Value>) -> i128
    ensures { result ≡ whole_of (option_map (λ v. view v.now) end.entry) }
{
    match end {
        Some(Value::Number(number)) => number.as_i128().unwrap_or(0),
        _ => 0,
    }
}
