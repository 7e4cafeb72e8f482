//! The ranges of an enumeration, and the numbers that its integer can hold.
ghost use Rattle.std.specs.Prelude.{◌≡◌, ◌≤◌, ◌^◌, IfErr, pos};
ghost use Rattle.serde_json.specs.View.{view, items_view, members_view};
ghost use Rattle.conf_tree.specs.Reading.{Gives};
ghost use Rattle.conf_judge.specs.Numbers.{natural_in as natural_in_of, pair_of, range_of, inside_of, numbers_in as numbers_in_of};

use crate::leaf::check_that;
use conf_tree::{At, ConfFault, FaultKind, member, whole};
use conf_values::as_natural;
use serde_json::{Map, Value};
use std::alloc::Global;

/// The numbers from one to another, both included.
#[derive(Clone, Copy, Debug)]
pub(crate) struct Span {
    pub(crate) low: i128,
    pub(crate) high: i128,
}

/// Every whole number that a configuration can hold.
pub(crate) const ALL: Span = Span {
    low: -9_223_372_036_854_775_808,
    high: 18_446_744_073_709_551_615,
};

/// The numbers that an integer with these properties can hold. Where the size is none, no number is outside.
#[tactic(auto, unfolding(crate::specs::Numbers::numbers_in, crate::specs::Numbers::numbers_of))]
pub(crate) fn numbers_in(signed: bool, members: &Map<String, Value>) -> Span
    ensures { result ≡ numbers_in_of signed (members_view members.now.entries) }
{
    match natural_in(members, "size") {
        Some(size) if size > 0 && size <= 64 => {
            let past = (1u128 << (size - u64::from(signed))) as i128;
            Span {
                low: if signed { -past } else { 0 },
                high: past - 1,
            }
        }
        _ => ALL,
    }
}

/// The whole number that a property is, if it is one from 0 to 2^64 - 1.
#[tactic(auto, unfolding(crate::specs::Numbers::natural_in))]
pub(crate) fn natural_in(members: &Map<String, Value>, name: &str) -> Option<u64>
    ensures { result ≡ natural_in_of name.now (members_view members.now.entries) }
{
    as_natural(member(members, name)?)
}

/// The range that a number or a pair of numbers is.
#[tactic(auto, using(crate::proofs::Sizes::pair_few, crate::proofs::Sizes::pair_many), unfolding(crate::specs::Numbers::range_of, crate::specs::Numbers::pair_of))]
fn range(alloc: Global, value: &Value) -> Result<Span, ConfFault>
    ensures { Gives (λ s. s) result (range_of (view value.now)) }
{
    match value {
        Value::Array(items) => match items.as_slice() {
            [low, high] => Ok(Span {
                low: whole(alloc, At::Item(0), low, ALL.low, ALL.high)?,
                high: whole(alloc, At::Item(1), high, ALL.low, ALL.high)?,
            }),
            [] | [_] | [_, _, _, ..] => Err(ConfFault::here(alloc, FaultKind::WrongKind)),
        },
        _ => {
            let number = whole(alloc, At::Here, value, ALL.low, ALL.high)?;
            Ok(Span {
                low: number,
                high: number,
            })
        }
    }
}

/// Refuses a value that is no range inside these numbers.
#[tactic(auto, unfolding(crate::specs::Numbers::inside_of, crate::specs::Numbers::is_inside))]
pub(crate) fn check_range(alloc: Global, numbers: Span, value: &Value) -> Result<(), ConfFault>
    ensures { Gives (λ _. tt) result (inside_of numbers (view value.now)) }
{
    let range = range(alloc, value)?;
    let fits = range.low <= range.high && numbers.low <= range.low && range.high <= numbers.high;
    check_that(alloc, fits)
}
