//! The entries of a members list by their names.
ghost use Rattle.std.specs.{Prelude.{◌≡◌, ℕ, List, IfOk, IfSome, OnOk, option_map, unwrap_or}, List.IsAmong, Option.option_or};
ghost use Rattle.serde_json.specs.{Data.Members, View.{view, items_view}};
ghost use Rattle.conf_inherit.specs.{EntryIndex.{HasPlaces, place_at, place_if, lower, lowest}, Laying.{has_entry, lay_over, lay_over_entry}, Names.properties_of};

use serde_json::Value;
use std::alloc::{AllocError, Global};
use std::collections::BTreeMap;

/// The entries of a members list, with the place of the first one of each name.
#[derive(Drop)]
pub(crate) struct EntryIndex<'a> {
    entries: &'a Vec<Value>,
    places: BTreeMap<&'a str, usize>,
    ghost placed: { HasPlaces places (items_view entries.now.items) },
}

impl<'a> EntryIndex<'a> {
    /// The entries by their names.
    pub(crate) fn of(alloc: Global, entries: &'a Vec<Value>) -> Result<EntryIndex<'a>, AllocError>
        ensures { IfOk result (λ made. made.entries.now ≡ entries.now) }
    {
        let mut places = BTreeMap::new(alloc);
        let mut place = entries.len();
        for entry in entries.iter().rev() {
            place -= 1;
            note(entry, place, &mut places)?;
        }
        Ok(EntryIndex { entries, places })
    }

    /// Whether there is an entry of the name.
    pub(crate) fn has(&self, name: &str) -> bool
        ensures { result ≡ has_entry name.now (items_view self.now.entries.now.items) }
    {
        self.places.contains_key(name)
    }

    /// The first entry with a name that a value has, which is the one that is laid over it.
    #[tactic(auto, using(crate::proofs::EntryLemmas::among_items))]
    pub(crate) fn first_over(&self, value: &Value) -> Option<&Value>
        ensures found { (done : Members) → lay_over done (items_view self.now.entries.now.items) (view value.now)
            ≡ unwrap_or (option_map (λ e. lay_over_entry done e (view value.now) (view value.now)) (option_map (λ e. view e.now) result)) (view value.now) }
        ensures among { IfSome result (λ e. IsAmong self.now.entries.now.items e.now) }
    {
        match lowest_place(&self.places, value) {
            Some(place) => self.entries.as_slice().get(place),
            None => None,
        }
    }
}

/// Notes the place of an entry at its names, also where they have one.
fn note<'a>(
    entry: &'a Value,
    place: usize,
    places: &mut BTreeMap<&'a str, usize>,
) -> Result<(), AllocError>
    ensures { OnOk result ((n : List ℕ) → place_at places.new n ≡ option_or (place_if n (view entry.now) place) (place_at places.old n)) }
{
    let Value::Object(members) = entry else {
        return Ok(());
    };
    for (name, _value) in members.iter() {
        drop(places.insert(name.as_str(), place)?);
    }
    Ok(())
}

/// The lowest place that a name of the value has.
fn lowest_place(places: &BTreeMap<&str, usize>, value: &Value) -> Option<usize>
    ensures { result ≡ lowest (λ n. place_at places.now n) (properties_of (view value.now)) }
{
    let Value::Object(members) = value else {
        return None;
    };
    let mut lowest = None;
    for (name, _value) in members.iter() {
        lowest = lower(lowest, places.get(name.as_str()));
    }
    lowest
}

/// The lower of two places, where there are any.
fn lower(place: Option<usize>, other: Option<&usize>) -> Option<usize>
    ensures { result ≡ lower place (option_map (λ p. p.now) other.entry) }
{
    match (place, other) {
        (Some(first), Some(second)) if first <= *second => place,
        (_, Some(second)) => Some(*second),
        (_, None) => place,
    }
}
