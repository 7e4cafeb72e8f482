//! Resolves the aliases in the order in which they depend on one another.
ghost use Rattle.std.specs.{Prelude.{◌≡◌, not, false, Some, OnOk, IfOk, IfErr, option_map, string_bytes}, BTreeMap.btree_map_len};
ghost use Rattle.serde_json.specs.{Data.Members, View.{view, members_view}};
ghost use Rattle.conf_tree.specs.Flaw.{IsMemory};
ghost use Rattle.conf_inherit.specs.{AliasOutcomes.outcomes_of, Flaws.flaws, Names.NoClash, Named.{all_named, has}};
ghost use Rattle.conf_inherit.specs.{Rounds.{is_over, outcome, step, round, is_settled, all_settled, rounds, no_outcomes}, Spent.{Spends, TurnsLeave}};

use crate::flaws::check_value;
use crate::limits::fit;
use crate::named::{Asked, all_named, push_failing};
use crate::outcomes::{AliasOutcomes, Known};
use crate::property::{has, property, take_property};
use conf_table::Place;
use conf_tree::ConfFault;
use serde_json::{Map, Value};
use std::alloc::{AllocError, Global};
use std::collections::BTreeMap;

/// How often an alias comes up without an outcome: for the first alias that it waits for, for all, and for its turn.
const MOST_VISITS: usize = 3;

/// The aliases whose turns are to come.
#[derive(Drop)]
struct Turns {
    /// Their names, that of the next one last.
    names: Vec<String>,
    /// How often each alias came up without an outcome.
    visits: BTreeMap<String, usize>,
}

impl Turns {
    /// All aliases are to come.
    fn new(alloc: Global, aliases: &Map<String, Value>) -> Result<Turns, AllocError> {
        let mut names = Vec::new(alloc);
        for (name, _value) in aliases.iter() {
            names.push(name.clone()?)?;
        }
        Ok(Turns {
            names,
            visits: BTreeMap::new(alloc),
        })
    }

    /// How often the alias came up without an outcome.
    fn visits_of(&self, name: &str) -> usize {
        self.visits.get(name).copied().unwrap_or(0)
    }

    /// Whether nothing is left to do for the alias: it has its outcome, or had its turn and leads into a circle. One
    /// value may name it any number of times, so this is asked before its body is walked over.
    fn is_through(&self, name: &str, outcomes: &AliasOutcomes) -> bool {
        outcomes.has_outcome(name) || self.visits_of(name) >= MOST_VISITS
    }

    /// Puts the alias that came up behind those without an outcome that it names: at first behind the first of them, since
    /// one name often leads to all others, then behind all. One that waits still when it comes up again leads into a
    /// circle, and comes up no more.
    fn wait(
        &mut self,
        name: &String,
        value: &Value,
        aliases: &Map<String, Value>,
        outcomes: &AliasOutcomes,
    ) -> Result<(), AllocError> {
        let visits = self.visits_of(name.as_str());
        drop(self.visits.insert(name.clone()?, visits.saturating_add(1))?);
        let most = match visits {
            0 => self.names.len().saturating_add(2),
            1 => usize::MAX,
            _ => return Ok(()),
        };
        self.names.push(name.clone()?)?;
        let asked = Asked::IsOver { aliases, outcomes };
        push_failing(value, Place::FieldType, asked, most, &mut self.names)
    }
}

/// The resolved alias, unless it can't be resolved. `known` says whether all that it names is resolved.
fn outcome(
    alloc: Global,
    value: &Value,
    known: bool,
    aliases: &Map<String, Value>,
    resolved: &Map<String, Value>,
) -> Result<Option<Value>, ConfFault>
    requires known { known ≡ all_named (has (members_view resolved.now.entries)) Place.FieldType (view value.now) }
    ensures answer { IfOk result (λ answer. option_map view answer
        ≡ outcome (members_view aliases.now.entries) (members_view resolved.now.entries) (view value.now)) }
    ensures memory { IfErr result IsMemory }
{
    if !known {
        return Ok(None);
    }
    let judged = Known {
        alloc,
        aliases,
        resolved,
        outcomes: None,
        outside: false,
    };
    if let Err(fault) = check_value(judged, value, Place::FieldType) {
        if fault.is_memory() {
            return Err(fault);
        }
        return Ok(None);
    }
    Ok(fit(alloc, value, Place::FieldType, resolved)?.ok())
}

/// Gives an alias that has no outcome its own, if all that it names have theirs, and answers whether it was due. The
/// body of one that has its outcome is not read.
#[tactic(auto, using(crate::proofs::RoundLemmas::resolved_due))]
fn step(
    alloc: Global,
    name: &String,
    value: &Value,
    aliases: &Map<String, Value>,
    outcomes: &mut AliasOutcomes,
) -> Result<bool, ConfFault>
    ensures stepped { OnOk result (outcomes_of outcomes.new
        ≡ step (members_view aliases.now.entries) (string_bytes name.now) (view value.now) (outcomes_of outcomes.old)) }
    ensures due { IfOk result (λ due. due
        ≡ not (is_settled (members_view aliases.now.entries) (outcomes_of outcomes.old) (string_bytes name.now) (view value.now))) }
    ensures memory { IfErr result IsMemory }
{
    if outcomes.has_outcome(name.as_str()) {
        return Ok(false);
    }
    let asked = Asked::IsResolved(&outcomes.resolved);
    let known = all_named(value, Place::FieldType, asked);
    if !(known || is_due(value, aliases, outcomes)) {
        return Ok(false);
    }
    let noted = match outcome(alloc, value, known, aliases, &outcomes.resolved)? {
        Some(alias) => outcomes.resolve(name, alias),
        None => outcomes.refuse(name),
    };
    match noted {
        Ok(()) => Ok(true),
        Err(_) => Err(ConfFault::memory(alloc)),
    }
}

/// Whether all aliases that a value names have an outcome.
fn is_due(value: &Value, aliases: &Map<String, Value>, outcomes: &AliasOutcomes) -> bool
    ensures { result ≡ all_named (is_over (members_view aliases.now.entries) (outcomes_of outcomes.now)) Place.FieldType (view value.now) }
{
    all_named(value, Place::FieldType, Asked::IsOver { aliases, outcomes })
}

/// One round over the aliases. It answers whether one was due, and so got its outcome.
fn round(
    alloc: Global,
    aliases: &Map<String, Value>,
    outcomes: &mut AliasOutcomes,
) -> Result<bool, ConfFault>
    ensures turned { OnOk result (outcomes_of outcomes.new
        ≡ round (members_view aliases.now.entries) (members_view aliases.now.entries) (outcomes_of outcomes.old)) }
    ensures due { IfOk result (λ due. due
        ≡ not (all_settled (members_view aliases.now.entries) (members_view aliases.now.entries) (outcomes_of outcomes.old))) }
    ensures memory { IfErr result IsMemory }
{
    let mut due = false;
    for (name, value) in aliases.iter() {
        if step(alloc, name, value, aliases, outcomes)? {
            due = true;
        }
    }
    Ok(due)
}

/// Gives an alias that came up its turn, if those that it names had theirs. Once it is resolved its body is dropped,
/// which is never read again, so that the next ones have its memory.
#[tactic(auto, using(crate::proofs::SpentLemmas::turn_leaves, crate::proofs::SpentLemmas::spent_leaves))]
fn take_turn(
    alloc: Global,
    name: &String,
    turns: &mut Turns,
    aliases: &mut Map<String, Value>,
    outcomes: &mut AliasOutcomes,
) -> Result<(), ConfFault>
    ensures left { OnOk result ((al : Members) → TurnsLeave al (outcomes_of outcomes.old) (members_view aliases.old.entries) → TurnsLeave al (outcomes_of outcomes.new) (members_view aliases.new.entries)) }
    ensures memory { IfErr result IsMemory }
{
    if turns.is_through(name.as_str(), outcomes) {
        return Ok(());
    }
    let Some(value) = property(aliases, name.as_str()) else {
        return Ok(());
    };
    if !step(alloc, name, value, aliases, outcomes)? {
        return turns
            .wait(name, value, aliases, outcomes)
            .map_err(|_| ConfFault::memory(alloc));
    }
    if has(&outcomes.resolved, name.as_str()) {
        drop(take_property(aliases, name.as_str()));
    }
    Ok(())
}

/// Gives the aliases their turns, each behind those that it names.
fn take_turns(
    alloc: Global,
    aliases: &mut Map<String, Value>,
    outcomes: &mut AliasOutcomes,
) -> Result<(), ConfFault>
    ensures left { OnOk result ((al : Members) → TurnsLeave al (outcomes_of outcomes.old) (members_view aliases.old.entries) → TurnsLeave al (outcomes_of outcomes.new) (members_view aliases.new.entries)) }
    ensures memory { IfErr result IsMemory }
{
    let mut turns = Turns::new(alloc, aliases).map_err(|_| ConfFault::memory(alloc))?;
    for _turn in 0..u64::MAX {
        let Some(name) = turns.names.pop() else {
            return Ok(());
        };
        take_turn(alloc, &name, &mut turns, aliases, outcomes)?;
    }
    Ok(())
}

/// What becomes of the aliases. Each has its turn behind those that it names, and rounds over all follow until none is
/// due: those that are left lead into a circle. What the aliases come to is the same in whatever order. In the place of
/// the body of an alias that is resolved, null is left.
#[tactic(auto, using(crate::proofs::LayingLemmas::apart_of, crate::proofs::SpentLemmas::first_leaves))]
pub(crate) fn settle_aliases(
    alloc: Global,
    aliases: &mut Map<String, Value>,
) -> Result<AliasOutcomes, ConfFault>
    ensures apart { NoClash (members_view aliases.old.entries) }
    ensures settled { IfOk result (λ outcomes. outcomes_of outcomes
        ≡ rounds (members_view aliases.old.entries) (btree_map_len aliases.old) no_outcomes) }
    ensures spent { IfOk result (λ outcomes. Spends (members_view outcomes.resolved.entries) (members_view aliases.old.entries) (members_view aliases.new.entries)) }
    ensures memory { IfErr result IsMemory }
{
    let count = aliases.len();
    let mut outcomes = AliasOutcomes::new(alloc);
    take_turns(alloc, aliases, &mut outcomes)?;
    for _turn in 0..count {
        let due = round(alloc, aliases, &mut outcomes)?;
        if !due {
            return Ok(outcomes);
        }
    }
    Ok(outcomes)
}
