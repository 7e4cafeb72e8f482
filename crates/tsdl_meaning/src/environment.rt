//! What an environment block means (CTF 1.8.3, section 7, the block `env`).

ghost use Rattle.std.specs.Prelude.{◌≡◌, map, IfOk};
ghost use Rattle.tsdl_meaning.specs.Words.{list_any, bytes_eq, no_two, each, fact_meaning, named_fact_meaning, environment_meaning};

use crate::room::with_room;
use crate::value::{Meant, whole};
use ctf_types::{EnvironmentEntry, EnvironmentValue, ListOf, MAX_ENVIRONMENT, Text};
use std::alloc::Global;
use tsdl_grammar::{Fact, NamedFact};

/// The environment of no more names than the limit, of which none stands twice.
#[tactic(auto, unfolding(tsdl_grammar::specs::BlockMeaning::environment_meaning))]
pub(crate) fn environment_meaning(
    alloc: Global,
    facts: &[NamedFact],
) -> Meant<ListOf<EnvironmentEntry>>
    ensures { IfOk result (λ es. es ≡ environment_meaning facts.now) }
{
    holds!(facts.len() <= MAX_ENVIRONMENT && are_distinct(facts));
    entries_of(alloc, facts)
}

/// Whether no name stands twice.
fn are_distinct(facts: &[NamedFact]) -> bool
    ensures { result ≡ no_two bytes_eq (map (λ f. f.name) facts.now) }
{
    let mut rest = facts;
    while let [fact, others @ ..] = rest {
        if has_fact(&fact.name, others) {
            return false;
        }
        rest = others;
    }
    true
}

pub(crate) fn has_fact(name: &Text, facts: &[NamedFact]) -> bool
    ensures { result ≡ list_any (bytes_eq name.now) (map (λ f. f.name) facts.now) }
{
    facts.iter().any(|fact| name.as_str() == fact.name.as_str())
}

fn entries_of(alloc: Global, facts: &[NamedFact]) -> Meant<ListOf<EnvironmentEntry>>
    ensures { IfOk result (λ es. es ≡ each named_fact_meaning facts.now) }
{
    let mut entries = with_room(alloc, facts.len())?;
    for fact in facts {
        let entry = meant!(named_fact_meaning(alloc, fact)?);
        entries.push(entry)?;
    }
    Ok(Some(entries))
}

fn named_fact_meaning(alloc: Global, fact: &NamedFact) -> Meant<EnvironmentEntry>
    ensures { IfOk result (λ e. e ≡ named_fact_meaning fact.now) }
{
    let value = meant!(fact_meaning(alloc, &fact.fact)?);
    let name = fact.name.copy(alloc)?;
    Ok(Some(EnvironmentEntry { name, value }))
}

fn fact_meaning(alloc: Global, fact: &Fact) -> Meant<EnvironmentValue>
    ensures { IfOk result (λ v. v ≡ fact_meaning fact.now) }
{
    match fact {
        Fact::Number(number) => Ok(whole(*number).map(EnvironmentValue::Whole)),
        Fact::Text(text) => Ok(Some(EnvironmentValue::Text(text.copy(alloc)?))),
    }
}
