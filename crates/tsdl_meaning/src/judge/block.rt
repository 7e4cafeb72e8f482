//! The first flaw of a block: of an environment, or of a trace, a stream, an event or a clock with its attributes and scopes.

ghost use Rattle.std.specs.Prelude.{◌≡◌, false, List, [], ◌∷◌, IfOk, IfErr, IsTrue, codes};
ghost use Rattle.tsdl_meaning.specs.Words.{Atom, mark, word, scope_toks, items_toks, braced, fact_toks, named_fact_toks, IsTwice, StopsWhere, StopsAmong, StopsUnless, EndsFacts, AreNoted, AreNamed, word_of, IsBegun, IsFlawlessBlock, AddsScope, IsEnded, IsNumberedAnew, scopes_of, needed_by, named_rules, first_texts, flat_map, is_some, fact_meaning, MeanEntries, AddsFact, kind_of};
ghost use Rattle.tsdl_grammar.specs.declared.token.Mark.TheVariants as marks;
ghost use Rattle.tsdl_grammar.specs.declared.fault.MetaFaultKind.TheVariants as faults;

use crate::environment::has_fact;
use crate::judge::attribute::judge_attribute;
use crate::judge::ledger::{Ledger, event_numbers};
use crate::judge::names::Names;
use crate::judge::structure::judge_structure;
use crate::judge::survey::Survey;
use crate::judge::value::misfit_number;
use crate::lookup::{attr_in, has_words};
use crate::scope_rule::ScopeRule;
use crate::stream::{EVENT_CONTEXT, EVENT_HEADER, FIELDS, PACKET_CONTEXT, SPECIFIC_CONTEXT};
use crate::trace::PACKET_HEADER;
use crate::value::{WHOLE, whole};
use ctf_types::MAX_ENVIRONMENT;
use std::alloc::Global;
use tsdl_flaw::{Fault, Flaw, Limit, Numbered, Remedy, Spelled, Stop};
use tsdl_grammar::{Fact, Item, NamedFact, Scope};

#[derive(Clone, Copy)]
pub(crate) enum BlockKind {
    Trace,
    Stream,
    Event,
    Clock,
}

/// A block that is judged, and what of its text it is judged by.
#[derive(Drop)]
pub(crate) struct Judging<'a> {
    pub alloc: Global,
    pub survey: &'a Survey,
    pub ledger: &'a Ledger,
    pub kind: BlockKind,
}

/// Judges a block of these items, whose word stands at an atom.
pub(crate) fn judge_items(judging: &Judging, items: &[Item], at: usize) -> Result<(), Stop>
    ensures flawless { IfOk result (λ _. IsFlawlessBlock judging.now.survey.now.known judging.now.kind judging.now.ledger.now items.now) }
    ensures fault { IfErr result (StopsWhere (λ front. AreNoted front judging.now.ledger.now) at (word (word_of judging.now.kind) ∷ items_toks items.now)) }
{
    let mut attributes = Names::new(judging.alloc);
    let mut scopes = Names::new(judging.alloc);
    let mut next = at.saturating_add(2);
    for item in items {
        match item {
            Item::Attribute(attribute) => {
                judge_attribute(judging, &mut attributes, attribute, next)?;
            }
            Item::Scope(scope) => judge_scope(judging, &mut scopes, scope, next)?,
        }
        next = next.saturating_add(item.length());
    }
    judge_end(judging, items, next)
}

/// Judges a scope of a block behind the names of others.
fn judge_scope(judging: &Judging, names: &mut Names, scope: &Scope, at: usize) -> Result<(), Stop>
    ensures flawless { IfOk result (λ _. AddsScope judging.now.survey.now.known judging.now.kind names.old.names scope.now names.new.names) }
    ensures fault { IfErr result (StopsWhere (λ front. AreNamed front marks.Assign names.old.names) at (scope_toks scope.now)) }
{
    let mut rows = scopes_of(judging.kind).iter();
    let Some(row) = rows.find(|row| has_words(&scope.name, row.0)) else {
        let remedy = Remedy::Instead(scope_words(judging.kind));
        return Err(Stop::unsupported(judging.alloc, at, &scope.name, remedy));
    };
    names.add(judging.alloc, &scope.name, at)?;
    let behind = at.saturating_add(scope.name.length()).saturating_add(1);
    judge_structure(judging, row.1, &scope.structure, behind)?;
    Ok(())
}

/// The scopes that a block may have, and what each one asks of its members.
fn scopes_of(kind: BlockKind) -> &'static [(&'static [&'static str], ScopeRule)]
    ensures { named_rules result.now ≡ scopes_of kind }
{
    match kind {
        BlockKind::Trace => &[PACKET_HEADER],
        BlockKind::Stream => &[PACKET_CONTEXT, EVENT_HEADER, EVENT_CONTEXT],
        BlockKind::Event => &[SPECIFIC_CONTEXT, FIELDS],
        BlockKind::Clock => &[],
    }
}

/// The same in words.
fn scope_words(kind: BlockKind) -> &'static str {
    match kind {
        BlockKind::Trace => "`packet.header`",
        BlockKind::Stream => "`packet.context`, `event.header` or `event.context`",
        BlockKind::Event => "`context` or `fields`",
        BlockKind::Clock => "an attribute",
    }
}

/// Judges a block at its closing brace, an atom: what it has to have, and its numbers.
fn judge_end(judging: &Judging, items: &[Item], at: usize) -> Result<(), Stop>
    ensures ended { IfOk result (λ _. IsEnded judging.now.kind judging.now.ledger.now items.now) }
    ensures fault { IfErr result (StopsWhere (IsBegun judging.now items.now) at (mark marks.CloseBrace ∷ [])) }
{
    let mut rows = needed(judging.kind).iter();
    if let Some(missing) = rows.find(|row| attr_in(row.0, items).is_none()) {
        return Err(Stop::at_atom(at, Flaw::Syntax(missing.1)));
    }
    if is_numbered_twice(judging, items) {
        return Err(Stop::at_atom(at, numbered_flaw(judging.kind, items)));
    }
    Ok(())
}

/// The flaw of a block whose numbers another one has.
fn numbered_flaw(kind: BlockKind, items: &[Item]) -> Flaw
    ensures { kind_of result ≡ faults.Duplicate }
{
    match kind {
        BlockKind::Trace | BlockKind::Clock => Flaw::Duplicate,
        BlockKind::Stream => Flaw::NumberTwice(Numbered {
            stream: 0,
            event: None,
        }),
        BlockKind::Event => match event_numbers(items) {
            Some((stream, id)) => Flaw::NumberTwice(Numbered {
                stream,
                event: Some(id),
            }),
            None => Flaw::Duplicate,
        },
    }
}

/// Whether another stream has the number 0 of a stream without one, or another event the numbers of an event.
fn is_numbered_twice(judging: &Judging, items: &[Item]) -> bool
    ensures anew { result ≡ false → IsNumberedAnew judging.now.kind judging.now.ledger.now items.now }
    ensures twice { (front : List Atom) → IsTrue result → IsBegun judging.now items.now front → IsTwice front (mark marks.CloseBrace ∷ []) }
{
    match judging.kind {
        BlockKind::Trace | BlockKind::Clock => false,
        BlockKind::Stream => match attr_in("id", items) {
            Some(_) => false,
            None => judging.ledger.has_stream(0),
        },
        BlockKind::Event => match event_numbers(items) {
            Some(numbers) => judging.ledger.has_event(numbers),
            None => false,
        },
    }
}

/// The attributes that a block has to have, and what is expected in words.
fn needed(kind: BlockKind) -> &'static [(&'static str, &'static str)]
    ensures { first_texts result.now ≡ needed_by (word_of kind) }
{
    match kind {
        BlockKind::Trace => &[
            ("major", "a `major`"),
            ("minor", "a `minor`"),
            ("byte_order", "a `byte_order`"),
        ],
        BlockKind::Stream => &[],
        BlockKind::Event | BlockKind::Clock => &[("name", "a `name`")],
    }
}

/// Judges an environment block, whose word stands at an atom.
pub(crate) fn judge_environment(facts: &[NamedFact], at: usize) -> Result<(), Stop>
    ensures flawless { IfOk result (λ _. MeanEntries facts.now) }
    ensures fault { IfErr result (StopsAmong at (word (codes "env") ∷ braced (flat_map named_fact_toks facts.now))) }
{
    let mut next = at.saturating_add(2);
    for (index, fact) in facts.iter().enumerate() {
        judge_entry(&facts[..index], fact, next)?;
        next = next.saturating_add(fact.length());
    }
    Ok(())
}

/// Judges an entry behind others.
fn judge_entry(before: &[NamedFact], fact: &NamedFact, at: usize) -> Result<(), Stop>
    ensures flawless { IfOk result (λ _. AddsFact before.now fact.now) }
    ensures fault { IfErr result (StopsWhere (EndsFacts before.now) at (named_fact_toks fact.now)) }
{
    let end = at.saturating_add(2);
    if has_fact(&fact.name, before) {
        let flaw = Flaw::Duplicate;
        return Err(Stop::Fault(Fault { at, end, flaw }));
    }
    if before.len() >= MAX_ENVIRONMENT {
        return Err(Stop::at_atom(at, Flaw::Limit(Limit::Environment)));
    }
    judge_fact(&fact.fact, end)
}

/// Judges what an entry has: a number is one from -2^63 to 2^63 - 1.
#[tactic(auto, using(crate::proofs::Misfits::misfits))]
fn judge_fact(fact: &Fact, at: usize) -> Result<(), Stop>
    ensures meant { IfOk result (λ _. IsTrue (is_some (fact_meaning fact.now))) }
    ensures fault { IfErr result (StopsUnless (is_some (fact_meaning fact.now)) at (fact_toks fact.now)) }
{
    match fact {
        Fact::Number(number) if whole(*number).is_none() => {
            Err(misfit_number(number, at, WHOLE))
        }
        Fact::Number(_) | Fact::Text(_) => Ok(()),
    }
}
