//! The first flaw of a member's kind: an integer, an enumeration or a string, and of its attributes.

ghost use Rattle.std.specs.Prelude.{◌∷◌, ◌++◌, IsSome, IfOk, IfErr, ◌≡◌, IsTrue};
ghost use Rattle.tsdl_meaning.specs.Words.{flat_map, kind_toks, entry_toks, next_entry_toks, word, attr_toks, attrs_toks, value_toks, entry_meaning, kind_meaning, StopsAmong, StopsWhere, StopsUnless, IsBehindBrace, IsAttribute, IsTypeBegun, is_any_order, is_base, is_encoding, is_mapping, AreRanges, AddsAttribute, is_among, words_of, of_integer, tree_of, type_word, own_attrs, own_asked, is_some, order_value, base_value, clock_value, names_of, fits, is_fit};

use crate::enumeration::rises;
use crate::integer::{
    BASE_NUMBERS, BASES, INTEGER_ATTRIBUTES, INTEGER_PARTS, base_value, clock_value, is_mapping,
    order_words, orders_of,
};
use crate::judge::block::Judging;
use crate::judge::clock_words::clock_words;
use crate::judge::names::Names;
use crate::judge::value::{
    NUMBER, judge_align, judge_flag, judge_natural, misfit, unread, unread_order,
};
use crate::lookup::{attr, is_name_among};
use crate::member::{ENCODINGS, STRING_ATTRIBUTES, STRING_PARTS, is_encoding};
use crate::value::{one_word, word_value};
use ctf_types::{MAX_RANGES, is_among};
use tsdl_flaw::{Flaw, Limit, Remedy, Spelled, Stop};
use tsdl_grammar::{Attribute, Entries, Entry, Kind, Value};

/// `integer { .. }`, `enum : integer { .. } { .. }` or `string { .. }`.
pub(crate) fn judge_kind(judging: &Judging, kind: &Kind, at: usize) -> Result<(), Stop>
    ensures meant { IfOk result (λ _. IsSome (kind_meaning judging.now.survey.now.known kind.now)) }
    ensures fault { IfErr result (StopsAmong at (kind_toks kind.now)) }
{
    match kind {
        Kind::Integer(attributes) => {
            judge_attributes(judging, TypeKind::Integer, attributes.as_slice(), at)
        }
        Kind::Enumeration(attributes, entries) => {
            let place = at.saturating_add(2);
            judge_attributes(judging, TypeKind::Integer, attributes.as_slice(), place)?;
            let passed = place.saturating_add(attributes.length());
            match entries {
                Entries::Empty => Ok(()),
                Entries::Listed(first, others, _) => {
                    judge_ranges(first, others.as_slice(), passed.saturating_add(4))
                }
            }
        }
        Kind::Text(attributes) => match attributes {
            Some(attributes) => {
                judge_attributes(judging, TypeKind::Text, attributes.as_slice(), at)
            }
            None => Ok(()),
        },
    }
}

/// `range { "," range }`, behind an opening brace.
fn judge_ranges(first: &Entry, others: &[Entry], at: usize) -> Result<(), Stop>
    ensures meant { IfOk result (λ _. AreRanges (first.now ∷ others.now)) }
    ensures fault { IfErr result (StopsWhere IsBehindBrace at (entry_toks first.now ++ flat_map next_entry_toks others.now)) }
{
    judge_range(first, at)?;
    let mut next = at.saturating_add(first.length());
    for (index, entry) in others.iter().enumerate() {
        let place = next.saturating_add(1);
        if index.saturating_add(1) >= MAX_RANGES {
            return Err(Stop::at(place, &entry.label, Flaw::Limit(Limit::Ranges)));
        }
        judge_range(entry, place)?;
        next = place.saturating_add(entry.length());
    }
    Ok(())
}

/// `label "=" number [ "..." number ]`, where the range does not fall.
fn judge_range(entry: &Entry, at: usize) -> Result<(), Stop>
    ensures meant { IfOk result (λ _. IsSome (entry_meaning entry.now)) }
    ensures fault { IfErr result (StopsAmong at (entry_toks entry.now)) }
{
    let Some(high) = entry.high else {
        return Ok(());
    };
    if rises(entry) {
        return Ok(());
    }
    let place = at.saturating_add(entry.low.length()).saturating_add(3);
    Err(Stop::expected(place, &high, "a number that is not below the range's first"))
}

/// A type that may have attributes.
#[derive(Clone, Copy)]
pub(crate) enum TypeKind {
    Integer,
    Text,
}

/// The attributes of a type behind its word, an atom.
pub(crate) fn judge_attributes(
    judging: &Judging,
    kind: TypeKind,
    attributes: &[Attribute],
    at: usize,
) -> Result<(), Stop>
    ensures meant { IfOk result (λ _. IsSome (kind_meaning judging.now.survey.now.known (tree_of kind attributes.now))) }
    ensures fault { IfErr result (StopsAmong at (word (type_word kind) ∷ attrs_toks attributes.now)) }
{
    let mut names = Names::new(judging.alloc);
    let mut next = at.saturating_add(2);
    for attribute in attributes {
        judge_attribute(judging, kind, &mut names, attribute, next)?;
        next = next.saturating_add(attribute.length());
    }
    match kind {
        TypeKind::Integer if attr("size", attributes).is_none() => {
            Err(Stop::at_atom(next, Flaw::Syntax("a `size`")))
        }
        TypeKind::Integer | TypeKind::Text => Ok(()),
    }
}

/// `name "=" value ";"`, an attribute behind others of these names.
fn judge_attribute(
    judging: &Judging,
    kind: TypeKind,
    names: &mut Names,
    attribute: &Attribute,
    at: usize,
) -> Result<(), Stop>
    ensures among { IfOk result (λ _. IsTrue (is_among (own_attrs kind) (words_of attribute.now.name))) }
    ensures adds { IfOk result (λ _. AddsAttribute (own_asked judging.now.survey.now.known kind) names.old.names attribute.now names.new.names) }
    ensures fault { IfErr result (StopsWhere (IsTypeBegun (type_word kind) names.old.names) at (attr_toks attribute.now)) }
{
    if !is_name_among(attributes_of(kind), &attribute.name) {
        let remedy = Remedy::Instead(parts_of(kind));
        return Err(Stop::unsupported(judging.alloc, at, &attribute.name, remedy));
    }
    names.add(judging.alloc, &attribute.name, at)?;
    let Some(word) = one_word(&attribute.name) else {
        return Ok(());
    };
    let behind = at.saturating_add(2);
    judge_value(judging, kind, word.as_str(), &attribute.value, behind)
}

/// The attributes that a type may have.
fn attributes_of(kind: TypeKind) -> &'static [&'static [&'static str]]
    ensures { names_of result.now ≡ own_attrs kind }
{
    match kind {
        TypeKind::Integer => &INTEGER_ATTRIBUTES,
        TypeKind::Text => &STRING_ATTRIBUTES,
    }
}

/// The same in words.
fn parts_of(kind: TypeKind) -> &'static str {
    match kind {
        TypeKind::Integer => INTEGER_PARTS,
        TypeKind::Text => STRING_PARTS,
    }
}

/// What the attribute of this name has, behind its name and `=`.
#[tactic(auto, using(crate::proofs::Misfits::in_asked))]
fn judge_value(
    judging: &Judging,
    kind: TypeKind,
    word: &str,
    value: &Value,
    at: usize,
) -> Result<(), Stop>
    ensures fit { IfOk result (λ _. IsTrue (fits (own_asked judging.now.survey.now.known kind) word.now value.now)) }
    ensures fault { IfErr result (StopsWhere (IsAttribute (type_word kind) word.now) at (value_toks value.now)) }
{
    match kind {
        TypeKind::Integer => match word {
            "size" => match judge_natural(value, at)? {
                1..=64 => Ok(()),
                _ => Err(misfit(value, at, "a size from 1 to 64 bits")),
            },
            "align" => match value {
                Value::Number(number) => judge_align(number, at),
                Value::Text(_) | Value::Name(_) => Err(misfit(value, at, NUMBER)),
            },
            "signed" => judge_flag(value, at),
            "byte_order" => judge_order(judging, value, at),
            "base" => judge_base(judging, value, at),
            "map" => judge_map(judging, value, at),
            _ => Ok(()),
        },
        TypeKind::Text => match word {
            "encoding" => judge_encoding(judging, value, at),
            _ => Ok(()),
        },
    }
}

/// The word of an encoding that is read.
#[tactic(auto, using(crate::proofs::Misfits::misfits))]
fn judge_encoding(judging: &Judging, value: &Value, at: usize) -> Result<(), Stop>
    ensures fit { IfOk result (λ _. IsTrue (is_encoding value.now)) }
    ensures fault { IfErr result (StopsUnless (is_encoding value.now) at (value_toks value.now)) }
{
    if is_encoding(value) {
        return Ok(());
    }
    Err(unread(judging.alloc, value, at, ENCODINGS))
}

/// `native`, or the trace's own byte order.
#[tactic(auto, using(crate::proofs::Misfits::any_order_unread))]
fn judge_order(judging: &Judging, value: &Value, at: usize) -> Result<(), Stop>
    ensures fit { IfOk result (λ _. IsTrue (is_some (order_value judging.now.survey.now.known.order value.now))) }
    ensures fault { IfErr result (StopsUnless (is_any_order value.now) at (value_toks value.now)) }
{
    let survey = judging.survey;
    let trace = survey.has_order.then_some(survey.known.order());
    match word_value(value) {
        Some(word) if is_among(word.as_str(), order_words(trace)) => Ok(()),
        _ => Err(unread_order(judging.alloc, value, at, orders_of(trace))),
    }
}

/// `2 binary b`, `8 octal oct o`, `10 decimal dec d i u` or `16 hexadecimal hex x X p`.
#[tactic(auto, using(crate::proofs::Misfits::misfits))]
fn judge_base(judging: &Judging, value: &Value, at: usize) -> Result<(), Stop>
    ensures fit { IfOk result (λ _. IsTrue (is_some (base_value value.now))) }
    ensures fault { IfErr result (StopsUnless (is_base value.now) at (value_toks value.now)) }
{
    if base_value(value).is_some() {
        return Ok(());
    }
    if let Value::Number(_) = value {
        judge_natural(value, at)?;
        return Err(misfit(value, at, BASE_NUMBERS));
    }
    Err(unread(judging.alloc, value, at, BASES))
}

/// `clock.NAME.value`. A clock that is not there is a flaw of its name.
#[tactic(auto, using(crate::proofs::Misfits::misfits))]
fn judge_map(judging: &Judging, value: &Value, at: usize) -> Result<(), Stop>
    ensures fit { IfOk result (λ _. IsTrue (is_some (clock_value judging.now.survey.now.known.clocks value.now))) }
    ensures fault { IfErr result (StopsUnless (is_mapping value.now) at (value_toks value.now)) }
{
    if clock_value(&judging.survey.known, value).is_some() {
        return Ok(());
    }
    let Value::Name(_) = value else {
        return Err(misfit(value, at, "a name"));
    };
    if !is_mapping(value) {
        return Err(misfit(value, at, "`clock.NAME.value`"));
    }
    let place = at.saturating_add(2);
    let clocks = clock_words(judging.alloc, judging.survey.known.clocks())?;
    Err(Stop::at_atom(place, Flaw::NoClock(clocks)))
}
