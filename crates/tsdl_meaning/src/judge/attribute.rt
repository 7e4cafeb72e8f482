//! The first flaw of an attribute of a block. An attribute that no rule names is passed over.
#![tactic(auto, using(crate::proofs::Misfits::asked_behind))]

ghost use Rattle.std.specs.Prelude.{List, IfOk, IfErr, IsTrue, codes};
ghost use Rattle.tsdl_meaning.specs.Words.{Item, attr_toks, value_toks, IsPartOfVersion, StopsWhere, StopsUnless, IsAttribute, IsNotedAttribute, AreNamed, IsBegun, word_of, AddsAttribute, is_fit, asked_of, fits, is_order, is_number};
ghost use Rattle.tsdl_grammar.specs.declared.token.Mark.TheVariants as marks;

use crate::judge::block::{BlockKind, Judging};
use crate::judge::names::Names;
use crate::judge::value::{
    judge_flag, judge_label, judge_natural, judge_text, judge_uuid, judge_whole, unread_order,
};
use crate::trace::{ORDERS, order_word};
use crate::value::{one_word, word_value};
use std::alloc::Global;
use tsdl_flaw::{Flaw, Numbered, Remedy, Stop};
use tsdl_grammar::{Attribute, Value};

/// Judges an attribute of a block behind the names of others.
pub(crate) fn judge_attribute(
    judging: &Judging,
    names: &mut Names,
    attribute: &Attribute,
    at: usize,
) -> Result<(), Stop>
    ensures fault { (items : List Item) → IfErr result (StopsWhere (λ front. IsBegun judging.now items front × AreNamed front marks.Equals names.old.names) at (attr_toks attribute.now)) }
    ensures flawless { IfOk result (λ _. AddsAttribute (asked_of judging.now.kind judging.now.ledger.now) names.old.names attribute.now names.new.names) }
{
    names.add(judging.alloc, &attribute.name, at)?;
    let Some(word) = one_word(&attribute.name) else {
        return Ok(());
    };
    let behind = at.saturating_add(2);
    judge_named(judging, word.as_str(), &attribute.value, behind)
}

/// Judges what the attribute of this name has.
fn judge_named(judging: &Judging, word: &str, value: &Value, at: usize) -> Result<(), Stop>
    ensures fit { IfOk result (λ _. IsTrue (fits (asked_of judging.now.kind judging.now.ledger.now) word.now value.now)) }
    ensures fault { IfErr result (StopsWhere (IsNotedAttribute judging.now.ledger.now (word_of judging.now.kind) word.now) at (value_toks value.now)) }
{
    match judging.kind {
        BlockKind::Trace => match word {
            "byte_order" => judge_order(judging.alloc, value, at),
            "major" => judge_version(judging.alloc, "major", value, at, 1),
            "minor" => judge_version(judging.alloc, "minor", value, at, 8),
            "uuid" => judge_uuid(value, at),
            _ => Ok(()),
        },
        BlockKind::Stream => {
            if word == "id" {
                let stream = judge_natural(value, at)?;
                if judging.ledger.has_stream(stream) {
                    let event = None;
                    let flaw = Flaw::NumberTwice(Numbered { stream, event });
                    return Err(Stop::at(at, value, flaw));
                }
            }
            Ok(())
        }
        BlockKind::Event => match word {
            "name" => judge_label(value, at).map(|_| ()),
            "id" | "stream_id" | "loglevel" => judge_natural(value, at).map(|_| ()),
            _ => Ok(()),
        },
        BlockKind::Clock => match word {
            "name" => {
                if judging.ledger.has_clock(judge_label(value, at)?) {
                    return Err(Stop::at(at, value, Flaw::Duplicate));
                }
                Ok(())
            }
            "uuid" => judge_uuid(value, at),
            "description" => judge_text(value, at),
            "freq" | "precision" | "offset" => judge_natural(value, at).map(|_| ()),
            "offset_s" => judge_whole(value, at),
            "absolute" => judge_flag(value, at),
            _ => Ok(()),
        },
    }
}

/// Judges the byte order of a trace.
#[tactic(auto, using(crate::proofs::Misfits::order_unread))]
fn judge_order(alloc: Global, value: &Value, at: usize) -> Result<(), Stop>
    ensures fit { IfOk result (λ _. IsTrue (is_order value.now)) }
    ensures fault { IfErr result (StopsUnless (is_order value.now) at (value_toks value.now)) }
{
    match word_value(value) {
        Some(word) if order_word(word.as_str()).is_some() => Ok(()),
        _ => Err(unread_order(alloc, value, at, ORDERS)),
    }
}

/// Judges a part of the version, of which only one number is supported.
fn judge_version(
    alloc: Global,
    part: &str,
    value: &Value,
    at: usize,
    wanted: u64,
) -> Result<(), Stop>
    requires { IsPartOfVersion part.now }
    ensures fit { IfOk result (λ _. IsTrue (is_number wanted value.now)) }
    ensures fault { IfErr result (StopsWhere (IsAttribute (codes "trace") part.now) at (value_toks value.now)) }
{
    if judge_natural(value, at)? == wanted {
        return Ok(());
    }
    let part = String::from_str(alloc, part)?;
    let flaw = Flaw::Unsupported(part, Remedy::WithNumber(wanted));
    Err(Stop::at(at, value, flaw))
}
