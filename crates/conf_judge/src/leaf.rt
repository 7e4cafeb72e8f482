//! Values that hold no others: numbers, flags, texts and words.
ghost use Rattle.std.specs.Prelude.{◌≡◌, ◌≤◌, IfErr, is_some, map, option_map, unwrap_or};
ghost use Rattle.std.specs.List.{list_any};
ghost use Rattle.std.specs.Str.{bytes_eq};
ghost use Rattle.serde_json.specs.Data.{no_members};
ghost use Rattle.serde_json.specs.View.{view, members_view};
ghost use Rattle.conf_table.specs.Classes.{class_in, class_words};
ghost use Rattle.conf_tree.specs.Reading.{Gives};
ghost use Rattle.conf_values.specs.Scalar.{is_printable as printable, uuid_in};
ghost use Rattle.conf_judge.specs.Forms.{itself_of};
ghost use Rattle.conf_judge.specs.Known.{known_of};
ghost use Rattle.conf_judge.specs.Leaves.{is_uuid_or_auto, level, one_flag, only_if, power_of, text_that, whole_from, whole_or_text};

use crate::around::Around;
use crate::form::check_form;
use conf_table::{Content, class_place, words_in};
use conf_tree::{At, ConfFault, FaultKind, flag, member, text, whole};
use conf_values::{is_printable, parsed};
use ctf_types::is_among;
use serde_json::{Map, Value};
use std::alloc::Global;

/// Refuses a value that is of another kind than its content, or a value that holds no others and is not what it is to be.
#[tactic(auto, unfolding(crate::specs::Forms::itself_of, crate::specs::Leaves::leaf_of))]
pub(crate) fn check_itself(
    alloc: Global,
    around: &Around<'_>,
    content: &Content,
    value: &Value,
) -> Result<(), ConfFault>
    ensures { Gives (λ _. tt) result (itself_of (known_of around.now) content.now (view value.now)) }
{
    match *content {
        Content::Whole { low, high } => check_whole(alloc, value, low, high),
        Content::PowerOfTwo { .. } => check_power_of_two(alloc, value),
        Content::Flag => flag(alloc, At::Here, value).map(|_| ()),
        Content::OneFlag => check_one_flag(alloc, around.has_default, value),
        Content::Text { .. } => check_printable(alloc, value),
        Content::ClockName => text(alloc, At::Here, value).map(|_| ()),
        Content::Identifier => check_identifier(alloc, value),
        Content::IdentifierOrAuto => check_identifier_or_auto(alloc, value),
        Content::Word(words) => check_word(alloc, words_in(words), value),
        Content::Class => check_class(alloc, value),
        Content::WholeOrText { low, high, .. } => check_whole_or_text(alloc, value, low, high),
        Content::Level { high } => check_level(alloc, around.levels, value, high),
        Content::At(place) => check_form(alloc, around, place, value),
        Content::Anything => Ok(()),
    }
}

/// Refuses as out of range what does not fit.
pub(crate) fn check_that(alloc: Global, fits: bool) -> Result<(), ConfFault>
    ensures { Gives (λ _. tt) result (only_if fits) }
{
    if fits {
        Ok(())
    } else {
        Err(ConfFault::here(alloc, FaultKind::OutOfRange))
    }
}

#[tactic(auto, unfolding(crate::specs::Leaves::whole_from))]
fn check_whole(alloc: Global, value: &Value, low: i128, high: i128) -> Result<(), ConfFault>
    ensures { Gives (λ _. tt) result (whole_from low high (view value.now)) }
{
    whole(alloc, At::Here, value, low, high).map(|_| ())
}

/// The largest power of two that a number of 64 bits can be.
const LARGEST_POWER: u64 = 9_223_372_036_854_775_808;

/// The powers of two of 64 bits are the divisors of the largest of them.
#[tactic(auto, unfolding(crate::specs::Leaves::power_of))]
fn check_power_of_two(alloc: Global, value: &Value) -> Result<(), ConfFault>
    ensures { Gives (λ _. tt) result (power_of (view value.now)) }
{
    let number = whole(alloc, At::Here, value, 1, 18_446_744_073_709_551_615)?;
    let number = u64::try_from(number);
    check_that(
        alloc,
        number.is_ok_and(|number| number > 0 && LARGEST_POWER % number == 0),
    )
}

/// Of the flags of this kind one is true at most.
fn check_one_flag(alloc: Global, has_default: bool, value: &Value) -> Result<(), ConfFault>
    ensures { Gives (λ _. tt) result (one_flag has_default (view value.now)) }
{
    let is_default = flag(alloc, At::Here, value)?;
    check_that(alloc, !(is_default && has_default))
}

/// A text that people read.
fn check_printable(alloc: Global, value: &Value) -> Result<(), ConfFault>
    ensures { Gives (λ _. tt) result (text_that printable (view value.now)) }
{
    check_that(alloc, is_printable(text(alloc, At::Here, value)?))
}

fn check_identifier(alloc: Global, value: &Value) -> Result<(), ConfFault>
    ensures { Gives (λ _. tt) result (text_that (λ s. is_some (uuid_in s)) (view value.now)) }
{
    check_that(alloc, parsed(text(alloc, At::Here, value)?).is_some())
}

/// The number of the trace, or the word for the one that the caller hands in.
fn check_identifier_or_auto(alloc: Global, value: &Value) -> Result<(), ConfFault>
    ensures { Gives (λ _. tt) result (text_that is_uuid_or_auto (view value.now)) }
{
    let text = text(alloc, At::Here, value)?;
    check_that(alloc, text == "auto" || parsed(text).is_some())
}

fn check_word(alloc: Global, words: &'static [&'static str], value: &Value) -> Result<(), ConfFault>
    ensures { Gives (λ _. tt) result (text_that (λ s. list_any (bytes_eq s) (map (λ w. w.now) words.now)) (view value.now)) }
{
    let text = text(alloc, At::Here, value)?;
    check_that(alloc, is_among(text, words))
}

fn check_class(alloc: Global, value: &Value) -> Result<(), ConfFault>
    ensures { Gives (λ _. tt) result (text_that (λ s. is_some (class_in s class_words)) (view value.now)) }
{
    check_that(alloc, class_place(text(alloc, At::Here, value)?).is_some())
}

/// A whole number, or a text that people read.
#[tactic(auto, unfolding(crate::specs::Leaves::whole_or_text))]
fn check_whole_or_text(alloc: Global, value: &Value, low: i128, high: i128) -> Result<(), ConfFault>
    ensures { Gives (λ _. tt) result (whole_or_text low high (view value.now)) }
{
    match value {
        Value::String(text) => check_that(alloc, is_printable(text.as_str())),
        _ => check_whole(alloc, value, low, high),
    }
}

/// A number, or the name of an alias of one.
#[tactic(auto, unfolding(crate::specs::Leaves::level))]
fn check_level(
    alloc: Global,
    levels: Option<&Map<String, Value>>,
    value: &Value,
    high: i128,
) -> Result<(), ConfFault>
    ensures { Gives (λ _. tt) result (level (unwrap_or (option_map (λ m. members_view m.now.entries) levels.entry) no_members) high (view value.now)) }
{
    let Value::String(name) = value else {
        return check_whole(alloc, value, 0, high);
    };
    match levels.and_then(|levels| member(levels, name.as_str())) {
        Some(level) => check_whole(alloc, level, 0, high),
        None => Err(ConfFault::here(alloc, FaultKind::NoSuchAlias)),
    }
}
