//! What attributes have, judged by what each one may have. A flaw of a value stands at its first atom.
#![tactic(auto, using(crate::proofs::Misfits::misfits))]

ghost use Rattle.std.specs.Prelude.{◌≡◌, false, Some, IsSome, IsTrue, IfOk, IfErr};
ghost use Rattle.tsdl_meaning.specs.Words.{value_toks, number_toks, natural, natural_value, name_value, align_of, is_some, is_natural, is_whole, is_text, is_label, is_flag, is_identity, StopsUnless, StopsWhere, AsksAlignment};
ghost use Rattle.tsdl_meaning.specs.Judging.{is_name};

use crate::integer::names_order;
use crate::structure::alignment;
use crate::value::{
    FLAGS, WHOLE, flag_value, name_value, natural, text_value, uuid_value, whole, word_value,
};
use ctf_types::{LARGEST_ALIGN, Text};
use std::alloc::Global;
use tsdl_flaw::{Flaw, Limit, Remedy, Stop};
use tsdl_grammar::{Number, Value};

/// What is expected where another value stands for a number.
pub(crate) const NUMBER: &str = "a number";

/// The flaw of a value that does not fit.
pub(crate) fn misfit(value: &Value, at: usize, expected: &'static str) -> Stop
    ensures { StopsUnless false at (value_toks value.now) result }
{
    Stop::expected(at, value, expected)
}

/// The same of a number.
pub(crate) fn misfit_number(number: &Number, at: usize, expected: &'static str) -> Stop
    ensures { StopsUnless false at (number_toks number.now) result }
{
    Stop::expected(at, number, expected)
}

/// A number that is not below 0.
pub(crate) fn judge_number(number: &Number, at: usize) -> Result<u64, Stop>
    ensures fault { IfErr result (StopsUnless (is_some (natural number.now)) at (number_toks number.now)) }
    ensures value { IfOk result (λ n. natural number.now ≡ Some n) }
{
    match natural(*number) {
        Some(natural) => Ok(natural),
        None => Err(misfit_number(number, at, "a number that is not negative")),
    }
}

/// A number that is not below 0.
pub(crate) fn judge_natural(value: &Value, at: usize) -> Result<u64, Stop>
    ensures fault { IfErr result (StopsUnless (is_natural value.now) at (value_toks value.now)) }
    ensures value { IfOk result (λ n. natural_value value.now ≡ Some n) }
{
    match value {
        Value::Number(number) => judge_number(number, at),
        Value::Text(_) | Value::Name(_) => Err(misfit(value, at, NUMBER)),
    }
}

/// Judges whether this is a number from -2^63 to 2^63 - 1.
pub(crate) fn judge_whole(value: &Value, at: usize) -> Result<(), Stop>
    ensures fault { IfErr result (StopsUnless (is_whole value.now) at (value_toks value.now)) }
    ensures value { IfOk result (λ _. IsTrue (is_whole value.now)) }
{
    match value {
        Value::Number(number) if whole(*number).is_some() => Ok(()),
        Value::Number(_) => Err(misfit(value, at, WHOLE)),
        Value::Text(_) | Value::Name(_) => Err(misfit(value, at, NUMBER)),
    }
}

/// Judges an alignment in bits, a power of two.
pub(crate) fn judge_align(number: &Number, at: usize) -> Result<(), Stop>
    ensures fault { IfErr result (StopsWhere (AsksAlignment number.now) at (number_toks number.now)) }
    ensures aligned { IfOk result (λ _. IsSome (align_of (Some number.now))) }
{
    let align = judge_number(number, at)?;
    if alignment(align).is_some() {
        return Ok(());
    }
    if align > LARGEST_ALIGN && align.is_power_of_two() {
        return Err(Stop::at(at, number, Flaw::Limit(Limit::Alignment)));
    }
    Err(misfit_number(number, at, "a power of two"))
}

/// A string.
pub(crate) fn judge_text(value: &Value, at: usize) -> Result<(), Stop>
    ensures fault { IfErr result (StopsUnless (is_text value.now) at (value_toks value.now)) }
    ensures value { IfOk result (λ _. IsTrue (is_text value.now)) }
{
    match text_value(value) {
        Some(_) => Ok(()),
        None => Err(misfit(value, at, "a string")),
    }
}

/// Judges whether this is a string that an identifier of a trace or a clock parses from.
pub(crate) fn judge_uuid(value: &Value, at: usize) -> Result<(), Stop>
    ensures fault { IfErr result (StopsUnless (is_identity value.now) at (value_toks value.now)) }
    ensures value { IfOk result (λ _. IsTrue (is_identity value.now)) }
{
    if uuid_value(value).is_some() {
        return Ok(());
    }
    judge_text(value, at)?;
    Err(misfit(value, at, "a string with a UUID"))
}

/// The name of a clock or an event: an identifier or a string.
pub(crate) fn judge_label(value: &Value, at: usize) -> Result<&Text, Stop>
    ensures fault { IfErr result (StopsUnless (is_label value.now) at (value_toks value.now)) }
    ensures value { IfOk result (λ t. name_value value.now ≡ Some t.now) }
{
    match name_value(value) {
        Some(label) => Ok(label),
        None => Err(misfit(value, at, "an identifier or a string")),
    }
}

/// Judges a flag, by one of its words or as 1 or 0.
pub(crate) fn judge_flag(value: &Value, at: usize) -> Result<(), Stop>
    ensures fault { IfErr result (StopsUnless (is_flag value.now) at (value_toks value.now)) }
    ensures value { IfOk result (λ _. IsTrue (is_flag value.now)) }
{
    if flag_value(value).is_some() {
        return Ok(());
    }
    if let Value::Number(_) = value {
        judge_natural(value, at)?;
    }
    Err(misfit(value, at, FLAGS))
}

/// The flaw of a value that is none of these, which are told in words. Another name is not supported.
pub(crate) fn unread(alloc: Global, value: &Value, at: usize, expected: &'static str) -> Stop
    ensures { StopsUnless (is_name value.now) at (value_toks value.now) result }
{
    unfit(alloc, value, at, expected, Remedy::Instead(expected))
}

/// The flaw of a value that is none of the byte orders that these words tell. Another byte order is converted.
pub(crate) fn unread_order(alloc: Global, value: &Value, at: usize, expected: &'static str) -> Stop
    ensures { StopsUnless (is_name value.now) at (value_toks value.now) result }
{
    let remedy = match word_value(value) {
        Some(word) if names_order(word.as_str()) => Remedy::Conversion,
        _ => Remedy::Instead(expected),
    };
    unfit(alloc, value, at, expected, remedy)
}

/// The same, and what can be done about another name.
fn unfit(alloc: Global, value: &Value, at: usize, expected: &'static str, remedy: Remedy) -> Stop
    ensures { StopsUnless (is_name value.now) at (value_toks value.now) result }
{
    match value {
        Value::Name(name) => Stop::unsupported(alloc, at, name, remedy),
        Value::Number(_) | Value::Text(_) => misfit(value, at, expected),
    }
}
