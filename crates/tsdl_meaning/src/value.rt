//! What the values of attributes stand for.

ghost use Rattle.std.specs.Prelude.{◌≡◌, false, pos, option_map};
ghost use Rattle.tsdl_meaning.specs.Words.{natural, whole, signed_of, natural_value, whole_value, text_value, one_word, word_value, name_value, flag_value, flag_words, meant_by, with_default, optional, uuid_value};

use ctf_types::Text;
use std::alloc::AllocError;
use tsdl_grammar::{Name, Number, Sign, Value};
use uuid::Uuid;

/// What is meant, if anything is, where it is made of memory.
pub(crate) type Meant<T> = Result<Option<T>, AllocError>;

/// A number with its sign.
pub fn signed_of(number: Number) -> i128
    ensures { result ≡ signed_of number }
{
    match number.sign {
        Some(Sign::Minus) => -i128::from(number.literal),
        Some(Sign::Plus) | None => i128::from(number.literal),
    }
}

/// A number that is not below 0.
pub fn natural(number: Number) -> Option<u64>
    ensures { result ≡ natural number }
{
    u64::try_from(signed_of(number)).ok()
}

/// The numbers of `whole`.
pub(crate) const WHOLE: &str = "a number from -2^63 to 2^63 - 1";

/// A number from -2^63 to 2^63 - 1.
pub fn whole(number: Number) -> Option<i64>
    ensures { result ≡ whole number }
{
    i64::try_from(signed_of(number)).ok()
}

pub(crate) fn natural_value(value: &Value) -> Option<u64>
    ensures { result ≡ natural_value value.now }
{
    match value {
        Value::Number(number) => natural(*number),
        Value::Text(_) | Value::Name(_) => None,
    }
}

pub(crate) fn whole_value(value: &Value) -> Option<i64>
    ensures { result ≡ whole_value value.now }
{
    match value {
        Value::Number(number) => whole(*number),
        Value::Text(_) | Value::Name(_) => None,
    }
}

pub(crate) fn text_value(value: &Value) -> Option<&Text>
    ensures { option_map (λ t. t.now) result ≡ text_value value.now }
{
    match value {
        Value::Text(text) => Some(text),
        Value::Number(_) | Value::Name(_) => None,
    }
}

/// The only word of a name.
pub(crate) fn one_word(name: &Name) -> Option<&Text>
    ensures { option_map (λ t. t.now) result ≡ one_word name.now }
{
    name.rest.is_empty().then_some(&name.first)
}

pub(crate) fn word_value(value: &Value) -> Option<&Text>
    ensures { option_map (λ t. t.now) result ≡ word_value value.now }
{
    match value {
        Value::Name(name) => one_word(name),
        Value::Number(_) | Value::Text(_) => None,
    }
}

/// A name of a clock or an event: an identifier or a string.
pub(crate) fn name_value(value: &Value) -> Option<&Text>
    ensures { option_map (λ t. t.now) result ≡ name_value value.now }
{
    text_value(value).or(word_value(value))
}

/// What `flag_value` reads.
pub(crate) const FLAGS: &str = "`true`, `TRUE`, `1`, `false`, `FALSE` or `0`";

/// `true TRUE 1 false FALSE 0`.
#[tactic(auto, unfolding(tsdl_grammar::specs::AttributeValues::flag_value))]
pub(crate) fn flag_value(value: &Value) -> Option<bool>
    ensures { result ≡ flag_value value.now }
{
    match value {
        Value::Number(number) => match natural(*number)? {
            0 => Some(false),
            1 => Some(true),
            _ => None,
        },
        Value::Name(name) => flag_word(one_word(name)?.as_str()),
        Value::Text(_) => None,
    }
}

#[tactic(auto, using(crate::proofs::WordTables::other_word))]
fn flag_word(word: &str) -> Option<bool>
    ensures { result ≡ meant_by flag_words word.now }
{
    match word {
        "true" | "TRUE" => Some(true),
        "false" | "FALSE" => Some(false),
        _ => None,
    }
}

/// A string that an identifier of a trace or a clock parses from.
#[tactic(auto, unfolding(tsdl_grammar::specs::AttributeValues::uuid_value))]
pub(crate) fn uuid_value(value: &Value) -> Option<Uuid>
    ensures { result ≡ uuid_value value.now }
{
    match value {
        Value::Text(text) => Uuid::try_parse_ascii(text.as_bytes()).ok(),
        Value::Number(_) | Value::Name(_) => None,
    }
}

/// The number of an attribute that has a default.
pub(crate) fn natural_or(default: u64, value: Option<&Value>) -> Option<u64>
    ensures { result ≡ with_default default natural_value (option_map (λ v. v.now) value.entry) }
{
    value.map_or(Some(default), natural_value)
}

/// The flag of an attribute that is false where it is left out.
pub(crate) fn flag_or_false(value: Option<&Value>) -> Option<bool>
    ensures { result ≡ with_default false flag_value (option_map (λ v. v.now) value.entry) }
{
    value.map_or(Some(false), flag_value)
}

/// The identifier of an attribute that may be left out.
pub(crate) fn uuid_if_there(value: Option<&Value>) -> Option<Option<Uuid>>
    ensures { result ≡ optional uuid_value (option_map (λ v. v.now) value.entry) }
{
    value.map_or(Some(None), |value| uuid_value(value).map(Some))
}
