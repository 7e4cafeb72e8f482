//! What `integer { .. }` means (CTF 1.8.3, section 4.1.5).

ghost use Rattle.tsdl_meaning.specs.OfferedWords.{orders_offered, words_by};
ghost use Rattle.std.specs.Prelude.{◌≡◌, option_map, IfOk};
ghost use Rattle.tsdl_meaning.specs.Words.{meant_by, int_type, default_align, base_words, base_value, order_value, clock_value, is_mapping, int_meaning, texts_of};

use crate::known::Known;
use crate::lookup::{attr, has_only};
use crate::value::{
    Meant, flag_or_false, natural, natural_or, natural_value, one_word, word_value,
};
use ctf_types::{Base, ByteOrder, IntType, LARGEST_ALIGN, Text, is_among};
use std::alloc::Global;
use tsdl_grammar::{Attribute, Value};

/// The attributes that an integer may have.
pub(crate) const INTEGER_ATTRIBUTES: [&[&str]; 7] = [
    &["size"],
    &["align"],
    &["signed"],
    &["byte_order"],
    &["base"],
    &["map"],
    &["encoding"],
];

/// The same in words.
pub(crate) const INTEGER_PARTS: &str =
    "`size`, `align`, `signed`, `byte_order`, `base`, `map` or `encoding`";

/// The integer type that a list of attributes means.
#[tactic(auto, unfolding(tsdl_grammar::specs::IntegerMeaning::int_meaning))]
pub(crate) fn int_meaning(alloc: Global, known: &Known, attributes: &[Attribute]) -> Meant<IntType>
    ensures { IfOk result (λ t. t ≡ int_meaning known.now attributes.now) }
{
    holds!(has_only(&INTEGER_ATTRIBUTES, attributes));
    let size = meant!(natural_value(meant!(attr("size", attributes))));
    let align = meant!(natural_or(default_align(size), attr("align", attributes)));
    let signed = meant!(flag_or_false(attr("signed", attributes)));
    let own = known.order();
    let order = attr("byte_order", attributes);
    let _order = meant!(order.map_or(Some(own), |value| order_value(own, value)));
    let base = meant!(attr("base", attributes).map_or(Some(Base::Dec), base_value));
    let clock = match attr("map", attributes) {
        None => None,
        Some(value) => Some(meant!(clock_value(known, value)).copy(alloc)?),
    };
    Ok(int_type(size, align, signed, base, clock))
}

/// The integer type of these parts, where its size and alignment are in range.
fn int_type(size: u64, align: u64, signed: bool, base: Base, clock: Option<Text>) -> Option<IntType>
    ensures { result ≡ int_type size align signed base clock }
{
    if size > 64 || align > LARGEST_ALIGN {
        return None;
    }
    let plain = IntType::new(size as u8, align as u32, signed, base)?;
    match clock {
        None => Some(plain),
        Some(name) => Some(plain.with_clock(name)),
    }
}

/// 8 where the size is a multiple of 8, else 1.
fn default_align(size: u64) -> u64
    ensures { result ≡ default_align size }
{
    if size % 8 == 0 { 8 } else { 1 }
}

/// `native`, or the trace's own order.
#[tactic(auto, unfolding(tsdl_grammar::specs::IntegerMeaning::order_value))]
pub(crate) fn order_value(order: ByteOrder, value: &Value) -> Option<ByteOrder>
    ensures { result ≡ order_value order value.now }
{
    is_among(word_value(value)?.as_str(), order_words(Some(order))).then_some(order)
}

/// The words for the byte order of an integer, by the trace's own one.
pub(crate) fn order_words(trace: Option<ByteOrder>) -> &'static [&'static str]
    ensures { texts_of result.now ≡ words_by trace }
{
    match trace {
        None => &["native"],
        Some(ByteOrder::Little) => &["native", "le"],
        Some(ByteOrder::Big) => &["native", "be", "network"],
    }
}

/// The same in words.
#[tactic(auto, unfolding(crate::specs::OfferedWords::offered))]
pub(crate) fn orders_of(trace: Option<ByteOrder>) -> &'static str
    ensures { result.now ≡ orders_offered trace }
{
    match trace {
        None => "`native`",
        Some(ByteOrder::Little) => "`native` or `le`",
        Some(ByteOrder::Big) => "`native`, `be` or `network`",
    }
}

/// Whether a word is one for just one byte order, as `native` is not.
pub(crate) fn names_order(word: &str) -> bool {
    let is_little = is_among(word, order_words(Some(ByteOrder::Little)));
    is_little != is_among(word, order_words(Some(ByteOrder::Big)))
}

/// The numbers of the bases that an integer may have, in words.
pub(crate) const BASE_NUMBERS: &str = "2, 8, 10 or 16";

/// The same, and the words for them, of which some are shortened too.
pub(crate) const BASES: &str = "2, 8, 10, 16, `binary`, `octal`, `decimal` or `hexadecimal`";

#[tactic(auto, unfolding(tsdl_grammar::specs::IntegerMeaning::base_value))]
pub(crate) fn base_value(value: &Value) -> Option<Base>
    ensures { result ≡ base_value value.now }
{
    match value {
        Value::Number(number) => match natural(*number)? {
            2 => Some(Base::Bin),
            8 => Some(Base::Oct),
            10 => Some(Base::Dec),
            16 => Some(Base::Hex),
            _ => None,
        },
        Value::Name(name) => base_word(one_word(name)?.as_str()),
        Value::Text(_) => None,
    }
}

fn base_word(word: &str) -> Option<Base>
    ensures { result ≡ meant_by base_words word.now }
{
    match word {
        "binary" | "b" => Some(Base::Bin),
        "octal" | "oct" | "o" => Some(Base::Oct),
        "decimal" | "dec" | "d" | "i" | "u" => Some(Base::Dec),
        "hexadecimal" | "hex" | "x" | "X" | "p" => Some(Base::Hex),
        _ => None,
    }
}

/// The middle word of `clock.NAME.value`, where it names a clock.
#[tactic(auto, unfolding(tsdl_grammar::specs::IntegerMeaning::clock_value))]
pub(crate) fn clock_value<'a>(known: &Known, value: &'a Value) -> Option<&'a Text>
    ensures { option_map (λ t. t.now) result ≡ clock_value known.now.clocks value.now }
{
    match value {
        Value::Name(name) => match name.rest.as_slice() {
            [clock, last] => {
                let is_value = name.first.as_str() == "clock" && last.as_str() == "value";
                (is_value && known.has_clock(clock.as_str())).then_some(clock)
            }
            [] | [_] | [_, _, _, ..] => None,
        },
        Value::Number(_) | Value::Text(_) => None,
    }
}

/// Whether a value is `clock.NAME.value`.
pub(crate) fn is_mapping(value: &Value) -> bool
    ensures { result ≡ is_mapping value.now }
{
    match value {
        Value::Name(name) => match name.rest.as_slice() {
            [_, last] => name.first.as_str() == "clock" && last.as_str() == "value",
            [] | [_] | [_, _, _, ..] => false,
        },
        Value::Number(_) | Value::Text(_) => false,
    }
}
