//! What a member means: an integer, an enumeration or a string, in as many arrays as it has brackets
//! (CTF 1.8.3, sections 4.1.8, 4.2.3 to 4.2.5).

ghost use Rattle.std.specs.Prelude.{◌≡◌, ◌<◌, length, true, false, Some, None, option_map, IfOk};
ghost use Rattle.tsdl_meaning.specs.Words.{Leaf, is_some, meant_by, field_of, encoding_words, encoding_value, text_meaning, kind_meaning, is_unsigned, length_place, bracketed, member_meaning, text_leaf, IsLengthAt};

use crate::array::{are_lengths, arrays_of, counts_of, have_bits};
use crate::enumeration::enum_meaning;
use crate::integer::int_meaning;
use crate::known::Known;
use crate::lookup::{attr, has_only};
use crate::value::{Meant, word_value};
use ctf_types::{FieldType, Length, ListOf, MemberType, Members};
use std::alloc::Global;
use tsdl_grammar::{Attribute, Bracket, Kind, MemberTree, Value};

/// The attributes that a string may have.
pub(crate) const STRING_ATTRIBUTES: [&[&str]; 1] = [&["encoding"]];

/// The same in words.
pub(crate) const STRING_PARTS: &str = "`encoding`";

/// The type of a member behind those before it.
#[tactic(auto, unfolding(tsdl_grammar::specs::MemberMeaning::member_meaning))]
pub(crate) fn member_meaning(
    alloc: Global,
    known: &Known,
    before: &Members,
    member: &MemberTree,
) -> Meant<MemberType>
    ensures { IfOk result (λ t. t ≡ member_meaning known.now before.now member.now) }
{
    let field = meant!(kind_meaning(alloc, known, &member.kind)?);
    bracketed(alloc, before, field, member.brackets.as_slice())
}

/// The type of a member before its brackets.
#[tactic(auto, unfolding(tsdl_grammar::specs::MemberMeaning::kind_meaning))]
fn kind_meaning(alloc: Global, known: &Known, kind: &Kind) -> Meant<FieldType>
    ensures { IfOk result (λ t. t ≡ option_map field_of (kind_meaning known.now kind.now)) }
{
    match kind {
        Kind::Integer(attributes) => {
            Ok(int_meaning(alloc, known, attributes.as_slice())?.map(FieldType::Int))
        }
        Kind::Enumeration(attributes, entries) => {
            let int = meant!(int_meaning(alloc, known, attributes.as_slice())?);
            Ok(enum_meaning(alloc, int, entries)?.map(FieldType::Enum))
        }
        Kind::Text(attributes) => { Ok(is_text(attributes).then_some(FieldType::Str)) }
    }
}

/// Whether a string has these attributes: an encoding and no other.
#[tactic(auto, unfolding(tsdl_grammar::specs::MemberMeaning::text_meaning))]
fn is_text(attributes: &Option<ListOf<Attribute>>) -> bool
    ensures { text_leaf result ≡ text_meaning attributes.now }
{
    match attributes {
        None => true,
        Some(attributes) => {
            let attributes = attributes.as_slice();
            has_only(&STRING_ATTRIBUTES, attributes)
                && attr("encoding", attributes).is_none_or(is_encoding)
        }
    }
}

/// Whether a value is the word of an encoding that is read.
pub(crate) fn is_encoding(value: &Value) -> bool
    ensures { result ≡ is_some (encoding_value value.now) }
{
    word_value(value).is_some_and(|word| is_encoding_word(word.as_str()))
}

/// The words of `is_encoding_word`.
pub(crate) const ENCODINGS: &str = "`UTF8`, `utf8`, `ASCII`, `ascii` or `none`";

#[tactic(auto, using(crate::proofs::WordTables::other_word))]
fn is_encoding_word(word: &str) -> bool
    ensures { result ≡ is_some (meant_by encoding_words word.now) }
{
    matches!(word, "UTF8" | "utf8" | "ASCII" | "ascii" | "none")
}

/// A field in its arrays. A name in the first bracket makes it a sequence.
#[tactic(auto, unfolding(tsdl_grammar::specs::MemberMeaning::bracketed))]
fn bracketed(
    alloc: Global,
    before: &Members,
    field: FieldType,
    brackets: &[Bracket],
) -> Meant<MemberType>
    ensures { (leaf : Leaf) → field ≡ field_of leaf → IfOk result (λ t. t ≡ bracketed before.now leaf brackets.now) }
{
    match brackets {
        [] => Ok(Some(MemberType::Plain(field))),
        [Bracket::Count(_), ..] => {
            let lengths = meant!(counts_of(alloc, brackets)?);
            holds!(are_lengths(lengths.as_slice()));
            let array = arrays_of(alloc, field, lengths.as_slice())?;
            Ok(Some(MemberType::Plain(array)))
        }
        [Bracket::Member(name), inner @ ..] => {
            let lengths = meant!(counts_of(alloc, inner)?);
            let place = meant!(length_place(before, name.as_str()));
            holds!(are_lengths(lengths.as_slice()) && have_bits(lengths.as_slice()));
            let element = arrays_of(alloc, field, lengths.as_slice())?;
            Ok(Some(MemberType::Dyn(element, Length::At(place))))
        }
    }
}

/// The place of the unsigned integer member of this name among those before.
pub(crate) fn length_place(before: &Members, name: &str) -> Option<usize>
    ensures { result ≡ length_place before.now name.now }
{
    for index in 0..before.len() {
        if is_length(before, index, name) {
            return Some(index);
        }
    }
    None
}

/// Whether the member at this index has this name and is an unsigned integer.
fn is_length(before: &Members, index: usize, name: &str) -> bool
    requires { index < length before.now }
    ensures { IsLengthAt before.now name.now index result }
{
    name == before.name_at(index) && is_unsigned(before.member_at(index))
}

/// Whether a member is an unsigned integer.
pub(crate) fn is_unsigned(member: &MemberType) -> bool
    ensures { result ≡ is_unsigned member.now }
{
    matches!(member, MemberType::Plain(FieldType::Int(int)) if !int.is_signed())
}
