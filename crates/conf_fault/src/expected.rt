//! What the table expects of a value, in words, and the word among those allowed that is most like one that is not.

ghost use Rattle.std.specs.Prelude.{◌≡◌, ◌++◌, ◌<◌, ◌⊎◌, ◌↔◌, IfOk, IsTrue, OnOk, map, option_map, reverse, string_bytes};
ghost use Rattle.conf_fault.specs.Explanation.{Adds};
ghost use Rattle.conf_fault.specs.Expected.{classes_at as words_of_classes_at, described as words_of_place, expected_words, holder_words as words_of_holder, listed, range_words, text_words};
ghost use Rattle.conf_fault.specs.Wanted.{IsNearest, IsNearestOf, few_listed, first_difference, gap, likeness};

use crate::found::Found;
use crate::shown::push_cut;
use conf_table::{Content, Entries, Keys, Place, class_words, entries, words_in};
use std::alloc::{AllocError, Global};

/// Adds what a value is where the path leads.
#[tactic(auto, unfolding(crate::specs::Expected::content_words))]
pub(crate) fn push_expected(said: &mut String, found: &Found<'_>) -> Result<(), AllocError>
    ensures { OnOk result (string_bytes said.new ≡ string_bytes said.old ++ expected_words found.now.content found.now.position) }
{
    let alloc = found.source.alloc;
    let Some(content) = found.content else {
        return said.push_str("what this place allows");
    };
    match content {
        Content::Whole { low, high } => push_range(alloc, said, low, high),
        Content::PowerOfTwo { high } => said.push_str(format!(in alloc;
            "a power of two, {high} at most"
        )?.as_str()),
        Content::Flag | Content::OneFlag => said.push_str("true or false"),
        Content::Text { most_bytes } => push_text(alloc, said, most_bytes),
        Content::ClockName => said.push_str("the name of a clock type"),
        Content::Identifier => said.push_str("a UUID as text"),
        Content::IdentifierOrAuto => said.push_str("a UUID as text, or `auto`"),
        Content::Word(choice) => push_words(said, words_in(choice)),
        Content::Class => push_words(said, classes_at(found)?.as_slice()),
        Content::WholeOrText {
            low,
            high,
            most_bytes,
        } => {
            push_range(alloc, said, low, high)?;
            said.push_str(", or ")?;
            push_text(alloc, said, most_bytes)
        }
        Content::Level { high } => {
            push_range(alloc, said, 0, high)?;
            said.push_str(", or the name of a log level alias")
        }
        Content::At(place) => said.push_str(described(place)),
        Content::Anything => said.push_str("any value"),
    }
}

#[tactic(auto, unfolding(crate::specs::Expected::range_words))]
fn push_range(alloc: Global, said: &mut String, low: i128, high: i128) -> Result<(), AllocError>
    ensures { OnOk result (string_bytes said.new ≡ string_bytes said.old ++ range_words low high) }
{
    said.push_str(format!(in alloc; "a whole number from {low} to {high}")?.as_str())
}

#[tactic(auto, unfolding(crate::specs::Expected::text_words))]
fn push_text(alloc: Global, said: &mut String, most_bytes: u64) -> Result<(), AllocError>
    ensures { OnOk result (string_bytes said.new ≡ string_bytes said.old ++ text_words most_bytes) }
{
    said.push_str(format!(in alloc;
        "a text of {most_bytes} bytes at most, without control characters but newline and tab"
    )?.as_str())
}

/// Adds words, each cut.
pub(crate) fn push_words(said: &mut String, words: &[&str]) -> Result<(), AllocError>
    ensures { OnOk result (string_bytes said.new ≡ string_bytes said.old ++ listed (map (λ w. w.now) words.now)) }
{
    let Some((first, others)) = words.split_first() else {
        return said.push_str("none");
    };
    said.push_str("`")?;
    push_cut(said, *first)?;
    for word in others {
        said.push_str("`, `")?;
        push_cut(said, *word)?;
    }
    said.push('`')
}

/// The most names that are listed.
const MOST_NAMES: usize = 20;

/// Adds the first of some names, and how many more there are.
pub(crate) fn push_names(said: &mut String, alloc: Global, names: &[&str]) -> Result<(), AllocError>
    ensures { OnOk result (string_bytes said.new ≡ string_bytes said.old ++ few_listed (map (λ n. n.now) names.now)) }
{
    if names.len() <= MOST_NAMES {
        return push_words(said, names);
    }
    push_words(said, &names[..MOST_NAMES])?;
    let more = names.len() - MOST_NAMES;
    said.push_str(format!(in alloc; " and {more} more")?.as_str())
}

/// Adds the word that is nearest to a text, if there is one.
pub(crate) fn push_nearest(said: &mut String, text: &str, words: &[&str]) -> Result<(), AllocError>
    ensures { OnOk result (Adds (IsNearest text.now (map (λ w. w.now) words.now)) (string_bytes said.old) (string_bytes said.new)) }
{
    let Some(word) = nearest(text, words, text.len() / 2) else {
        return Ok(());
    };
    said.push_str("; the nearest is `")?;
    push_cut(said, word)?;
    said.push('`')
}

/// The word of which more bytes than the floor are alike with a text, and most, and among several such that whose length differs least.
pub(crate) fn nearest<'w>(text: &str, words: &[&'w str], floor: usize) -> Option<&'w str>
    ensures { IsNearestOf floor text.now (map (λ w. w.now) words.now) (option_map (λ w. w.now) result) }
{
    let mut nearest = None;
    let mut most = floor;
    let mut least = 0usize;
    for word in words {
        let alike = likeness(text.as_bytes(), word.as_bytes());
        let gap = gap(text, *word);
        if is_nearer(alike, gap, most, least) {
            most = alike;
            least = gap;
            nearest = Some(*word);
        }
    }
    nearest
}

/// Whether a word with so many bytes alike and such a gap is nearer than the best so far.
fn is_nearer(alike: usize, gap: usize, most: usize, least: usize) -> bool
    ensures { IsTrue result ↔ ((most < alike) ⊎ ((alike ≡ most) × (gap < least))) }
{
    alike > most || (alike == most && gap < least)
}

/// How many bytes longer or shorter one word is than another.
fn gap(word: &str, other: &str) -> usize
    ensures { result ≡ gap word.now other.now }
{
    let longer = word.len().saturating_sub(other.len());
    let shorter = other.len().saturating_sub(word.len());
    longer + shorter
}

/// How much of two words is alike, in bytes: what they have in common at their beginnings and at their ends.
fn likeness(word: &[u8], other: &[u8]) -> usize
    ensures { result ≡ likeness word.now other.now }
{
    let shorter = word.len().min(other.len());
    let front = first_difference(word, other).unwrap_or(shorter);
    let back = last_difference(word, other).unwrap_or(shorter);
    front.saturating_add(back).min(shorter)
}

/// The first place at which two words differ, as far as both go.
fn first_difference(word: &[u8], other: &[u8]) -> Option<usize>
    ensures { result ≡ first_difference word.now other.now }
{
    word.iter()
        .zip(other)
        .position(|(byte, second)| *byte != *second)
}

/// The same from their ends on.
fn last_difference(word: &[u8], other: &[u8]) -> Option<usize>
    ensures { result ≡ first_difference (reverse word.now) (reverse other.now) }
{
    let mut backs = word.iter().rev().zip(other.iter().rev());
    backs.position(|(byte, second)| *byte != *second)
}

/// The words of the classes that may stand where the path leads.
pub(crate) fn classes_at(found: &Found<'_>) -> Result<Vec<&'static str>, AllocError>
    ensures { IfOk result (λ words. map (λ w. w.now) words.items ≡ words_of_classes_at found.now.position) }
{
    let position = found.position;
    let classes = class_words()
        .iter()
        .filter(|(_, class)| position.admits(*class));
    classes.map(|(word, _)| *word).collect(found.source.alloc)
}

/// What stands at a place.
#[tactic(auto, unfolding(crate::specs::Expected::described))]
fn described(place: Place) -> &'static str
    ensures { result.now ≡ words_of_place place }
{
    match place {
        Place::StructureType => "a structure field type, or the name of an alias of one",
        Place::FieldType => "a field type, or the name of an alias",
        Place::MemberType => "a field type that is no structure, or the name of an alias of one",
        Place::ElementType | Place::DynamicElementType =>
            "a field type that is neither a structure nor a dynamic array, or the name of an alias of one",
        Place::Feature =>
            "true, false, an unsigned integer field type, or the name of an alias of one",
        Place::SizeFeature =>
            "true, an unsigned integer field type, or the name of an alias of one: a packet has its sizes",
        Place::MagicFeature =>
            "true, false, an unsigned integer field type of 32 bits, or the name of an alias of one",
        Place::IdentifierFeature =>
            "true, false, a static array field type of 16 unsigned integers of 8 bits with alignment 8, or the name of an alias of one",
        Place::Entry => "an object of one property, the member's name",
        Place::Member => "the name of an alias, or an object with `field-type`",
        Place::Range => "a whole number, or a list of the lowest and the highest of a range",
        Place::Scalar => "a value",
        Place::Ignored => "any value",
        _ => holder_words(entries(place)),
    }
}

/// A list, or a map or another object.
fn holder_words(entries: Option<Entries>) -> &'static str
    ensures { result.now ≡ words_of_holder entries }
{
    match entries {
        Some(entries) if entries.keys == Keys::Index => "a list",
        _ => "an object",
    }
}
