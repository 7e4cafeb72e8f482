//! Names, and what stands under a name: attributes and scopes are looked up by their words, and no name stands twice.

ghost use Rattle.std.specs.Prelude.{◌≡◌, map, option_map, IfOk};
ghost use Rattle.tsdl_meaning.specs.Words.{list_any, words_of, same_words, is_word, is_among, attr, attr_names, attrs_in, scopes_in, scope, are_distinct, has_parts, no_two, has_only, number_or_zero, clock_name, names_of, texts_of, scope_names, eq_by_cmp};

use crate::value::{name_value, natural_or};
use ctf_types::Text;
use std::alloc::{AllocError, Global};
use std::collections::BTreeSet;
use tsdl_grammar::{Attribute, Item, Name, Structure, Value};

/// Whether a name is this one word.
pub(crate) fn is_word(word: &str, name: &Name) -> bool
    ensures { result ≡ is_word word.now name.now }
{
    name.first.as_str() == word && name.rest.is_empty()
}

/// Whether two lists of words are the same.
fn same_texts(left: &[Text], right: &[Text]) -> bool
    ensures { result ≡ same_words left.now right.now }
{
    left.len() == right.len()
        && left
            .iter()
            .zip(right)
            .all(|(x, y)| x.as_str() == y.as_str())
}

/// Whether two names are the same.
fn is_same(left: &Name, right: &Name) -> bool
    ensures { result ≡ same_words (words_of left.now) (words_of right.now) }
{
    left.first.as_str() == right.first.as_str()
        && same_texts(left.rest.as_slice(), right.rest.as_slice())
}

/// Whether texts are these words.
fn are_words(texts: &[Text], words: &[&str]) -> bool
    ensures { result ≡ same_words texts.now (texts_of words.now) }
{
    texts.len() == words.len()
        && texts
            .iter()
            .zip(words)
            .all(|(text, word)| text.as_str() == *word)
}

/// Whether a name has these words.
pub(crate) fn has_words(name: &Name, words: &[&str]) -> bool
    ensures { result ≡ same_words (words_of name.now) (texts_of words.now) }
{
    match words {
        [] => false,
        [first, others @ ..] => {
            name.first.as_str() == *first && are_words(name.rest.as_slice(), others)
        }
    }
}

/// Whether the words of a name are among these.
pub(crate) fn is_name_among(names: &[&[&str]], name: &Name) -> bool
    ensures { result ≡ is_among (names_of names.now) (words_of name.now) }
{
    names.iter().any(|words| has_words(name, words))
}

/// The value of the attribute of this name.
pub(crate) fn attr<'a>(word: &str, attributes: &'a [Attribute]) -> Option<&'a Value>
    ensures { option_map (λ v. v.now) result ≡ attr word.now attributes.now }
{
    for attribute in attributes {
        if is_word(word, &attribute.name) {
            return Some(&attribute.value);
        }
    }
    None
}

/// Whether an attribute has this name.
pub(crate) fn has_attr(name: &Name, attributes: &[Attribute]) -> bool
    ensures { result ≡ list_any (same_words (words_of name.now)) (attr_names attributes.now) }
{
    attributes
        .iter()
        .any(|attribute| is_same(name, &attribute.name))
}

/// Whether each attribute is one of these, and none stands twice.
pub(crate) fn has_only(allowed: &[&[&str]], attributes: &[Attribute]) -> bool
    ensures { result ≡ has_only (names_of allowed.now) attributes.now }
{
    let mut rest = attributes;
    while let [attribute, others @ ..] = rest {
        if !is_name_among(allowed, &attribute.name) || has_attr(&attribute.name, others) {
            return false;
        }
        rest = others;
    }
    true
}

/// The value of the attribute of this name in a block.
pub(crate) fn attr_in<'a>(word: &str, items: &'a [Item]) -> Option<&'a Value>
    ensures { option_map (λ v. v.now) result ≡ attr word.now (attrs_in items.now) }
{
    for item in items {
        if let Item::Attribute(attribute) = item {
            if is_word(word, &attribute.name) {
                return Some(&attribute.value);
            }
        }
    }
    None
}

/// The number of an attribute of a block, 0 where it is left out.
pub(crate) fn number_or_zero(word: &str, items: &[Item]) -> Option<u64>
    ensures { result ≡ number_or_zero word.now (attrs_in items.now) }
{
    natural_or(0, attr_in(word, items))
}

/// The name that a clock or an event has.
pub(crate) fn name_in(items: &[Item]) -> Option<&Text>
    ensures { option_map (λ t. t.now) result ≡ clock_name items.now }
{
    name_value(attr_in("name", items)?)
}

/// The structure of the scope of this name in a block.
pub(crate) fn scope_in<'a>(words: &[&str], items: &'a [Item]) -> Option<&'a Structure>
    ensures { option_map (λ s. s.now) result ≡ scope (texts_of words.now) (scopes_in items.now) }
{
    for item in items {
        if let Item::Scope(scope) = item {
            if has_words(&scope.name, words) {
                return Some(&scope.structure);
            }
        }
    }
    None
}

/// Whether a scope of a block has this name.
fn has_scope_in(name: &Name, items: &[Item]) -> bool
    ensures { result ≡ list_any (same_words (words_of name.now)) (scope_names (scopes_in items.now)) }
{
    for item in items {
        if let Item::Scope(scope) = item {
            if is_same(name, &scope.name) {
                return true;
            }
        }
    }
    false
}

/// The words of a name.
fn words_of<'a>(alloc: Global, name: &'a Name) -> Result<Vec<&'a str>, AllocError>
    ensures { IfOk result (λ words. texts_of words.items ≡ words_of name.now) }
{
    let mut words = Vec::with_capacity(alloc, name.rest.len().saturating_add(1))?;
    words.push(name.first.as_str())?;
    for word in name.rest.as_slice() {
        words.push(word.as_str())?;
    }
    Ok(words)
}

/// Whether no attribute of a block stands twice.
fn has_attrs_once(alloc: Global, items: &[Item]) -> Result<bool, AllocError>
    ensures { IfOk result (λ once. once ≡ are_distinct (attr_names (attrs_in items.now))) }
{
    let mut names = Vec::with_capacity(alloc, items.len())?;
    for item in items {
        if let Item::Attribute(attribute) = item {
            names.push(words_of(alloc, &attribute.name)?)?;
        }
    }
    are_distinct(alloc, names)
}

/// Whether no attribute of a block stands twice, nor a scope, and each scope is one of these.
pub(crate) fn has_parts(
    alloc: Global,
    allowed: &[&[&str]],
    items: &[Item],
) -> Result<bool, AllocError>
    ensures { IfOk result (λ has. has ≡ has_parts (names_of allowed.now) items.now) }
{
    let mut rest = items;
    while let [item, others @ ..] = rest {
        if let Item::Scope(scope) = item {
            if !is_name_among(allowed, &scope.name) || has_scope_in(&scope.name, others) {
                return Ok(false);
            }
        }
        rest = others;
    }
    has_attrs_once(alloc, items)
}

/// Whether no two of these keys are equal.
pub(crate) fn are_distinct<K: Ord + Drop>(alloc: Global, keys: Vec<K>) -> Result<bool, AllocError>
    ensures { IfOk result (λ distinct. distinct ≡ no_two (eq_by_cmp K.cmp) keys.items) }
{
    let mut left = keys;
    let mut behind = BTreeSet::new(alloc);
    while let Some(key) = left.pop() {
        if !behind.insert(key)? {
            return Ok(false);
        }
    }
    Ok(true)
}
