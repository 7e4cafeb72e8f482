//! The text of a configuration, by the places of its values.

ghost use Rattle.std.specs.Prelude.{◌≡◌, ◌≤◌, ℕ, drop, length, take, IfOk, IfSome, option_map, string_bytes};
ghost use Rattle.serde_json.specs.View.{view};
ghost use Rattle.conf_tree.specs.Walk.{Reads};
ghost use Rattle.conf_fault.specs.Found.{StandsIn};
ghost use Rattle.conf_fault.specs.Names.{IsRead};
ghost use Rattle.conf_fault.specs.Explanation.{IsClosedUp};
ghost use Rattle.conf_fault.specs.Written.{IsWhole};

use crate::layers::Layer;
use crate::written::{Within, closed_up};
use serde_json::Value;
use std::alloc::{AllocError, Global};
use std::str;

/// The text of a configuration.
#[derive(Clone, Copy)]
pub(crate) struct Source<'t> {
    pub alloc: Global,
    pub text: &'t [u8],
}

impl<'t> Source<'t> {
    /// The outermost value.
    pub(crate) fn root(&self) -> Layer {
        let start = self.text.iter().position(|byte| !is_space(*byte));
        let at = start.unwrap_or(0);
        Layer {
            key: at,
            at,
            alias: None,
        }
    }

    /// The value that the whole text is, where it is JSON.
    pub(crate) fn tree(&self) -> Result<Option<Value>, AllocError>
        ensures { IfOk result (λ tree. IsRead self.now.text.now (option_map view tree)) }
    {
        match Value::from_slice(self.alloc, self.text) {
            Ok(tree) => Ok(Some(tree)),
            Err(error) if error.is_memory() => Err(AllocError),
            Err(_) => Ok(None),
        }
    }

    /// The bytes of the value that begins at a place.
    fn value_at(&self, at: usize) -> Source<'t>
        ensures { (count : ℕ) × (result.text.now ≡ take count (drop at self.now.text.now)) × IsWhole (drop at self.now.text.now) count }
    {
        let text = self.text.get(at..).unwrap_or(&[]);
        Source {
            text: &text[..value_length(text)],
            ..*self
        }
    }

    /// The value that begins at a place.
    pub(crate) fn value_of(&self, at: usize) -> Result<Option<Value>, AllocError>
        ensures { IfOk result (λ found. IfSome found (λ value. (count : ℕ) × Reads (take count (drop at self.now.text.now)) (view value))) }
    {
        self.value_at(at).tree()
    }

    /// The value at a place as it is written, without the white space between its parts.
    pub(crate) fn written(&self, at: usize) -> Result<Option<String>, AllocError>
        ensures { IfOk result (λ found. IfSome found (λ words. IsClosedUp self.now.text.now at (string_bytes words))) }
    {
        let value = self.value_at(at);
        if value.tree()?.is_none() {
            return Ok(None);
        }
        match str::from_utf8(value.text) {
            Ok(text) => Ok(Some(closed_up(self.alloc, text)?)),
            Err(_) => Ok(None),
        }
    }

    /// The text that the value at a place is.
    pub(crate) fn text_of(&self, at: usize) -> Result<Option<String>, AllocError>
        ensures { IfOk result (λ found. IfSome found (λ word. StandsIn self.now.text.now (string_bytes word))) }
    {
        if !self.is(at, b'"') {
            return Ok(None);
        }
        match self.value_of(at)? {
            Some(Value::String(text)) => Ok(Some(text)),
            _ => Ok(None),
        }
    }

    /// Whether the value at a place begins with this byte.
    pub(crate) fn is(&self, at: usize, byte: u8) -> bool {
        self.text.get(at) == Some(&byte)
    }

    /// The members of the object, or the items of the list, that opens with this bracket. What does not has none.
    pub(crate) fn children(&self, value: Layer, bracket: u8) -> Result<Vec<Layer>, AllocError> {
        let mut children: Vec<Layer> = Vec::new(self.alloc);
        if !self.is(value.at, bracket) {
            return Ok(children);
        }
        let mut name = None;
        let mut end = value.at;
        for at in value.at..self.text.len() {
            let byte = self.text[at];
            if at == value.at || at < end || is_space(byte) || byte == b',' {
                continue;
            }
            match byte {
                b'}' | b']' => break,
                // What stands before a colon is the name of what stands behind it.
                b':' => name = children.pop(),
                _ => {
                    end = at + value_length(&self.text[at..]);
                    let key = name.take().map_or(at, |name| name.at);
                    children.push(Layer { key, at, ..value })?;
                }
            }
        }
        Ok(children)
    }

    /// The member of this name, where an object stands. Of equal names the last one counts.
    pub(crate) fn member(&self, object: Layer, name: &str) -> Result<Option<Layer>, AllocError> {
        let members = self.children(object, b'{')?;
        for member in members.iter().rev() {
            let key = self.text_of(member.key)?;
            if key.is_some_and(|key| key.as_str() == name) {
                return Ok(Some(*member));
            }
        }
        Ok(None)
    }

    /// The names of an object's members.
    pub(crate) fn names(&self, object: Layer) -> Result<Vec<String>, AllocError> {
        let mut names = Vec::new(self.alloc);
        let members = self.children(object, b'{')?;
        for member in members.iter() {
            if let Some(name) = self.text_of(member.key)? {
                names.push(name)?;
            }
        }
        Ok(names)
    }

    /// The property of the trace type to which these names lead.
    pub(crate) fn property(&self, names: &[&str]) -> Result<Option<Layer>, AllocError> {
        let mut value = self.root();
        for name in ["trace", "type"].iter().chain(names) {
            let Some(member) = self.member(value, *name)? else {
                return Ok(None);
            };
            value = member;
        }
        Ok(Some(value))
    }
}

/// White space of JSON.
pub(crate) fn is_space(byte: u8) -> bool {
    matches!(byte, b' ' | b'\t' | b'\n' | b'\r')
}

/// How many bytes of a text the JSON value is with which the text begins.
pub(crate) fn value_length(text: &[u8]) -> usize
    ensures within { result ≤ length text.now }
    ensures whole { IsWhole text.now result }
{
    let mut depth = 0usize;
    let mut within = Within::Between;
    for at in 0..text.len() {
        let byte = text[at];
        match (within, byte) {
            (Within::Text, b'"') if depth == 0 => return at + 1,
            (Within::Between, b'{' | b'[') => depth = depth.saturating_add(1),
            (Within::Between, b'}' | b']') if depth <= 1 => return at + depth,
            (Within::Between, b'}' | b']') => depth -= 1,
            (Within::Between, b',' | b' ' | b'\t' | b'\n' | b'\r') if depth == 0 => return at,
            _ => {}
        }
        within = within.behind(char::from(byte));
    }
    text.len()
}
