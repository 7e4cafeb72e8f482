//! The walk along a fault's path over the text.

ghost use Rattle.std.specs.Prelude.{◌≡◌, IfOk, OnOk, is_some, option_and_then, option_map, string_bytes};
ghost use Rattle.serde_json.specs.Find.{as_str};
ghost use Rattle.serde_json.specs.View.{view};
ghost use Rattle.conf_table.specs.Classes.{class_named as place_of_word};
ghost use Rattle.conf_fault.specs.Found.{IsHolder, IsInherited, IsNext, Leads, content_behind as content_one_further, data_of, end_of, holder_there as holder_told, laid_content as content_laid, outermost, position_of as place_of_content, value_behind as value_one_further};
ghost use Rattle.conf_fault.specs.Wanted.{IsTextThere};

use crate::layers::{Layer, Layering, can_be_field_type, holds_field_type};
use crate::source::Source;
use conf_table::{Content, Place, class_place, content, entries};
use conf_tree::{FaultKind, Step};
use serde_json::Value;
use std::alloc::AllocError;

/// How far a path leads in the text.
#[derive(Drop)]
pub(crate) struct Found<'t> {
    pub source: Source<'t>,
    /// The tree of the text, where it is JSON.
    pub tree: Option<&'t Value>,
    /// The value that the tree has there, where it is not inherited.
    pub value: Option<&'t Value>,
    /// The value there, before what it is laid over.
    pub layers: Vec<Layer>,
    /// The name of an alias that stands there itself, where the value is that of the alias.
    pub name: Option<Layer>,
    /// What holds the value of the last step: a position of field types, or what it is.
    pub position: Place,
    /// The same, by the class of the field type.
    pub holder: Place,
    /// What the table says of the value at the end of the path.
    pub content: Option<Content>,
    /// Whether the path leads to a value, and not only to what would hold it.
    pub is_there: bool,
}

impl<'t> Found<'t> {
    /// The nearest value there.
    pub(crate) fn layer(&self) -> Layer {
        self.layers.first().copied().unwrap_or_default()
    }

    /// The name of an alias that stands where the path ends, if a fault of this kind is of what the alias is used for, and not of what it holds.
    pub(crate) fn used_name(&self, kind: FaultKind) -> Option<Layer> {
        match kind {
            FaultKind::NoSuchAlias => None,
            _ => self.name,
        }
    }

    /// The text that stands there.
    pub(crate) fn text(&self) -> Result<Option<String>, AllocError>
        ensures { IfOk result (λ text. IsTextThere self.now.source.text.now (data_of self.now.value) (option_map string_bytes text)) }
    {
        let Some(value) = self.value else {
            return self.source.text_of(self.layer().at);
        };
        match value.as_str() {
            Some(text) => Ok(Some(String::from_str(self.source.alloc, text)?)),
            None => Ok(None),
        }
    }

    /// The place of the class that the field type there has, or its position where it has none.
    pub(crate) fn class(&self) -> Result<Place, AllocError> {
        let position = position_of(self.content);
        self.source.class_of(self.layers.as_slice(), position)
    }

    /// The whole number that the field type there has under a name.
    pub(crate) fn number(&self, name: &str) -> Result<Option<u64>, AllocError> {
        for layer in self.layers.iter() {
            if let Some(member) = self.source.member(*layer, name)? {
                let value = self.source.value_of(member.at)?;
                return Ok(value.and_then(|value| value.as_u64()));
            }
        }
        Ok(None)
    }

    /// The first entry of the members list there that has this name, but the one at an index. None where the list is joined to others.
    pub(crate) fn other_entry(&self, own: usize, name: &str) -> Result<Option<usize>, AllocError> {
        if self.layers.len() > 1 {
            return Ok(None);
        }
        let entries = self.source.children(self.layer(), b'[')?;
        for index in 0..entries.len() {
            if index != own && self.source.member(entries[index], name)?.is_some() {
                return Ok(Some(index));
            }
        }
        Ok(None)
    }

    /// Whether the members lists there have an entry of this name.
    pub(crate) fn has_entry(&self, name: &str) -> Result<bool, AllocError> {
        for list in self.layers.iter() {
            if self.source.entry(*list, 0, name)?.is_some() {
                return Ok(true);
            }
        }
        Ok(false)
    }
}

impl<'t> Source<'t> {
    /// What stands where the path leads in the text with this tree, or the last value on the way that is there.
    pub(crate) fn find(
        &self,
        tree: Option<&'t Value>,
        path: &[Step],
    ) -> Result<Found<'t>, AllocError>
        ensures ends { IfOk result (λ found. Leads self.now.text.now (outermost (data_of tree.entry)) path.now (end_of found)) }
        ensures source { IfOk result (λ found. found.source ≡ self.now) }
    {
        let mut layers = Vec::new(self.alloc);
        layers.push(self.root())?;
        let mut found = Found {
            source: *self,
            tree,
            value: tree,
            layers,
            name: None,
            position: Place::Root,
            holder: Place::Root,
            content: Some(Content::At(Place::Root)),
            is_there: true,
        };
        let layering = Layering::of(*self)?;
        for index in 0..path.len() {
            self.step(&layering, &mut found, &path[index], path.get(index + 1))?;
        }
        Ok(found)
    }

    /// Goes one step further: in the table, and to the value where one is there.
    fn step(
        &self,
        layering: &Layering<'_>,
        found: &mut Found<'_>,
        step: &Step,
        next: Option<&Step>,
    ) -> Result<(), AllocError>
        ensures next { OnOk result (IsNext self.now.text.now step.now (is_some next.entry) (end_of found.old) (end_of found.new)) }
        ensures source { OnOk result (found.new.source ≡ found.old.source) }
    {
        let value = value_behind(found.value, step);
        let position = position_of(found.content);
        let holder = self.holder_at(found, position)?;
        let content = content_behind(holder, step, next.is_some());
        if found.is_there {
            let inner = self.inside(found.layers.as_slice(), holder, step, next)?;
            layering.go_in(found, inner, position_of(content))?;
        }
        found.value = value;
        found.position = position;
        found.holder = holder;
        found.content = content;
        Ok(())
    }

    /// The place that holds what is inside of the value found, which stands at this position.
    fn holder_at(&self, found: &Found<'_>, position: Place) -> Result<Place, AllocError>
        ensures { IfOk result (IsHolder self.now.text.now (data_of found.now.value) position) }
    {
        match holder_there(found.value, position) {
            Some(holder) => Ok(holder),
            None if found.is_there => self.class_of(found.layers.as_slice(), position),
            None => Ok(position),
        }
    }

    /// The place that a value at a position is: a field type by its class or the one that it inherits, where that is known.
    fn class_of(&self, layers: &[Layer], position: Place) -> Result<Place, AllocError>
        ensures { IfOk result (IsInherited self.now.text.now position) }
    {
        if !can_be_field_type(position) {
            return Ok(position);
        }
        for layer in layers {
            if let Some(class) = self.member(*layer, "class")? {
                return self.class_at(class.at, position);
            }
        }
        Ok(position)
    }

    /// The place of the class whose word stands in the text, or the position where there is no such class.
    fn class_at(&self, at: usize, position: Place) -> Result<Place, AllocError>
        ensures { IfOk result (IsInherited self.now.text.now position) }
    {
        let Some(word) = self.text_of(at)? else {
            return Ok(position);
        };
        Ok(class_place(word.as_str()).unwrap_or(position))
    }
}

impl<'t> Layering<'t> {
    /// Goes to the first of these values, where there is one, and to those that it is laid over.
    fn go_in(
        &self,
        found: &mut Found<'_>,
        inner: Vec<Layer>,
        place: Place,
    ) -> Result<(), AllocError>
        ensures end { end_of found.new ≡ end_of found.old }
        ensures source { found.new.source ≡ found.old.source }
    {
        let used = inner.first().copied();
        let layers = self.followed(inner, place)?;
        found.is_there = !layers.is_empty();
        found.name = used.filter(|name| layers.first().is_some_and(|layer| layer.at != name.at));
        if found.is_there {
            found.layers = layers;
        }
        Ok(())
    }
}

/// The value one step into another.
#[tactic(auto, unfolding(crate::specs::Found::value_behind))]
fn value_behind<'v>(value: Option<&'v Value>, step: &Step) -> Option<&'v Value>
    ensures { data_of result ≡ option_and_then (value_one_further step.now) (data_of value.entry) }
{
    match step {
        Step::Key(name) => value?.get(name.as_str()),
        Step::Index(index) => value?.get(*index),
    }
}

/// What holds what is inside of a value at a position, where the value itself tells: the position of what is no field type, or the place of the class
/// that a field type has itself.
#[tactic(auto, unfolding(crate::specs::Found::holder_there))]
fn holder_there(value: Option<&Value>, position: Place) -> Option<Place>
    ensures { result ≡ holder_told (data_of value.entry) position }
{
    if !can_be_field_type(position) {
        return Some(position);
    }
    let class = value?.get("class")?;
    Some(place_of_class(class).unwrap_or(position))
}

/// The place of the class whose word a value is.
fn place_of_class(class: &Value) -> Option<Place>
    ensures { result ≡ place_of_word (as_str (view class.now)) }
{
    class_place(class.as_str()?)
}

/// Where a value of this content stands. Of what the table says nothing of, nothing inside is told.
fn position_of(content: Option<Content>) -> Place
    ensures { result ≡ place_of_content content }
{
    match content {
        Some(content) => content.place(),
        None => Place::Ignored,
    }
}

/// What the table says of the value one step into a place.
fn content_behind(holder: Place, step: &Step, leads_on: bool) -> Option<Content>
    ensures { result ≡ content_one_further holder step.now leads_on }
{
    match step {
        Step::Key(name) => {
            let laid = laid_content(holder, name.as_str(), leads_on);
            content(holder, name.as_str()).or(laid)
        }
        Step::Index(_) => entries(holder).map(|entries| entries.content),
    }
}

/// What a property is that is laid over what a field type inherits before its class is looked at: members, and what stands in an element's field type.
#[tactic(auto, unfolding(crate::specs::Found::laid_content))]
fn laid_content(holder: Place, name: &str, leads_on: bool) -> Option<Content>
    ensures { result ≡ content_laid holder name.now leads_on }
{
    if !holds_field_type(holder) {
        return None;
    }
    if name == "members" {
        return content(Place::Structure, name);
    }
    if name == "element-field-type" && leads_on {
        return content(Place::StaticArray, name);
    }
    None
}
