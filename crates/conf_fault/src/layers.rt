//! Where the parts of a field type stand that inherits: a value, and what it is laid over.

ghost use Rattle.std.specs.Prelude.{◌≡◌};
ghost use Rattle.conf_fault.specs.Found.{holds_field_type, is_position};

use crate::source::Source;
use conf_table::Place;
use conf_tree::{MAX_VALUES, Step};
use std::alloc::AllocError;
use std::collections::BTreeMap;

/// A value as the text has it, which may be laid over others.
#[derive(Clone, Copy, Default)]
pub(crate) struct Layer {
    /// Where its name begins, and of an item where it itself does.
    pub key: usize,
    pub at: usize,
    /// Where the name of the alias begins in which it stands.
    pub alias: Option<usize>,
}

/// Whether the name of an alias or an object that inherits can stand here.
pub(crate) fn holds_field_type(place: Place) -> bool
    ensures { result ≡ holds_field_type place }
{
    place.is_class() || place == Place::Member || can_be_field_type(place)
}

/// Whether a field type of some class can stand at this position.
pub(crate) fn can_be_field_type(place: Place) -> bool
    ensures { result ≡ is_position place }
{
    place.admits(Place::Structure)
        || place.admits(Place::UnsignedInteger)
        || place.admits(Place::StaticArray)
}

/// A configuration's text, and where its aliases of field types stand by their names.
#[derive(Drop)]
pub(crate) struct Layering<'t> {
    source: Source<'t>,
    aliases: BTreeMap<String, Layer>,
}

impl<'t> Layering<'t> {
    /// Of equal names the last one counts.
    pub(crate) fn of(source: Source<'t>) -> Result<Layering<'t>, AllocError> {
        let mut aliases = BTreeMap::new(source.alloc);
        if let Some(map) = source.property(&["$field-type-aliases"])? {
            let members = source.children(map, b'{')?;
            for member in members.iter() {
                if let Some(name) = source.text_of(member.key)? {
                    drop(aliases.insert(name, *member)?);
                }
            }
        }
        Ok(Layering { source, aliases })
    }

    /// Of these values the first, and those that it is laid over in turn: aliases are followed, and bases.
    pub(crate) fn followed(
        &self,
        layers: Vec<Layer>,
        place: Place,
    ) -> Result<Vec<Layer>, AllocError> {
        if !holds_field_type(place) {
            return self.of_one_kind(layers, place);
        }
        let mut all = Vec::new(self.source.alloc);
        for layer in layers.iter() {
            let is_member_alias = place == Place::Member && self.source.is(layer.at, b'"');
            if is_member_alias {
                all.push(*layer)?;
            }
            if is_member_alias || !self.follow(*layer, &mut all)? {
                break;
            }
        }
        self.of_one_kind(all, place)
    }

    /// The first of these values, and those behind it up to the first of another kind: an object is laid over objects, a list over lists, and any
    /// other value over nothing.
    fn of_one_kind(&self, layers: Vec<Layer>, place: Place) -> Result<Vec<Layer>, AllocError> {
        let mut kept: Vec<Layer> = Vec::new(self.source.alloc);
        let mut kind = None;
        for layer in layers.iter() {
            let bracket = self.bracket(*layer, place);
            if !kept.is_empty() && (kind.is_none() || bracket != kind) {
                break;
            }
            kind = bracket;
            kept.push(*layer)?;
        }
        Ok(kept)
    }

    /// The bracket of an object or a list. A member that is the name of an alias stands for an object.
    fn bracket(&self, layer: Layer, place: Place) -> Option<u8> {
        match self.source.text.get(layer.at) {
            Some(b'"') if place == Place::Member => Some(b'{'),
            Some(b'{') => Some(b'{'),
            Some(b'[') => Some(b'['),
            _ => None,
        }
    }

    /// Adds a value and what it inherits from. False where nothing behind it counts any more. A chain of an accepted configuration has fewer links than
    /// its field type has values.
    fn follow(&self, first: Layer, all: &mut Vec<Layer>) -> Result<bool, AllocError> {
        let mut layer = first;
        let mut mark = first.at;
        for hop in 0..MAX_VALUES {
            if hop.is_power_of_two() {
                mark = layer.at;
            }
            let next = if self.source.is(layer.at, b'"') {
                self.alias_at(layer.at)?
            } else {
                all.push(layer)?;
                let base = self.source.member(layer, "$inherit")?;
                if base.is_none() {
                    return Ok(hop == 0 && self.source.is(layer.at, b'{'));
                }
                base
            };
            let Some(value) = next else {
                all.push(layer)?;
                return Ok(false);
            };
            if value.at == mark {
                break;
            }
            layer = value;
        }
        all.push(first)?;
        Ok(false)
    }

    /// The alias that the text at a place names.
    fn alias_at(&self, at: usize) -> Result<Option<Layer>, AllocError> {
        let Some(name) = self.source.text_of(at)? else {
            return Ok(None);
        };
        let alias = self.aliases.get(name.as_str());
        Ok(alias.map(|alias| Layer {
            alias: Some(alias.key),
            ..*alias
        }))
    }
}

impl<'t> Source<'t> {
    /// The values one step into these, nearest first.
    pub(crate) fn inside(
        &self,
        layers: &[Layer],
        place: Place,
        step: &Step,
        next: Option<&Step>,
    ) -> Result<Vec<Layer>, AllocError> {
        let is_of_members = place == Place::Members || place == Place::ExtraMembers;
        match (step, next) {
            (Step::Key(name), _) => self.named(layers, place, None, name.as_str()),
            (Step::Index(index), Some(Step::Key(name))) if is_of_members => {
                self.named(layers, place, Some(*index), name.as_str())
            }
            (Step::Index(index), _) if is_of_members => {
                self.items_of(&layers[..layers.len().min(1)], *index)
            }
            (Step::Index(index), _) => self.items_of(layers, *index),
        }
    }

    /// The members of this name. In members lists the entries of this name: each list's own at the index, or else the one that has the name.
    fn named(
        &self,
        layers: &[Layer],
        place: Place,
        index: Option<usize>,
        name: &str,
    ) -> Result<Vec<Layer>, AllocError> {
        let is_alias = place == Place::Member && name == "field-type";
        let mut found = Vec::new(self.alloc);
        for layer in layers {
            let value = match index {
                Some(index) => self.entry(*layer, index, name)?,
                None if is_alias && self.is(layer.at, b'"') => Some(*layer),
                None => self.member(*layer, name)?,
            };
            if let Some(value) = value {
                found.push(value)?;
            }
        }
        Ok(found)
    }

    /// The entry at an index of a list, where it has this name, or else the first one that has.
    pub(crate) fn entry(
        &self,
        list: Layer,
        index: usize,
        name: &str,
    ) -> Result<Option<Layer>, AllocError> {
        let items = self.children(list, b'[')?;
        for item in items.get(index).into_iter().chain(items.iter()) {
            if self.member(*item, name)?.is_some() {
                return Ok(Some(*item));
            }
        }
        Ok(None)
    }

    /// The item at an index of lists that are joined, the last of them first. What is no list has no items.
    fn items_of(&self, layers: &[Layer], index: usize) -> Result<Vec<Layer>, AllocError> {
        let mut found = Vec::new(self.alloc);
        let mut left = index;
        for layer in layers.iter().rev() {
            let items = self.children(*layer, b'[')?;
            if let Some(item) = items.get(left) {
                found.push(*item)?;
                break;
            }
            left -= items.len();
        }
        Ok(found)
    }
}
