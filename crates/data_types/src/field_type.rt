//! The types of fields.

ghost use Rattle.std.specs.Prelude.{◌≡◌, IfOk, IfErr};
ghost use Rattle.data_types.specs.FieldTypes.{chain_of};

use crate::{EnumType, IntType};
use plain_lists::Duplicate;
use std::alloc::{AllocError, AllocFailed, Global};
use std::marker::Model;

/// The type of a field: of a member of a structure, or of the elements of an array.
#[cycle(field_type)]
#[derive(Debug, Drop)]
pub enum FieldType {
    Int(IntType),
    Enum(EnumType),
    /// Bytes in UTF-8 and one zero byte after them (CTF 1.8.3, section 4.2.5).
    Str,
    /// As many elements as the number says (CTF 1.8.3, section 4.2.3).
    Static(Element, u32),
}

/// The type of an array's elements, seen as the lengths of the arrays in it, from the outermost inwards, and what is no array.
#[cycle(field_type)]
#[derive(Debug, Drop)]
pub struct Element {
    inner: Box<FieldType>,
}

impl Model for Element {
    ghost use Rattle.data_types.specs.Chain.{Chain};

    ghost Value = { Chain };

    ghost use Rattle.std.specs.Prelude.{length};
    ghost use Rattle.data_types.specs.FieldTypes.{chain_of};

    ghost view = { λ e. chain_of e.inner.value };

    ghost size = { λ c. length c.lengths };

    ghost use Rattle.data_types.specs.ElementFalls.{element_falls};
    ghost use Rattle.std.proofs.Common.{arith};

    ghost size_decreases = { λ e h. omega (arith, element_falls e.inner.value) };
}

impl FieldType {
    /// An equal type in memory of its own.
    #[cycle(copy_field_type)]
    pub fn copy(&self, alloc: Global) -> Result<FieldType, AllocError>
        ensures { IfOk result (λ t. t ≡ self.now) }
    {
        match self {
            FieldType::Int(int) => Ok(FieldType::Int(int.copy(alloc)?)),
            FieldType::Enum(enumeration) => Ok(FieldType::Enum(enumeration.copy(alloc)?)),
            FieldType::Str => Ok(FieldType::Str),
            FieldType::Static(element, length) => Ok(FieldType::Static(
                element.copy(alloc)?,
                *length,
            )),
        }
    }
}

impl Element {
    /// The element type that is held in memory of its own. A refusal of memory hands it back.
    pub fn new(alloc: Global, inner: FieldType) -> Result<Element, AllocFailed<FieldType>>
        ensures ok { IfOk result (λ e. e ≡ chain_of inner) }
        ensures handed_back { IfErr result (λ e. e.value ≡ inner) }
    {
        Ok(Element {
            inner: Box::new(alloc, inner)?,
        })
    }

    /// The element type in this box. It takes no memory.
    pub fn from_box(inner: Box<FieldType>) -> Element
        ensures { result ≡ chain_of inner.value }
    {
        Element { inner }
    }

    /// The element type as a box, without a copy.
    pub fn into_box(self) -> Box<FieldType>
        ensures { chain_of result.value ≡ self }
    {
        let Self { inner } = self;
        inner
    }

    /// The type of an element; of an array of arrays, that of the inner array.
    pub fn field_type(&self) -> &FieldType
        ensures { chain_of result.now ≡ self.now }
    {
        &self.inner
    }

    /// An equal element type in memory of its own.
    #[cycle(copy_field_type)]
    pub fn copy(&self, alloc: Global) -> Result<Element, AllocError>
        ensures { IfOk result (λ e. e ≡ self.now) }
    {
        let inner = self.inner.copy(alloc)?;
        Ok(Element::new(alloc, inner)?)
    }
}
