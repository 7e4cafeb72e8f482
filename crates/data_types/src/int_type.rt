//! Integer field types.

ghost use Rattle.std.specs.Prelude.{◌≡◌, ◌↔◌, ◌<◌, ◌≤◌, ◌%◌, ℕ, Some, None, option_map, IfOk, IfSome, IsSome, IsTrue};
ghost use Rattle.data_types.specs.Alignment.{IsAlignment};

use crate::Base;
use plain_lists::{Duplicate, Text, copy_text};
use std::alloc::{AllocError, Global};

/// An integer of 1 to 64 bits (CTF 1.8.3, section 4.1.5).
///
/// The size and the alignment are in bits. The alignment is a power of two up to 4,096: a divisor of 4,096.
/// A mapped integer carries values of the clock type of that name.
#[derive(Debug, Drop)]
pub struct IntType {
    size: u8,
    align: u32,
    signed: bool,
    base: Base,
    clock: Option<Text>,
    ghost not_empty: { 0 < size },
    ghost at_most_64: { size ≤ 64 },
    ghost positive: { 0 < align },
    ghost power_of_two: { 4096 % align ≡ 0 },
}

impl IntType {
    /// An integer type without a clock. None where the size is not 1 to 64 bits, or the alignment is no power of two up to 4,096 bits.
    pub fn new(size: u8, align: u32, signed: bool, base: Base) -> Option<IntType>
        ensures accepted { IsSome result ↔ ((0 < size) × (size ≤ 64) × IsAlignment align) }
        ensures size { IfSome result (λ t. t.size ≡ size) }
        ensures align { IfSome result (λ t. t.align ≡ align) }
        ensures signed { IfSome result (λ t. t.signed ≡ signed) }
        ensures base { IfSome result (λ t. t.base ≡ base) }
        ensures no_clock { IfSome result (λ t. t.clock ≡ None) }
    {
        if size == 0 || size > 64 || align == 0 || 4096 % align != 0 {
            return None;
        }
        Some(IntType {
            size,
            align,
            signed,
            base,
            clock: None,
        })
    }

    /// The same type, mapped to the clock type of this name.
    pub fn with_clock(self, clock: Text) -> IntType
        ensures mapped { result.clock ≡ Some clock }
        ensures same { (result.size ≡ self.size) × (result.align ≡ self.align) × (result.signed ≡ self.signed) × (result.base ≡ self.base) }
    {
        IntType {
            size: self.size,
            align: self.align,
            signed: self.signed,
            base: self.base,
            clock: Some(clock),
        }
    }

    /// The size in bits, 1 to 64.
    pub fn size(&self) -> u8
        ensures is { result ≡ self.now.size }
        ensures not_empty { 0 < result }
        ensures at_most_64 { result ≤ 64 }
    {
        self.size
    }

    /// The alignment in bits, a power of two up to 4,096.
    pub fn align(&self) -> u32
        ensures is { result ≡ self.now.align }
        ensures aligned { IsAlignment result }
    {
        self.align
    }

    /// Whether the numbers are signed, in two's complement.
    pub fn is_signed(&self) -> bool
        ensures { result ≡ self.now.signed }
    {
        self.signed
    }

    /// The base in which a reader prints the numbers.
    pub fn base(&self) -> Base
        ensures { result ≡ self.now.base }
    {
        self.base
    }

    /// The name of the clock type whose values the numbers are, if they are a clock's.
    pub fn clock(&self) -> Option<&Text>
        ensures { option_map (λ t. t.now) result ≡ self.now.clock }
    {
        self.clock.as_ref()
    }
}

impl Duplicate for IntType {
    fn copy(&self, alloc: Global) -> Result<IntType, AllocError> {
        Ok(IntType {
            size: self.size,
            align: self.align,
            signed: self.signed,
            base: self.base,
            clock: copy_text(&self.clock, alloc)?,
        })
    }
}
