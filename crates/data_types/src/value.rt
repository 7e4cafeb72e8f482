//! The values of fields.

ghost use Rattle.std.specs.Prelude.{◌≡◌, ◌<◌, ◌≤◌, ◌↔◌, ◌++◌, ◌∷◌, [], ℕ, List, Some, length, map, slice_get, slice_set, option_map, IfOk, IfErr, OnOk, OnErr, IsTrue};
ghost use Rattle.std.specs.Bool.{OnTrue, OnFalse};
ghost use Rattle.data_types.specs.Datum as datum;
ghost use Rattle.data_types.specs.Datum.{list_in};
ghost use Rattle.data_types.specs.Values.{datum_of, data_of};

use plain_lists::Bytes;
use std::alloc::{AllocError, AllocFailed, Global};
use std::marker::Model;
use std::mem;

/// The value of a field.
#[cycle(value)]
#[derive(Debug, Drop)]
pub enum Value {
    /// Of an unsigned integer or enumeration.
    Unsigned(u64),
    /// Of a signed integer or enumeration.
    Signed(i64),
    /// Of a string.
    Text(Bytes),
    /// Of a static or dynamic array.
    List(Values),
}

/// Values one after the other, seen as a list: of an array's elements, of a structure's members in their order,
/// or of the arguments of a tracing call.
#[cycle(value)]
#[derive(Debug, Drop)]
pub struct Values {
    items: Vec<Value>,
}

impl Model for Values {
    ghost use Rattle.std.specs.Prelude.{List};
    ghost use Rattle.std.specs.Coded.{coded_list};
    ghost use Rattle.data_types.specs.Datum.{Datum, datum_code};

    ghost Value = { List Datum };

    ghost coded = { coded_list datum_code };

    ghost use Rattle.data_types.specs.Datum.{depth_of};
    ghost use Rattle.data_types.specs.Values.{data_of};

    ghost view = { λ a. data_of a.items.items };

    ghost size = { depth_of };

    ghost use Rattle.data_types.specs.ValuesFall.{values_fall};
    ghost use Rattle.std.proofs.Common.{arith};

    ghost size_decreases = { λ a h. omega (arith, values_fall a.items.items) };
}

impl Value {
    /// The values of a list. None of any other value.
    pub fn as_list(&self) -> Option<&Values>
        ensures { option_map (λ vs. vs.now) result ≡ list_in (datum_of self.now) }
    {
        match self {
            Value::List(values) => Some(values),
            Value::Unsigned(_) | Value::Signed(_) | Value::Text(_) => None,
        }
    }

    /// An equal value in memory of its own.
    #[cycle(copy)]
    pub fn copy(&self, alloc: Global) -> Result<Value, AllocError>
        ensures { IfOk result (λ v. v ≡ self.now) }
    {
        match self {
            Value::Unsigned(number) => Ok(Value::Unsigned(*number)),
            Value::Signed(number) => Ok(Value::Signed(*number)),
            Value::Text(bytes) => Ok(Value::Text(bytes.copy(alloc)?)),
            Value::List(values) => Ok(Value::List(values.copy(alloc)?)),
        }
    }
}

impl Values {
    /// No values. It takes no memory.
    pub fn new(alloc: Global) -> Values
        ensures { result ≡ [] }
    {
        Values {
            items: Vec::new(alloc),
        }
    }

    /// The values of this vector, with its capacity. It takes no memory.
    pub fn from_vec(items: Vec<Value>) -> Values
        ensures { result ≡ data_of items.items }
    {
        Values { items }
    }

    /// The values as a vector, with their capacity. It takes no memory.
    pub fn into_vec(self) -> Vec<Value>
        ensures { data_of result.items ≡ self }
    {
        let Self { items } = self;
        items
    }

    /// The values, in their order.
    pub fn as_slice(&self) -> &[Value]
        ensures { data_of result.now ≡ self.now }
    {
        self.items.as_slice()
    }

    /// The number of values; a list counts as one.
    pub fn len(&self) -> usize
        ensures { result ≡ length self.now }
    {
        self.items.len()
    }

    /// Whether there is no value.
    pub fn is_empty(&self) -> bool
        ensures { IsTrue result ↔ (self.now ≡ []) }
    {
        self.items.is_empty()
    }

    /// The value at this index, from 0 on. None where there are no more values.
    pub fn get(&self, index: usize) -> Option<&Value>
        ensures { option_map (λ v. datum_of v.now) result ≡ slice_get self.now index }
    {
        self.items.get(index)
    }

    /// Adds a value at the end. A refusal of memory hands it back.
    pub fn push(&mut self, value: Value) -> Result<(), AllocFailed<Value>>
        ensures ok { OnOk result (self.new ≡ self.old ++ datum_of value ∷ []) }
        ensures err { OnErr result (self.new ≡ self.old) }
        ensures handed_back { IfErr result (λ e. e.value ≡ value) }
    {
        self.items.push(value)
    }

    /// Puts a value in the place of another, which it answers. It takes no memory.
    pub fn replace(&mut self, index: usize, value: Value) -> Value
        requires { index < length self.old }
        ensures replaced { self.new ≡ slice_set self.old index (datum_of value) }
        ensures answered { slice_get self.old index ≡ Some (datum_of result) }
    {
        mem::replace(&mut self.items[index], value)
    }

    /// Puts an unsigned number in the place of a value. It takes no memory.
    pub fn set_unsigned(&mut self, index: usize, number: u64)
        requires { index < length self.old }
        ensures { self.new ≡ slice_set self.old index (datum.Unsigned number) }
    {
        self.items[index] = Value::Unsigned(number);
    }

    /// Puts a signed number in the place of a value. It takes no memory.
    pub fn set_signed(&mut self, index: usize, number: i64)
        requires { index < length self.old }
        ensures { self.new ≡ slice_set self.old index (datum.Signed number) }
    {
        self.items[index] = Value::Signed(number);
    }

    /// Puts these bytes in the place of a text's, within its capacity: it never takes memory.
    /// The answer is false where the value is no text, or has no room: bytes that are no more than the text's always have it.
    pub fn refill_text(&mut self, index: usize, bytes: &[u8]) -> bool
        requires { index < length self.old }
        ensures filled { OnTrue result (self.new ≡ slice_set self.old index (datum.Text bytes.now)) }
        ensures no_room { OnFalse result (self.new ≡ self.old) }
        ensures has_room { (held : List ℕ) → slice_get self.old index ≡ Some (datum.Text held) → length bytes.now ≤ length held → IsTrue result }
        ensures text { IsTrue result → (held : List ℕ) × (slice_get self.old index ≡ Some (datum.Text held)) }
    {
        match &mut self.items[index] {
            Value::Text(text) => text.refill(bytes),
            Value::Unsigned(_) | Value::Signed(_) | Value::List(_) => false,
        }
    }

    /// Removes every value and keeps the capacity.
    pub fn clear(&mut self)
        ensures { self.new ≡ [] }
    {
        self.items.clear();
    }

    /// An equal list in memory of its own.
    #[cycle(copy)]
    pub fn copy(&self, alloc: Global) -> Result<Values, AllocError>
        ensures { IfOk result (λ vs. vs ≡ self.now) }
    {
        let mut copied = Vec::with_capacity(alloc, self.len())?;
        for value in &self.items {
            copied.push(value.copy(alloc)?)?;
        }
        Ok(Values { items: copied })
    }
}
