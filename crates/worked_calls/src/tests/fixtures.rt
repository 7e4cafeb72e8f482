//! Structures, values and configurations that rows say in short.

ghost use Rattle.std.specs.Prelude.{IfOk};
ghost use Rattle.ctf_types.specs.AllowedConfig.{IsConfig};
ghost use Rattle.ctf_types.specs.Laws.{IsAutomatic, AreAutomatic};

use conf_check::configure;
use ctf_types::{
    Args, Base, Bytes, Config, Element, FieldType, IntType, Length, MemberType, Members,
    StructType, Text, Value, Values,
};
use std::alloc::{AllocError, Global};
use std::test::Fail;

/// A member's type: integers by their size and alignment in bits, and whether they are signed.
#[derive(Clone, Copy)]
pub enum Kind {
    Int(u8, u32, bool),
    Str,
    /// A static array of so many unsigned integers.
    Array(u32, u8, u32),
    /// A dynamic array of unsigned integers.
    Dynamic(u8, u32),
}

fn field(size: u8, align: u32, signed: bool) -> Result<FieldType, Fail> {
    let int = IntType::new(size, align, signed, Base::Dec).ok_or("no such integer")?;
    Ok(FieldType::Int(int))
}

fn member(alloc: Global, kind: Kind) -> Result<MemberType, Fail>
    ensures { IfOk result (λ m. IsAutomatic m) }
{
    match kind {
        Kind::Int(size, align, signed) => Ok(MemberType::Plain(field(size, align, signed)?)),
        Kind::Str => Ok(MemberType::Plain(FieldType::Str)),
        Kind::Array(length, size, align) => {
            let element = Element::new(alloc, field(size, align, false)?)?;
            Ok(MemberType::Plain(FieldType::Static(element, length)))
        }
        Kind::Dynamic(size, align) => {
            Ok(MemberType::Dyn(field(size, align, false)?, Length::Auto))
        }
    }
}

/// One more member where there is a kind. Its name is not taken yet.
fn add(alloc: Global, members: &mut Members, name: &str, kind: Option<&Kind>) -> Result<(), Fail>
    requires { AreAutomatic members.old }
    ensures { AreAutomatic members.new }
{
    let Some(kind) = kind else {
        return Ok(());
    };
    if members.contains(name) {
        return Err("a name twice".into());
    }
    let member = member(alloc, *kind)?;
    let name = Text::from_str(alloc, name)?;
    Ok(members.push(name, member)?)
}

/// A structure of up to three members, named `a`, `b` and `c`.
pub fn structure(alloc: Global, kinds: &[Kind]) -> Result<StructType, Fail>
    ensures { IfOk result (λ s. AreAutomatic s.members) }
{
    let mut members = Members::new(alloc);
    add(alloc, &mut members, "a", kinds.get(0))?;
    add(alloc, &mut members, "b", kinds.get(1))?;
    add(alloc, &mut members, "c", kinds.get(2))?;
    Ok(StructType::new(members, 1).ok_or("no such alignment")?)
}

/// A value in a row.
#[derive(Clone, Copy)]
pub enum Datum {
    Unsigned(u64),
    Signed(i64),
    Text(&'static [u8]),
    /// A list of unsigned numbers.
    List(&'static [u64]),
}

pub fn values(alloc: Global, data: &[Datum]) -> Result<Values, AllocError> {
    let mut values = Values::new(alloc);
    for datum in data {
        values.push(value(alloc, *datum)?)?;
    }
    Ok(values)
}

fn value(alloc: Global, datum: Datum) -> Result<Value, AllocError> {
    match datum {
        Datum::Unsigned(number) => Ok(Value::Unsigned(number)),
        Datum::Signed(number) => Ok(Value::Signed(number)),
        Datum::Text(bytes) => Ok(Value::Text(Bytes::from_slice(alloc, bytes)?)),
        Datum::List(numbers) => Ok(Value::List(list(alloc, numbers)?)),
    }
}

fn list(alloc: Global, numbers: &[u64]) -> Result<Values, AllocError> {
    let mut values = Values::new(alloc);
    for number in numbers {
        values.push(Value::Unsigned(*number))?;
    }
    Ok(values)
}

/// Arguments of a number, a signed number and a text, one in each structure.
pub fn arguments(
    alloc: Global,
    unsigned: u64,
    signed: i64,
    text: &'static [u8],
) -> Result<Args, AllocError> {
    Ok(Args {
        common: values(alloc, &[Datum::Unsigned(unsigned)])?,
        specific: values(alloc, &[Datum::Signed(signed)])?,
        payload: values(alloc, &[Datum::Text(text)])?,
    })
}

/// The configuration that a text is.
pub fn configured(alloc: Global, text: &str) -> Result<Config, Fail>
    ensures { IfOk result (λ c. IsConfig c) }
{
    match configure(alloc, text.as_bytes(), None) {
        Ok(config) => Ok(config),
        Err(fault) => Err(Fail::new(fault)),
    }
}
