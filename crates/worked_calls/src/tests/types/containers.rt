//! The calls of the containers, each once with ample memory.

use crate::tests::expected::{holds, same};
use crate::tests::fixtures::{Kind, structure};
use ctf_types::{Base, Bytes, Element, FieldType, IntType, Members, Value, Values};
use std::test::Fail;

#[test]
fn bytes_of_a_vector_and_back(rt: HostRuntime) -> Result<(), Fail> {
    let alloc = rt.alloc();
    holds(&rt, Bytes::new(alloc).is_empty(), "no bytes");
    let mut bytes = Bytes::from_vec(Vec::from_slice(alloc, b"ab")?);
    bytes.extend_from_slice(b"cde")?;
    same(&rt, bytes.as_slice(), b"abcde".as_slice(), "extended");
    holds(&rt, bytes.refill(b"xyz"), "room for three bytes");
    same(&rt, bytes.as_slice(), b"xyz".as_slice(), "refilled");
    bytes.clear();
    holds(&rt, bytes.is_empty(), "cleared");
    holds(&rt, bytes.refill(b"again"), "its room stays");
    let vector = bytes.into_vec();
    same(&rt, vector.as_slice(), b"again".as_slice(), "a vector");
    Ok(())
}

#[test]
fn values_are_replaced_and_cleared(rt: HostRuntime) -> Result<(), Fail> {
    let mut values = Values::new(rt.alloc());
    values.push(Value::Unsigned(1))?;
    values.push(Value::Unsigned(2))?;
    if values.len() != 2 {
        return Err("not two values".into());
    }
    let second = values.replace(1, Value::Signed(-3));
    let was_second = matches!(&second, Value::Unsigned(2));
    holds(&rt, was_second, "what was replaced");
    let mut values = Values::from_vec(values.into_vec());
    let is_replaced = matches!(values.get(1), Some(Value::Signed(-3)));
    holds(&rt, is_replaced, "what replaced it");
    values.clear();
    holds(&rt, values.is_empty(), "cleared");
    values.push(Value::Unsigned(4))?;
    let is_there = matches!(values.get(0), Some(Value::Unsigned(4)));
    holds(&rt, is_there, "a value after that");
    Ok(())
}

#[test]
fn a_box_of_an_element_and_a_map_of_members_and_back(rt: HostRuntime) -> Result<(), Fail> {
    let int = IntType::new(5, 2, true, Base::Dec).ok_or("no such integer")?;
    let element = Element::from_box(Box::new(rt.alloc(), FieldType::Int(int))?);
    let is_five = matches!(element.field_type(), FieldType::Int(five) if five.size() == 5);
    holds(&rt, is_five, "the element");
    let inner = element.into_box();
    let is_aligned = matches!(&*inner, FieldType::Int(five) if five.align() == 2);
    holds(&rt, is_aligned, "what was in the box");
    let pair = structure(rt.alloc(), &[Kind::Int(8, 8, false), Kind::Str])?;
    same(&rt, pair.members.index_of("b"), Some(1), "the second");
    let map = pair.members.into_map();
    same(&rt, map.len(), 2, "both");
    let members = Members::from_map(map);
    same(&rt, members.index_of("a"), Some(0), "the first");
    Ok(())
}
