//! Copies, beside what was copied.

use crate::tests::expected::same;
use crate::tests::fixtures::arguments;
use ctf_types::{Args, Base, Duplicate, EnumType, FieldType, IntType, ListOf, Mapping, Text};
use std::alloc::{AllocError, Global};
use std::test::Fail;

fn copied(alloc: Global, args: &Args, field: &FieldType) -> Result<String, AllocError> {
    let args = args.copy(alloc)?;
    let field = field.copy(alloc)?;
    format!(in alloc; "{args:?}\n{field:?}")
}

static COPIED: &str =
    r#"Args { common: Values { items: [Unsigned(1)] }, specific: Values { items: [Signed(-2)] }, payload: Values { items: [Text(Bytes { bytes: [99] })] } }
Enum(EnumType { int: IntType { size: 3, align: 1, signed: true, base: Dec, clock: None }, mappings: ListOf { items: [Mapping { label: Text { text: "low" }, low: -4, high: 1 }] } })"#;

/// The enumeration has 3 bits and one mapping.
#[test]
fn copies_arguments_and_an_enumeration(rt: HostRuntime) -> Result<(), Fail> {
    let int = IntType::new(3, 1, true, Base::Dec).ok_or("no such integer")?;
    let label = Text::from_str(rt.alloc(), "low")?;
    let mut mappings = ListOf::new(rt.alloc());
    mappings.push(Mapping {
        label,
        low: -4,
        high: 1,
    })?;
    let field = FieldType::Enum(EnumType { int, mappings });
    let args = arguments(rt.alloc(), 1, -2, b"c")?;
    let shown = copied(rt.alloc(), &args, &field)?;
    same(&rt, shown.as_str(), COPIED, "copies");
    Ok(())
}
