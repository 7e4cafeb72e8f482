//! What faults of a configuration say: those of each kind stand in the tables, and what a command says of one in the cases.

use crate::tests::rows::same;
use conf_fault::{explain_fault, json_place};
use conf_tree::{ConfFault, FaultKind};
use std::test::Fail;

#[test]
fn prints_faults(rt: HostRuntime) -> Result<(), Fail> {
    let alloc = rt.alloc();
    let inner = ConfFault::here(alloc, FaultKind::TwoOrders).inside(alloc, 12);
    let fault = inner.in_property(alloc, "members");
    same(
        &rt,
        format!(in alloc; "{fault}")?.as_str(),
        "members/12: two byte orders: expected only one of `trace-byte-order` and `native-byte-order`",
        "a kind at its place",
    );
    // the place of want of memory says nothing
    let memory = ConfFault::here(alloc, FaultKind::OutOfMemory).inside(alloc, 12);
    same(
        &rt,
        format!(in alloc; "{memory}")?.as_str(),
        "out of memory",
        "want of memory",
    );
    Ok(())
}

#[test]
fn explains_a_fault_and_places_another(rt: HostRuntime) -> Result<(), Fail> {
    let alloc = rt.alloc();
    let fault = ConfFault::here(alloc, FaultKind::WrongKind).in_property(alloc, "trace");
    let said = explain_fault(alloc, b"{\"trace\":1}", &fault)?;
    let expected = "line 1, column 10: trace: 1: expected an object";
    same(&rt, said.as_str(), expected, "no object");
    let place = json_place(alloc, b"{\n  a: 1}")?;
    same(
        &rt,
        (place.line, place.column),
        (2, 3),
        "a name without quotes",
    );
    Ok(())
}
