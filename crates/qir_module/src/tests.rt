//! The table of functions, at the last of its gates.

use crate::{Function, Kind};
use qq_base::GateId;
use std::test::Fail;

#[test]
fn finds_the_controlled_u(rt: HostRuntime) -> Result<(), Fail> {
    let function = Function::by_name(b"__quantum__qis__cu_turn__body").ok_or("no name")?;
    assert_eq!(rt; function, Function::of_gate(GateId(29)));
    let row = function.row().ok_or("no row")?;
    assert_eq!(rt; row.name, "__quantum__qis__cu_turn__body");
    assert_eq!(rt; row.takes.len(), 6);
    assert_eq!(rt; row.takes[3], Kind::Number);
    assert_eq!(rt; row.takes[4], Kind::Qubit);
    Ok(())
}
