//! Each call once, on gates whose rows are worked by hand.

use crate::target;
use qq_base::GateId;
use std::test::Fail;

#[test]
fn finds_u_and_a_controlled_s(rt: HostRuntime) -> Result<(), Fail> {
    let table = target();
    let u = table.by_name(b"U").ok_or("U")?;
    let row = table.row(GateId(26));
    assert_eq!(rt; u, GateId(26));
    assert_eq!(rt; (row.params, row.qubits), (3, 1));
    let inverse = table.inverse(GateId(26)).ok_or("no inverse")?;
    assert_eq!(rt; inverse.order, [0, 2, 1, 3]);
    let controlled = table.controlled(GateId(4)).ok_or("no control")?;
    assert_eq!(rt;
        (controlled.gate, controlled.turn),
        (GateId(19), Some(1073741824))
    );
    assert_eq!(rt; table.by_name(b"sxdg"), None);
    assert_eq!(rt; table.name(GateId(9)), "sxdg");
    Ok(())
}
