//! A core and ways that are written out by hand.

use crate::{CellState, Operands, assigned, header_phis, join_phis};
use core_ir::{Body, CellKind, Core, CoreExpr, CoreStmt, Pairs};
use qir_module::Operand;
use qq_base::QubitId;
use std::test::Fail;

#[test]
fn assigned_cells_ascend(rt: HostRuntime) -> Result<(), Fail> {
    let alloc = rt.alloc();
    let inner = Body {
        items: vec![in alloc; 1, 2]?,
    };
    let none = Body {
        items: vec![in alloc]?,
    };
    let pairs = Pairs {
        items: vec![in alloc; (2, 0), (0, 0)]?,
    };
    let core = Core {
        cells: vec![in alloc; CellKind::Truth; 4]?,
        exprs: vec![in alloc; CoreExpr::Truth(true)]?,
        stmts: vec![in alloc;
            CoreStmt::If(0, inner, none),
            CoreStmt::Assign(pairs),
            CoreStmt::Measure {
                qubit: QubitId(0),
                into: Some(2)
            },
        ]?,
        body: vec![in alloc; 0]?,
        outputs: vec![in alloc]?,
        labels: vec![in alloc]?,
        qubits: 1,
    };
    assert!(rt; core.well_formed());
    let cells = assigned(alloc, &core, [0].as_slice())?;
    assert_eq!(rt; cells.as_slice(), [0, 2].as_slice());
    Ok(())
}

#[test]
fn ways_are_joined(rt: HostRuntime) -> Result<(), Fail> {
    let alloc = rt.alloc();
    let left = CellState {
        block: 1,
        values: Operands::new(vec![in alloc; Operand::Fixed(0), Operand::Register(3)]?),
    };
    let right = CellState {
        block: 2,
        values: Operands::new(vec![in alloc; Operand::Fixed(1), Operand::Register(3)]?),
    };
    let mut next = 4;
    let kinds = [CellKind::Number, CellKind::Truth];
    let (phis, joined) = join_phis(alloc, &[left, right], &kinds, 3, &mut next)?;
    assert_eq!(rt; phis.len(), 1);
    assert_eq!(rt;
        joined.values.as_slice(),
        [Operand::Register(4), Operand::Register(3)].as_slice()
    );
    assert_eq!(rt; next, 5);
    let (phis, opened) = header_phis(alloc, &joined, &[1], &kinds, 4, &mut next)?;
    assert_eq!(rt; phis.len(), 1);
    assert_eq!(rt;
        opened.values.as_slice(),
        [Operand::Register(4), Operand::Register(5)].as_slice()
    );
    Ok(())
}
