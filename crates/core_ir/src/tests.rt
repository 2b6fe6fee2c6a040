//! Cores that are written out by hand.

use crate::{Body, CellKind, Core, CoreExpr, CoreOp, CoreStmt, GateArg, LeafCall, Output, Pairs};
use qq_base::{GateId, Label, QubitId};
use std::alloc::{AllocError, Global};
use std::test::Fail;

fn body(alloc: Global, items: &[u32]) -> Result<Body, AllocError> {
    Ok(Body {
        items: items.to_vec(alloc)?,
    })
}

/// while (c0 < 2) { c0 = c0 + 1; x q[1]; }, which leaves so many levels in place of going back
fn counting(alloc: Global, jump: CoreStmt, qubit: u32, sum: u32) -> Result<Core, AllocError> {
    let leaf = LeafCall {
        gate: GateId(0),
        args: [GateArg::Unused; 4],
        qubits: [QubitId(qubit), QubitId(0), QubitId(0)],
    };
    let pairs = Pairs {
        items: vec![in alloc; (0, 2)]?,
    };
    Ok(Core {
        cells: vec![in alloc; CellKind::Number]?,
        exprs: vec![in alloc;
            CoreExpr::Cell(0),
            CoreExpr::Number(1),
            CoreExpr::Op(CoreOp::Add, 0, sum),
            CoreExpr::Number(2),
            CoreExpr::Op(CoreOp::Slt, 0, 3),
        ]?,
        stmts: vec![in alloc;
            CoreStmt::Loop(body(alloc, &[1])?),
            CoreStmt::If(4, body(alloc, &[2, 3, 4])?, body(alloc, &[])?),
            CoreStmt::Assign(pairs),
            CoreStmt::Gate(leaf),
            jump,
        ]?,
        body: vec![in alloc; 0]?,
        outputs: vec![in alloc; Output::Number { label: 0, cell: 0 }]?,
        labels: vec![in alloc;
            Label {
                items: b"c\0".to_vec(alloc)?
            },
        ]?,
        qubits: 2,
    })
}

#[test]
fn cores_are_judged(rt: HostRuntime) -> Result<(), Fail> {
    let alloc = rt.alloc();
    assert!(rt; counting(alloc, CoreStmt::Again(0), 1, 1)?.well_formed());
    assert!(rt; counting(alloc, CoreStmt::Leave(0), 1, 1)?.well_formed());
    assert!(rt;
        !counting(alloc, CoreStmt::Leave(1), 1, 1)?.well_formed(),
        "a level too many"
    );
    assert!(rt;
        !counting(alloc, CoreStmt::Again(0), 2, 1)?.well_formed(),
        "no such qubit"
    );
    assert!(rt;
        !counting(alloc, CoreStmt::Again(0), 1, 2)?.well_formed(),
        "names itself"
    );
    assert!(rt;
        !counting(alloc, CoreStmt::Again(0), 1, 4)?.well_formed(),
        "names a later one"
    );
    Ok(())
}
