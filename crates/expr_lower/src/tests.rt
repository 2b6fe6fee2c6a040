//! Expressions that are written out by hand.

use crate::lower_expr;
use core_ir::{CellKind, Core, CoreExpr, CoreOp};
use qir_module::{Instr, Operand};
use std::test::Fail;

/// (c0 + 5) * (c0 + 5), c0 + 5, 5 and c0, behind an instruction that is there.
#[test]
fn shared_expressions_are_lowered_once(rt: HostRuntime) -> Result<(), Fail> {
    let alloc = rt.alloc();
    let core = Core {
        cells: vec![in alloc; CellKind::Number]?,
        exprs: vec![in alloc;
            CoreExpr::Cell(0),
            CoreExpr::Number(5),
            CoreExpr::Op(CoreOp::Add, 0, 1),
            CoreExpr::Op(CoreOp::Mul, 2, 2),
        ]?,
        stmts: Vec::new(alloc),
        body: Vec::new(alloc),
        outputs: Vec::new(alloc),
        labels: Vec::new(alloc),
        qubits: 0,
    };
    assert!(rt; core.well_formed());
    let mut next = 7;
    let mut body = vec![in alloc;
        Instr::Zext {
            register: 6,
            from: Operand::Fixed(0)
        },
    ]?;
    let cells = [Operand::Register(3)];
    let operands = lower_expr(alloc, &core, &[3, 2, 1, 0], &cells, &mut next, &mut body)?;
    let wanted = [
        Operand::Register(8),
        Operand::Register(7),
        Operand::Fixed(5),
        Operand::Register(3),
    ];
    assert_eq!(rt; operands.as_slice(), wanted.as_slice());
    assert_eq!(rt; next, 9);
    assert_eq!(rt; body.len(), 3);
    Ok(())
}
