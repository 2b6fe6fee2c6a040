use super::*;
use crate::expr::{Base, ExprKind, TypeRef, UnaryOp};
use crate::stmt::{Declared, StmtKind, ValueRef};
use crate::walks::{any_loops, occurs};
use std::test::Fail;

const PLACE: Span = Span { line: 1, column: 1 };

/// The program `int[8] a = -8;`, whose width is the 8 of its value, with names and nodes of its own.
fn sample(alloc: Global) -> Result<Program, Fail> {
    let names = vec![in alloc;
        Word {
            items: vec![in alloc; b'a']?
        },
    ]?;
    let eight = Expr {
        kind: ExprKind::Whole(8),
        at: PLACE,
    };
    let minus = Expr {
        kind: ExprKind::Unary(UnaryOp::Negate, ExprId(0)),
        at: PLACE,
    };
    let exprs = vec![in alloc; eight, minus]?;
    let ty = TypeRef {
        base: Base::Int,
        width: Some(ExprId(0)),
        at: PLACE,
    };
    let name = Declared { name: 0, at: PLACE };
    let value = Some(ValueRef::Expr(ExprId(1)));
    let stmt = Stmt {
        kind: StmtKind::Variable(ty, name, value),
        at: PLACE,
        close: PLACE,
    };
    let stmts = vec![in alloc; stmt]?;
    let top = Items {
        items: vec![in alloc; StmtId(0)]?,
    };
    Ok(Program::new(alloc, names, exprs, stmts, top, PLACE)?)
}

#[test]
fn a_program_is_read(rt: HostRuntime) -> Result<(), Fail> {
    let program = sample(rt.alloc())?;
    assert_eq!(rt; program.depth(), 1);
    assert_eq!(rt; program.names.len(), 1);
    assert_eq!(rt; program.exprs.len(), 2);
    assert_eq!(rt; program.stmts.len(), 1);
    assert_eq!(rt; program.name(0).items.as_slice(), b"a".as_slice());
    assert_eq!(rt; program.expr(ExprId(1)).at, PLACE);
    assert_eq!(rt; program.stmt(StmtId(0)).close, PLACE);
    assert!(rt; !occurs(&program, ExprId(1), b"a"));
    assert!(rt; !any_loops(&program, &program.top));
    Ok(())
}
