//! Statements, and what stands in them.

use crate::expr::{BinaryOp, ExprId, OperandRef, TypeRef};
use crate::items::Items;
use qq_base::Span;

/// A statement, by its place in the list of statements.
#[derive(Clone, Copy, Debug, PartialEq, Eq)]
pub struct StmtId(pub u32);

/// A statement. Its place is that of its first token, and `close` that of its closing brace where there
/// is one, else its own place.
#[derive(Debug, Drop)]
pub struct Stmt {
    pub kind: StmtKind,
    pub at: Span,
    pub close: Span,
}

/// A name that is declared, by its number, and where.
#[derive(Clone, Copy, Debug, PartialEq, Eq)]
pub struct Declared {
    pub name: u32,
    pub at: Span,
}

/// A value: an expression or a measurement.
#[derive(Debug, Drop)]
pub enum ValueRef {
    Expr(ExprId),
    Measure(OperandRef),
}

/// A gate modifier, with its place.
#[derive(Clone, Copy, Debug, PartialEq, Eq)]
pub enum Modifier {
    Inv(Span),
    /// With its exponent.
    Pow(ExprId, Span),
    /// With its number of controls, where one is written.
    Ctrl(Option<ExprId>, Span),
}

/// What a statement is.
#[derive(Debug, Drop)]
pub enum StmtKind {
    /// `include "stdgates.inc";`
    Include,
    Qubit(TypeRef, Declared),
    Variable(TypeRef, Declared, Option<ValueRef>),
    Constant(TypeRef, Declared, ExprId),
    Output(TypeRef, Declared),
    /// The operands are joined.
    Let(Declared, Items<OperandRef>),
    Gate {
        name: Declared,
        params: Items<Declared>,
        qubits: Items<Declared>,
        body: Items<StmtId>,
    },
    Def {
        name: Declared,
        params: Items<(TypeRef, Declared)>,
        result: Option<TypeRef>,
        body: Items<StmtId>,
    },
    /// The gate of a `gphase` call is the name `gphase`.
    GateCall {
        mods: Items<Modifier>,
        gate: Declared,
        args: Items<ExprId>,
        operands: Items<OperandRef>,
    },
    Barrier(Items<OperandRef>),
    Reset(OperandRef),
    /// The operand, and the target where one is written.
    Measure(OperandRef, Option<OperandRef>),
    /// The target, the operator where one is written, and the value.
    Assign(OperandRef, Option<BinaryOp>, ValueRef),
    /// A subroutine call by itself.
    Call(ExprId),
    /// The condition, and the two branches.
    If(ExprId, Items<StmtId>, Items<StmtId>),
    While(ExprId, Items<StmtId>),
    ForRange {
        ty: TypeRef,
        name: Declared,
        start: ExprId,
        step: Option<ExprId>,
        stop: ExprId,
        body: Items<StmtId>,
    },
    ForSet {
        ty: TypeRef,
        name: Declared,
        members: Items<ExprId>,
        body: Items<StmtId>,
    },
    Break,
    Continue,
    End,
    Return(Option<ValueRef>),
}
