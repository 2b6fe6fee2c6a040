//! The kinds of expressions.

ghost use Rattle.std.specs.Prelude.{◌≡◌, ◌+◌, ◌<◌, ◌≤◌, ◌↔◌, IsTrue, length, Some, if◌then◌else◌};
ghost use Rattle.std.specs.List.{AllByRecursion};
ghost use Rattle.core_ir.specs.Kinds.{source_of, kind_number, node_kind};
ghost use Rattle.core_ir.specs.Size.{operands_of};
ghost use Rattle.core_ir.specs.WellFormed.{is_bitwise, is_comparison, op_kind, widen_kind, narrow_kind, choose_kind, ExprFits, ExprsFit};

use crate::expression::{CellKind, CoreExpr};
use qir_module::Opcode;

/// Where an expression has its kind from.
pub enum Source {
    /// It has this kind, if any.
    Known(Option<CellKind>),
    /// It has the kind of this expression.
    Same(u32),
}

/// The kind of an expression, all expressions up to it being fit.
pub fn kind(cells: &[CellKind], exprs: &[CoreExpr], e: u32) -> Option<CellKind>
    requires there { e < length exprs.now }
    requires fit { ExprsFit cells.now exprs.now (e + 1) }
    ensures { result ≡ kind_number cells.now exprs.now e }
{
    let mut at = e;
    loop {
        match find_source(cells, exprs[at as usize]) {
            Source::Known(kind) => return kind,
            Source::Same(other) => at = other,
        }
    }
}

fn find_source(cells: &[CellKind], expr: CoreExpr) -> Source
    ensures { result ≡ source_of cells.now expr }
{
    match expr {
        CoreExpr::Cell(c) => Source::Known(cells.get(c as usize).copied()),
        CoreExpr::Truth(_) | CoreExpr::Narrow(_) => Source::Known(Some(CellKind::Truth)),
        CoreExpr::Number(_) | CoreExpr::Widen(_) => Source::Known(Some(CellKind::Number)),
        CoreExpr::Op(op, a, _) => {
            if is_bitwise(op) {
                Source::Same(a)
            } else {
                Source::Known(Some(number_result(op)))
            }
        }
        CoreExpr::Choose(_, a, _) => Source::Same(a),
    }
}

/// What an instruction on two words gives.
fn number_result(op: Opcode) -> CellKind
    ensures { result ≡ (if is_comparison op then CellKind.Truth else CellKind.Number) }
{
    match op {
        Opcode::Eq
        | Opcode::Ne
        | Opcode::Slt
        | Opcode::Sle
        | Opcode::Sgt
        | Opcode::Sge
        | Opcode::Ult
        | Opcode::Ule
        | Opcode::Ugt
        | Opcode::Uge => CellKind::Truth,
        _ => CellKind::Number,
    }
}

fn is_bitwise(op: Opcode) -> bool
    ensures { result ≡ is_bitwise op }
{
    matches!(op, Opcode::And | Opcode::Or | Opcode::Xor)
}

/// Whether the expression at a place names smaller numbers and kinds agree in it, all before it being fit.
pub fn expr_fits(cells: &[CellKind], exprs: &[CoreExpr], k: usize) -> bool
    requires there { k < length exprs.now }
    requires fit { ExprsFit cells.now exprs.now k }
    ensures { IsTrue result ↔ ExprFits cells.now exprs.now k }
{
    let expr = exprs[k];
    names_earlier(expr, k) && node_kind(cells, exprs, k, expr).is_some()
}

fn names_earlier(expr: CoreExpr, k: usize) -> bool
    ensures { IsTrue result ↔ AllByRecursion (λ j. j < k) (operands_of (Some expr)) }
{
    match expr {
        CoreExpr::Cell(_) | CoreExpr::Truth(_) | CoreExpr::Number(_) => true,
        CoreExpr::Op(_, a, b) => (a as usize) < k && (b as usize) < k,
        CoreExpr::Widen(a) | CoreExpr::Narrow(a) => (a as usize) < k,
        CoreExpr::Choose(test, a, b) => {
            (test as usize) < k && (a as usize) < k && (b as usize) < k
        }
    }
}

/// The kind of an expression that names smaller ones, all before it being fit.
fn node_kind(cells: &[CellKind], exprs: &[CoreExpr], k: usize, expr: CoreExpr) -> Option<CellKind>
    requires there { k ≤ length exprs.now }
    requires fit { ExprsFit cells.now exprs.now k }
    requires earlier { AllByRecursion (λ j. j < k) (operands_of (Some expr)) }
    ensures { result ≡ node_kind cells.now (kind_number cells.now exprs.now) expr }
{
    match expr {
        CoreExpr::Cell(c) => cells.get(c as usize).copied(),
        CoreExpr::Truth(_) => Some(CellKind::Truth),
        CoreExpr::Number(_) => Some(CellKind::Number),
        CoreExpr::Op(op, a, b) => op_kind(op, kind(cells, exprs, a), kind(cells, exprs, b)),
        CoreExpr::Widen(a) => widen_kind(kind(cells, exprs, a)),
        CoreExpr::Narrow(a) => narrow_kind(kind(cells, exprs, a)),
        CoreExpr::Choose(test, a, b) => choose_kind(
            kind(cells, exprs, test),
            kind(cells, exprs, a),
            kind(cells, exprs, b),
        ),
    }
}

fn op_kind(op: Opcode, left: Option<CellKind>, right: Option<CellKind>) -> Option<CellKind>
    ensures { result ≡ op_kind op left right }
{
    match (left, right) {
        (Some(CellKind::Number), Some(CellKind::Number)) => Some(number_result(op)),
        (Some(CellKind::Truth), Some(CellKind::Truth)) if is_bitwise(op) => Some(CellKind::Truth),
        _ => None,
    }
}

fn widen_kind(from: Option<CellKind>) -> Option<CellKind>
    ensures { result ≡ widen_kind from }
{
    match from {
        Some(CellKind::Truth) => Some(CellKind::Number),
        _ => None,
    }
}

fn narrow_kind(from: Option<CellKind>) -> Option<CellKind>
    ensures { result ≡ narrow_kind from }
{
    match from {
        Some(CellKind::Number) => Some(CellKind::Truth),
        _ => None,
    }
}

fn choose_kind(
    test: Option<CellKind>,
    first: Option<CellKind>,
    second: Option<CellKind>,
) -> Option<CellKind>
    ensures { result ≡ choose_kind test first second }
{
    match (test, first, second) {
        (Some(CellKind::Truth), Some(CellKind::Truth), Some(CellKind::Truth)) => {
            Some(CellKind::Truth)
        }
        (Some(CellKind::Truth), Some(CellKind::Number), Some(CellKind::Number)) => {
            Some(CellKind::Number)
        }
        _ => None,
    }
}
