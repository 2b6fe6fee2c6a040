//! The levels of nodes, counted up to 65, from the levels of the nodes that they name.
#![tactic(auto)]

ghost use Rattle.std.specs.Prelude.{◌≡◌, ℕ, suc, ◌+◌, ◌^◌, ◌<◌, ◌≤◌, max, min, length, All, Option, Some, None, slice_get, slice_index, IfOk};
ghost use Rattle.qasm_ast.specs.Level.{greatest, level_if_some};
ghost use Rattle.qasm_ast.specs.Shallow.{StmtNames, IfBlock, ExprLevels, StmtLevels, ids_level, some_level, type_level, index_level, ref_level, refs_level, kind_level, valued_level, declared_level, given_level, param_level, mod_level, mods_level, body_level, stmt_kind_level};
ghost use Rattle.qasm_ast.specs.Whole.{AllOf, IfThere, IsExpr, IsStmt, IndexFits, OperandFits, AnyTypeFits, ValueFits, ParamFits, ModifierFits, ExprsFit, StmtsFit, ExprFits};

use crate::expr::{BinaryOp, Expr, ExprId, ExprKind, IndexRef, OperandRef, TypeRef};
use crate::items::Items;
use crate::stmt::{Declared, Modifier, Stmt, StmtId, StmtKind, ValueRef};
use std::alloc::{AllocError, Global};

/// Where the count ends.
const CUT: u32 = 65;

/// One level more.
fn opened(level: u32) -> u32
    requires { level ≤ 65 }
    ensures { result ≡ min 65 (suc level) }
{
    if level < CUT { level + 1 } else { CUT }
}

fn level_at(levels: &[u32], id: ExprId) -> u32
    requires fits { id.0 < length levels.now }
    requires low { All (λ n. n ≤ 65) levels.now }
    ensures { result ≡ min 65 (slice_index levels.now id.0) }
{
    levels[id.0 as usize]
}

fn level_of_ids(levels: &[u32], ids: &Items<ExprId>) -> u32
    requires fits { AllOf (IsExpr (length levels.now)) ids.now }
    requires low { All (λ n. n ≤ 65) levels.now }
    ensures { result ≡ min 65 (ids_level (slice_index levels.now) ids.now) }
{
    let mut most = 0u32;
    for id in &ids.items {
        most = most.max(level_at(levels, *id));
    }
    most
}

fn level_of_some(levels: &[u32], id: Option<ExprId>) -> u32
    requires fits { IfThere (IsExpr (length levels.now)) id }
    requires low { All (λ n. n ≤ 65) levels.now }
    ensures { result ≡ min 65 (some_level (slice_index levels.now) id) }
{
    match id {
        None => 0,
        Some(id) => level_at(levels, id),
    }
}

fn level_of_type(levels: &[u32], ty: &TypeRef) -> u32
    requires fits { AnyTypeFits (length levels.now) ty.now }
    requires low { All (λ n. n ≤ 65) levels.now }
    ensures { result ≡ min 65 (type_level (slice_index levels.now) ty.now) }
{
    match ty.width {
        None => 0,
        Some(id) => opened(level_at(levels, id)),
    }
}

fn level_of_index(levels: &[u32], index: &IndexRef) -> u32
    requires fits { IndexFits (length levels.now) index.now }
    requires low { All (λ n. n ≤ 65) levels.now }
    ensures { result ≡ min 65 (index_level (slice_index levels.now) index.now) }
{
    match index {
        IndexRef::At(id) => opened(level_at(levels, *id)),
        IndexRef::Range {
            start,
            step,
            stop,
            ..
        } => {
            let start = level_of_some(levels, *start);
            let step = level_of_some(levels, *step);
            let stop = level_of_some(levels, *stop);
            opened(start.max(step).max(stop))
        }
        IndexRef::Set(ids) => opened(opened(level_of_ids(levels, ids))),
    }
}

fn level_of_operand(levels: &[u32], operand: &OperandRef) -> u32
    requires fits { AllOf (IndexFits (length levels.now)) operand.now.index }
    requires low { All (λ n. n ≤ 65) levels.now }
    ensures { result ≡ min 65 (ref_level (slice_index levels.now) operand.now) }
{
    let mut most = 0u32;
    for index in &operand.index.items {
        most = most.max(level_of_index(levels, index));
    }
    most
}

fn level_of_kind(levels: &[u32], kind: &ExprKind) -> u32
    requires fits { (names : ℕ) × ExprFits names (length levels.now) kind.now }
    requires low { All (λ n. n ≤ 65) levels.now }
    ensures { result ≡ min 65 (kind_level (slice_index levels.now) kind.now) }
{
    match kind {
        ExprKind::Name(operand) => level_of_operand(levels, operand),
        ExprKind::Hardware(_) | ExprKind::Whole(_) | ExprKind::Truth(_) | ExprKind::Bits(_) => 0,
        ExprKind::Unary(_, operand) => opened(level_at(levels, *operand)),
        ExprKind::Binary(op, left, right) => {
            let right = level_at(levels, *right);
            level_at(levels, *left).max(match op {
                BinaryOp::Power => opened(right),
                _ => right,
            })
        }
        ExprKind::Cast(ty, operand) => {
            level_of_type(levels, ty).max(opened(level_at(levels, *operand)))
        }
        ExprKind::Call(_, args) => opened(level_of_ids(levels, args)),
    }
}

fn level_of_operands(levels: &[u32], operands: &Items<OperandRef>) -> u32
    requires fits { (names : ℕ) × AllOf (OperandFits names (length levels.now)) operands.now }
    requires low { All (λ n. n ≤ 65) levels.now }
    ensures { result ≡ min 65 (refs_level (slice_index levels.now) operands.now) }
{
    let mut most = 0u32;
    for operand in &operands.items {
        most = most.max(level_of_operand(levels, operand));
    }
    most
}

fn level_of_value(levels: &[u32], value: &ValueRef) -> u32
    requires fits { (names : ℕ) × ValueFits names (length levels.now) value.now }
    requires low { All (λ n. n ≤ 65) levels.now }
    ensures { result ≡ min 65 (valued_level (slice_index levels.now) value.now) }
{
    match value {
        ValueRef::Expr(id) => level_at(levels, *id),
        ValueRef::Measure(operand) => level_of_operand(levels, operand),
    }
}

fn level_of_params(levels: &[u32], params: &Items<(TypeRef, Declared)>) -> u32
    requires fits { (names : ℕ) × AllOf (ParamFits names (length levels.now)) params.now }
    requires low { All (λ n. n ≤ 65) levels.now }
    ensures { result ≡ min 65 (greatest (param_level (slice_index levels.now)) params.now) }
{
    let mut most = 0u32;
    for param in &params.items {
        most = most.max(level_of_type(levels, &param.0));
    }
    most
}

fn level_at_stmt(levels: &[u32], id: StmtId) -> u32
    requires fits { id.0 < length levels.now }
    requires low { All (λ n. n ≤ 65) levels.now }
    ensures { result ≡ min 65 (slice_index levels.now id.0) }
{
    levels[id.0 as usize]
}

pub fn level_of_body(levels: &[u32], body: &Items<StmtId>) -> u32
    requires fits { All (IsStmt (length levels.now)) body.now }
    requires low { All (λ n. n ≤ 65) levels.now }
    ensures { result ≡ min 65 (body_level (slice_index levels.now) body.now) }
{
    let mut most = 0u32;
    for id in &body.items {
        most = most.max(level_at_stmt(levels, *id));
    }
    most
}

/// The level of modifiers in front of what has the level `inside`.
fn level_of_mods(levels: &[u32], mods: &Items<Modifier>, inside: u32) -> u32
    requires fits { AllOf (ModifierFits (length levels.now)) mods.now }
    requires low { All (λ n. n ≤ 65) levels.now }
    requires inner { inside ≤ 65 }
    ensures { result ≡ min 65 (mods_level (slice_index levels.now) mods.now inside) }
{
    let mut level = inside;
    let mut left = mods.items.len();
    while left > 0 {
        left -= 1;
        level = level_of_mod(levels, &mods.items[left], level);
    }
    level
}

/// The level of one modifier in front of what has the level `inside`.
fn level_of_mod(levels: &[u32], modifier: &Modifier, inside: u32) -> u32
    requires fits { ModifierFits (length levels.now) modifier.now }
    requires low { All (λ n. n ≤ 65) levels.now }
    requires inner { inside ≤ 65 }
    ensures { result ≡ min 65 (mod_level (slice_index levels.now) modifier.now inside) }
{
    match modifier {
        Modifier::Inv(_) => opened(inside),
        Modifier::Pow(id, _) => opened(opened(level_at(levels, *id)).max(inside)),
        Modifier::Ctrl(None, _) => opened(inside),
        Modifier::Ctrl(Some(id), _) => opened(opened(level_at(levels, *id)).max(inside)),
    }
}

fn level_of_some_value(levels: &[u32], value: &Option<ValueRef>) -> u32
    requires fits { (names : ℕ) × IfThere (ValueFits names (length levels.now)) value.now }
    requires low { All (λ n. n ≤ 65) levels.now }
    ensures { result ≡ min 65 (level_if_some (valued_level (slice_index levels.now)) value.now) }
{
    match value {
        None => 0,
        Some(value) => level_of_value(levels, value),
    }
}

/// The arguments of a gate call stand in brackets where there are any.
fn level_of_args(levels: &[u32], args: &Items<ExprId>) -> u32
    requires fits { AllOf (IsExpr (length levels.now)) args.now }
    requires low { All (λ n. n ≤ 65) levels.now }
    ensures { result ≡ min 65 (given_level (slice_index levels.now) args.now) }
{
    if args.items.is_empty() {
        return 0;
    }
    opened(level_of_ids(levels, args))
}

/// The expressions between the brackets of a `for` statement.
fn level_of_span(levels: &[u32], start: ExprId, step: Option<ExprId>, stop: ExprId) -> u32
    requires start { start.0 < length levels.now }
    requires step { IfThere (IsExpr (length levels.now)) step }
    requires stop { stop.0 < length levels.now }
    requires low { All (λ n. n ≤ 65) levels.now }
    ensures { result ≡ min 65 (max (slice_index levels.now start.0) (max (some_level (slice_index levels.now) step) (slice_index levels.now stop.0))) }
{
    let step = level_of_some(levels, step);
    let stop = level_at(levels, stop);
    level_at(levels, start).max(step.max(stop))
}

/// The level of a statement, where `levels` are those of expressions and `bodies` those of statements.
fn level_of_stmt(levels: &[u32], bodies: &[u32], kind: &StmtKind) -> u32
    requires fits { (names : ℕ) × StmtNames names (length levels.now) (length bodies.now) kind.now }
    requires low { All (λ n. n ≤ 65) levels.now }
    requires low_bodies { All (λ n. n ≤ 65) bodies.now }
    ensures { result ≡ min 65 (stmt_kind_level (slice_index levels.now) (slice_index bodies.now) kind.now) }
{
    match kind {
        StmtKind::Include | StmtKind::Break | StmtKind::Continue | StmtKind::End => 0,
        StmtKind::Qubit(ty, _) | StmtKind::Output(ty, _) => level_of_type(levels, ty),
        StmtKind::Variable(ty, _, value) => {
            level_of_type(levels, ty).max(level_of_some_value(levels, value))
        }
        StmtKind::Constant(ty, _, id) => level_of_type(levels, ty).max(level_at(levels, *id)),
        StmtKind::Let(_, operands) | StmtKind::Barrier(operands) => {
            level_of_operands(levels, operands)
        }
        StmtKind::Reset(operand) => level_of_operand(levels, operand),
        StmtKind::Measure(operand, target) => {
            level_of_operand(levels, operand).max(level_of_some_operand(levels, target))
        }
        StmtKind::Assign(target, _, value) => {
            level_of_operand(levels, target).max(level_of_value(levels, value))
        }
        StmtKind::Call(id) => level_at(levels, *id),
        StmtKind::Return(value) => level_of_some_value(levels, value),
        StmtKind::GateCall {
            mods,
            args,
            operands,
            ..
        } => level_of_gate_call(levels, mods, args, operands),
        _ => level_of_block(levels, bodies, kind),
    }
}

/// The level of a statement with a body.
fn level_of_block(levels: &[u32], bodies: &[u32], kind: &StmtKind) -> u32
    requires fits { (names : ℕ) × StmtNames names (length levels.now) (length bodies.now) kind.now }
    requires low { All (λ n. n ≤ 65) levels.now }
    requires low_bodies { All (λ n. n ≤ 65) bodies.now }
    ensures { IfBlock kind.now (result ≡ min 65 (stmt_kind_level (slice_index levels.now) (slice_index bodies.now) kind.now)) }
{
    match kind {
        StmtKind::Gate { params, body, .. } => {
            let inside = opened(level_of_body(bodies, body));
            if params.items.is_empty() {
                inside
            } else {
                inside.max(1)
            }
        }
        StmtKind::Def {
            params,
            result: ty,
            body,
            ..
        } => {
            let given = opened(level_of_params(levels, params));
            let ty = level_of_some_type(levels, ty);
            given.max(ty.max(opened(level_of_body(bodies, body))))
        }
        StmtKind::If(id, taken, other) => {
            let inside = level_of_body(bodies, taken).max(level_of_body(bodies, other));
            opened(level_at(levels, *id).max(inside))
        }
        StmtKind::While(id, body) => {
            opened(level_at(levels, *id).max(level_of_body(bodies, body)))
        }
        StmtKind::ForRange {
            ty,
            start,
            step,
            stop,
            body,
            ..
        } => {
            let inside = level_of_span(levels, *start, *step, *stop);
            level_of_type(levels, ty).max(opened(inside.max(level_of_body(bodies, body))))
        }
        StmtKind::ForSet {
            ty,
            members,
            body,
            ..
        } => {
            let inside = level_of_ids(levels, members).max(level_of_body(bodies, body));
            level_of_type(levels, ty).max(opened(inside))
        }
        _ => 0,
    }
}

fn level_of_some_operand(levels: &[u32], operand: &Option<OperandRef>) -> u32
    requires fits { (names : ℕ) × IfThere (OperandFits names (length levels.now)) operand.now }
    requires low { All (λ n. n ≤ 65) levels.now }
    ensures { result ≡ min 65 (level_if_some (ref_level (slice_index levels.now)) operand.now) }
{
    match operand {
        None => 0,
        Some(operand) => level_of_operand(levels, operand),
    }
}

fn level_of_some_type(levels: &[u32], ty: &Option<TypeRef>) -> u32
    requires fits { IfThere (AnyTypeFits (length levels.now)) ty.now }
    requires low { All (λ n. n ≤ 65) levels.now }
    ensures { result ≡ min 65 (level_if_some (type_level (slice_index levels.now)) ty.now) }
{
    match ty {
        None => 0,
        Some(ty) => level_of_type(levels, ty),
    }
}

fn level_of_gate_call(
    levels: &[u32],
    mods: &Items<Modifier>,
    args: &Items<ExprId>,
    operands: &Items<OperandRef>,
) -> u32
    requires mods { AllOf (ModifierFits (length levels.now)) mods.now }
    requires args { AllOf (IsExpr (length levels.now)) args.now }
    requires operands { (names : ℕ) × AllOf (OperandFits names (length levels.now)) operands.now }
    requires low { All (λ n. n ≤ 65) levels.now }
    ensures { result ≡ min 65 (mods_level (slice_index levels.now) mods.now (max (given_level (slice_index levels.now) args.now) (refs_level (slice_index levels.now) operands.now))) }
{
    let inside = level_of_args(levels, args).max(level_of_operands(levels, operands));
    level_of_mods(levels, mods, inside)
}

/// The levels of all expressions.
pub fn levels_of_exprs(alloc: Global, exprs: &[Expr]) -> Result<Vec<u32>, AllocError>
    requires { (names : ℕ) × ExprsFit names 0 exprs.now }
    ensures { IfOk result (λ levels. ExprLevels exprs.now levels.items (length exprs.now)) }
{
    let mut levels = Vec::new(alloc);
    for expr in exprs {
        let level = level_of_kind(&levels, &expr.kind);
        levels.push(level)?;
    }
    Ok(levels)
}

/// The levels of all statements, where `levels` are those of the expressions.
pub fn levels_of_stmts(
    alloc: Global,
    exprs: &[Expr],
    levels: &[u32],
    stmts: &[Stmt],
) -> Result<Vec<u32>, AllocError>
    requires fits { (names : ℕ) × StmtsFit names exprs.now stmts.now }
    requires known { ExprLevels exprs.now levels.now (length exprs.now) }
    ensures { IfOk result (λ bodies. StmtLevels exprs.now stmts.now bodies.items (length stmts.now)) }
{
    let _exprs = exprs;
    let mut bodies = Vec::new(alloc);
    for stmt in stmts {
        let level = level_of_stmt(levels, &bodies, &stmt.kind);
        bodies.push(level)?;
    }
    Ok(bodies)
}
