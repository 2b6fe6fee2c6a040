//! Two walks over a program, as the layers above write them. Each is proved from the clauses of `Program` alone.
#![tactic(auto)]

ghost use Rattle.std.specs.Prelude.{◌≡◌, ◌<◌, length, All};
ghost use Rattle.qasm_ast.specs.View.{tree_in, trees_in, maybe_in, bracket_in, brackets_in, called_in, statement_in, statements_in};
ghost use Rattle.qasm_ast.specs.Walks.{is_word, occurs as occurs_of, occurs_in_any as occurs_of_any, occurs_in_maybe as occurs_of_maybe, occurs_in_bracket as occurs_of_bracket, occurs_in_brackets as occurs_of_brackets, loops as loops_of, any_loops as any_loops_of};
ghost use Rattle.qasm_ast.specs.Whole.{AllOf, IfThere, IsExpr, IsStmt, IndexFits, NameFits};

use crate::expr::{ExprId, ExprKind, IndexRef, OperandName};
use crate::items::Items;
use crate::program::Program;
use crate::stmt::{StmtId, StmtKind};

/// Whether an operand names this name.
fn is_named(program: &Program, name: OperandName, text: &[u8]) -> bool
    requires { NameFits (length program.now.names) name }
    ensures { result ≡ is_word text.now (called_in program.now name) }
{
    match name {
        OperandName::Name(number) => program.name(number).items.as_slice() == text,
        OperandName::Hardware(_) => false,
    }
}

/// Whether a name occurs in the expression.
#[cycle(occurs)]
pub fn occurs(program: &Program, id: ExprId, text: &[u8]) -> bool
    requires { id.0 < length program.now.exprs }
    ensures { result ≡ occurs_of text.now (tree_in program.now id.0) }
{
    match &program.expr(id).kind {
        ExprKind::Name(operand) => {
            is_named(program, operand.name, text)
                || occurs_in_brackets(program, &operand.index, text)
        }
        ExprKind::Hardware(_) | ExprKind::Whole(_) | ExprKind::Truth(_) | ExprKind::Bits(_) =>
            false,
        ExprKind::Unary(_, operand) => occurs(program, *operand, text),
        ExprKind::Binary(_, left, right) => {
            occurs(program, *left, text) || occurs(program, *right, text)
        }
        ExprKind::Cast(ty, operand) => {
            occurs_in_some(program, ty.width, text) || occurs(program, *operand, text)
        }
        ExprKind::Call(name, args) => {
            program.name(*name).items.as_slice() == text || occurs_in_any(program, args, text)
        }
    }
}

#[cycle(occurs)]
#[tactic(auto, using(crate::specs::Size::ids_smaller))]
fn occurs_in_any(program: &Program, ids: &Items<ExprId>, text: &[u8]) -> bool
    requires { AllOf (IsExpr (length program.now.exprs)) ids.now }
    ensures { result ≡ occurs_of_any text.now (trees_in program.now ids.now) }
{
    for id in &ids.items {
        if occurs(program, *id, text) {
            return true;
        }
    }
    false
}

#[cycle(occurs)]
fn occurs_in_some(program: &Program, id: Option<ExprId>, text: &[u8]) -> bool
    requires { IfThere (IsExpr (length program.now.exprs)) id }
    ensures { result ≡ occurs_of_maybe text.now (maybe_in program.now id) }
{
    match id {
        None => false,
        Some(id) => occurs(program, id, text),
    }
}

#[cycle(occurs)]
fn occurs_in_bracket(program: &Program, index: &IndexRef, text: &[u8]) -> bool
    requires { IndexFits (length program.now.exprs) index.now }
    ensures { result ≡ occurs_of_bracket text.now (bracket_in program.now index.now) }
{
    match index {
        IndexRef::At(id) => occurs(program, *id, text),
        IndexRef::Range {
            start,
            step,
            stop,
            ..
        } => {
            occurs_in_some(program, *start, text)
                || occurs_in_some(program, *step, text)
                || occurs_in_some(program, *stop, text)
        }
        IndexRef::Set(ids) => occurs_in_any(program, ids, text),
    }
}

#[cycle(occurs)]
#[tactic(auto, using(crate::specs::Size::brackets_smaller))]
fn occurs_in_brackets(program: &Program, index: &Items<IndexRef>, text: &[u8]) -> bool
    requires { AllOf (IndexFits (length program.now.exprs)) index.now }
    ensures { result ≡ occurs_of_brackets text.now (brackets_in program.now index.now) }
{
    for bracket in &index.items {
        if occurs_in_bracket(program, bracket, text) {
            return true;
        }
    }
    false
}

/// Whether a loop stands in the statement.
#[cycle(loops)]
pub fn loops(program: &Program, id: StmtId) -> bool
    requires { id.0 < length program.now.stmts }
    ensures { result ≡ loops_of (statement_in program.now id.0) }
{
    match &program.stmt(id).kind {
        StmtKind::Gate { body, .. } | StmtKind::Def { body, .. } => any_loops(program, body),
        StmtKind::If(_, taken, other) => any_loops(program, taken) || any_loops(program, other),
        StmtKind::While(_, _) | StmtKind::ForRange { .. } | StmtKind::ForSet { .. } => true,
        _ => false,
    }
}

#[cycle(loops)]
#[tactic(auto, using(crate::specs::Size::bodies_smaller))]
pub fn any_loops(program: &Program, ids: &Items<StmtId>) -> bool
    requires { All (IsStmt (length program.now.stmts)) ids.now }
    ensures { result ≡ any_loops_of (statements_in program.now ids.now) }
{
    for id in &ids.items {
        if loops(program, *id) {
            return true;
        }
    }
    false
}
