// Whether expressions are constant.
ghost use Rattle.std.specs.Prelude.{◌≡◌, ◌<◌, length};
ghost use Rattle.qasm_ast.specs.View.{tree_in, trees_in, maybe_in, bracket_in, brackets_in, called_in};
ghost use Rattle.qasm_ast.specs.Whole.{AllOf, IfThere, IsExpr, IndexFits, NameFits};
ghost use Rattle.const_eval.specs.Meaning.{meaning_in};
ghost use Rattle.const_eval.specs.Seen.{HasNames};
ghost use Rattle.const_eval.specs.IsConstant.{is_constant as constancy_of, are_constant as constancy_of_all, is_constant_maybe as constancy_of_maybe, is_constant_bracket as constancy_of_bracket, are_constant_brackets as constancy_of_brackets, is_called_constant as constancy_of_called};

use crate::environment::{Constants, Lookup};
use qasm_ast::{ExprId, ExprKind, IndexRef, Items, OperandName, Program};

/// Whether the expression is constant: every name in it is one of a constant or a predefined number, and it holds no call.
#[cycle(is_constant)]
pub fn is_constant<E: Constants>(program: &Program, expr: ExprId, env: &E) -> bool
    requires in_range { expr.0 < length program.now.exprs }
    requires names { HasNames program.now (E.names env.now) }
    ensures { result ≡ constancy_of (meaning_in program.now (E.names env.now)) (tree_in program.now expr.0) }
{
    match &program.expr(expr).kind {
        ExprKind::Name(operand) => {
            is_called_constant(program, operand.name, env)
                && are_constant_brackets(program, &operand.index, env)
        }
        ExprKind::Hardware(_) | ExprKind::Whole(_) | ExprKind::Truth(_) | ExprKind::Bits(_) => true,
        ExprKind::Unary(_, operand) => is_constant(program, *operand, env),
        ExprKind::Binary(_, left, right) => {
            is_constant(program, *left, env) && is_constant(program, *right, env)
        }
        ExprKind::Cast(ty, operand) => {
            is_constant_if_some(program, ty.width, env) && is_constant(program, *operand, env)
        }
        ExprKind::Call(_, _) => false,
    }
}

// Whether the name of an operand means a constant.
fn is_called_constant<E: Constants>(program: &Program, name: OperandName, env: &E) -> bool
    requires in_range { NameFits (length program.now.names) name }
    requires names { HasNames program.now (E.names env.now) }
    ensures { result ≡ constancy_of_called (meaning_in program.now (E.names env.now)) (called_in program.now name) }
{
    match name {
        OperandName::Name(number) => {
            let _text = program.name(number);
            matches!(env.lookup(number), Lookup::Value(_))
        }
        OperandName::Hardware(_) => true,
    }
}

#[cycle(is_constant)]
#[tactic(auto, using(qasm_ast::specs::Size::ids_smaller))]
fn are_constant<E: Constants>(program: &Program, ids: &Items<ExprId>, env: &E) -> bool
    requires in_range { AllOf (IsExpr (length program.now.exprs)) ids.now }
    requires names { HasNames program.now (E.names env.now) }
    ensures { result ≡ constancy_of_all (meaning_in program.now (E.names env.now)) (trees_in program.now ids.now) }
{
    for id in &ids.items {
        if !is_constant(program, *id, env) {
            return false;
        }
    }
    true
}

#[cycle(is_constant)]
fn is_constant_if_some<E: Constants>(program: &Program, id: Option<ExprId>, env: &E) -> bool
    requires in_range { IfThere (IsExpr (length program.now.exprs)) id }
    requires names { HasNames program.now (E.names env.now) }
    ensures { result ≡ constancy_of_maybe (meaning_in program.now (E.names env.now)) (maybe_in program.now id) }
{
    match id {
        None => true,
        Some(id) => is_constant(program, id, env),
    }
}

#[cycle(is_constant)]
fn is_constant_bracket<E: Constants>(program: &Program, index: &IndexRef, env: &E) -> bool
    requires in_range { IndexFits (length program.now.exprs) index.now }
    requires names { HasNames program.now (E.names env.now) }
    ensures { result ≡ constancy_of_bracket (meaning_in program.now (E.names env.now)) (bracket_in program.now index.now) }
{
    match index {
        IndexRef::At(id) => is_constant(program, *id, env),
        IndexRef::Range {
            start,
            step,
            stop,
            ..
        } => {
            is_constant_if_some(program, *start, env)
                && is_constant_if_some(program, *step, env)
                && is_constant_if_some(program, *stop, env)
        }
        IndexRef::Set(ids) => are_constant(program, ids, env),
    }
}

#[cycle(is_constant)]
#[tactic(auto, using(qasm_ast::specs::Size::brackets_smaller))]
fn are_constant_brackets<E: Constants>(program: &Program, index: &Items<IndexRef>, env: &E) -> bool
    requires in_range { AllOf (IndexFits (length program.now.exprs)) index.now }
    requires names { HasNames program.now (E.names env.now) }
    ensures { result ≡ constancy_of_brackets (meaning_in program.now (E.names env.now)) (brackets_in program.now index.now) }
{
    for bracket in &index.items {
        if !is_constant_bracket(program, bracket, env) {
            return false;
        }
    }
    true
}
