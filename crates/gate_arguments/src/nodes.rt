//! The nodes of constant expressions, counted.
ghost use Rattle.std.specs.Prelude.{◌≡◌, ◌<◌, length, min};
ghost use Rattle.qasm_ast.specs.View.{bracket_in, brackets_in, maybe_in, tree_in, trees_in};
ghost use Rattle.qasm_ast.specs.Whole.{AllOf, IfThere, IndexFits, IsExpr};
ghost use Rattle.const_eval.specs.Nodes.{bracket_nodes, brackets_nodes, maybe_nodes, nodes_of, selecting_nodes, trees_nodes};
ghost use Rattle.gate_lists.specs.Paid.{AnswersWithin};
ghost use Rattle.gate_arguments.specs.Seen.{cost_alone};

use gate_lists::{Budget, refused};
use qasm_ast::{ExprId, ExprKind, IndexRef, Items, Program};
use qq_base::{Fault, Rule};

/// Adds to the cost of a walk, and gives nothing.
pub(crate) fn pay(cost: u64, budget: &mut Budget) -> Result<(), Fault>
    ensures { AnswersWithin budget.old budget.new (λ _. tt) result (cost_alone cost) }
{
    budget.spend(cost)
}

/// Adds 1 for each node of an expression: a name with index brackets has two, beside those of its indexes, and a call is none.
pub(crate) fn pay_nodes(program: &Program, id: ExprId, budget: &mut Budget) -> Result<(), Fault>
    requires { id.0 < length program.now.exprs }
    ensures { AnswersWithin budget.old budget.new (λ _. tt) result (cost_alone (nodes_of (tree_in program.now id.0))) }
{
    let most = u128::from(budget.left) + 1;
    let count = node_count(program, id, most);
    if count == most {
        return Err(refused(Rule::TooLarge, budget.place));
    }
    pay(count as u64, budget)
}

// The number of the nodes of an expression, or `most` where it has more.
#[cycle(node_count)]
fn node_count(program: &Program, id: ExprId, most: u128) -> u128
    requires { id.0 < length program.now.exprs }
    ensures { result ≡ min (nodes_of (tree_in program.now id.0)) most }
{
    if most == 0 {
        return 0;
    }
    match &program.expr(id).kind {
        ExprKind::Name(operand) => 1 + selecting_count(program, &operand.index, most - 1),
        ExprKind::Hardware(_) | ExprKind::Whole(_) | ExprKind::Truth(_) | ExprKind::Bits(_) => 1,
        ExprKind::Unary(_, operand) => 1 + node_count(program, *operand, most - 1),
        ExprKind::Binary(_, left, right) => {
            let count = 1 + node_count(program, *left, most - 1);
            count + node_count(program, *right, most - count)
        }
        ExprKind::Cast(ty, operand) => {
            let count = 1 + maybe_count(program, ty.width, most - 1);
            count + node_count(program, *operand, most - count)
        }
        ExprKind::Call(_, _) => 0,
    }
}

#[cycle(node_count)]
fn maybe_count(program: &Program, id: Option<ExprId>, most: u128) -> u128
    requires { IfThere (IsExpr (length program.now.exprs)) id }
    ensures { result ≡ min (maybe_nodes (maybe_in program.now id)) most }
{
    match id {
        None => 0,
        Some(id) => node_count(program, id, most),
    }
}

#[cycle(node_count)]
#[tactic(auto, using(qasm_ast::specs::Size::ids_smaller))]
fn nodes_count(program: &Program, ids: &Items<ExprId>, most: u128) -> u128
    requires { AllOf (IsExpr (length program.now.exprs)) ids.now }
    ensures { result ≡ min (trees_nodes (trees_in program.now ids.now)) most }
{
    let mut count = 0;
    for id in &ids.items {
        count += node_count(program, *id, most - count);
    }
    count
}

// Brackets are one node more than their indexes.
#[cycle(node_count)]
#[tactic(auto, using(crate::proofs::Paying::selecting_some))]
fn selecting_count(program: &Program, index: &Items<IndexRef>, most: u128) -> u128
    requires { AllOf (IndexFits (length program.now.exprs)) index.now }
    ensures { result ≡ min (selecting_nodes (brackets_in program.now index.now)) most }
{
    if index.items.is_empty() || most == 0 {
        return 0;
    }
    1 + brackets_count(program, index, most - 1)
}

#[cycle(node_count)]
#[tactic(auto, using(qasm_ast::specs::Size::brackets_smaller))]
fn brackets_count(program: &Program, index: &Items<IndexRef>, most: u128) -> u128
    requires { AllOf (IndexFits (length program.now.exprs)) index.now }
    ensures { result ≡ min (brackets_nodes (brackets_in program.now index.now)) most }
{
    let mut count = 0;
    for bracket in &index.items {
        count += bracket_count(program, bracket, most - count);
    }
    count
}

#[cycle(node_count)]
fn bracket_count(program: &Program, index: &IndexRef, most: u128) -> u128
    requires { IndexFits (length program.now.exprs) index.now }
    ensures { result ≡ min (bracket_nodes (bracket_in program.now index.now)) most }
{
    match index {
        IndexRef::At(id) => node_count(program, *id, most),
        IndexRef::Range {
            start,
            step,
            stop,
            ..
        } => {
            let first = maybe_count(program, *start, most);
            let second = maybe_count(program, *step, most - first);
            first + second + maybe_count(program, *stop, most - first - second)
        }
        IndexRef::Set(ids) => nodes_count(program, ids, most),
    }
}
