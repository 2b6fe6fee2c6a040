//! Constants that stand in a call of a gate. The nodes of each are counted behind its value, before what is asked of it.
ghost use Rattle.std.specs.Prelude.{◌<◌, ◌^◌, length, IfOk};
ghost use Rattle.qasm_ast.specs.View.{bracket_in, brackets_in, maybe_in, tree_in, trees_in};
ghost use Rattle.qasm_ast.specs.Whole.{AllOf, IfThere, IndexFits, IsExpr};
ghost use Rattle.alias_resolve.specs.Places.{AreFew, HasFewMembers};
ghost use Rattle.const_eval.specs.Answers.{Answers};
ghost use Rattle.const_eval.specs.ConstCast.{whole_at as whole_of};
ghost use Rattle.const_eval.specs.ConstantWalk.{constant_walk, end_walk, index_walk, indexes_walk, members_walk, whole_walk};
ghost use Rattle.const_eval.specs.Meaning.{meaning_in};
ghost use Rattle.const_eval.specs.Seen.{HasNames, constant_of};
ghost use Rattle.gate_lists.specs.Paid.{AnswersWithin};

use crate::nodes::pay_nodes;
use alias_resolve::{IndexValue, MemberList};
use const_eval::{Const, Constants, const_value};
use gate_lists::{Budget, push, refused};
use qasm_ast::{ExprId, IndexRef, Items, Program};
use qq_base::{Fault, Rule, Span};
use std::alloc::Global;

/// The value of an expression that must be constant. `exact` forbids remainders of whole constants.
pub fn constant_at<S: Constants>(
    alloc: Global,
    program: &Program,
    id: ExprId,
    scope: &S,
    exact: bool,
    budget: &mut Budget,
) -> Result<Const, Fault>
    requires in_range { id.0 < length program.now.exprs }
    requires names { HasNames program.now (S.names scope.now) }
    ensures { AnswersWithin budget.old budget.new constant_of result (constant_walk (meaning_in program.now (S.names scope.now)) exact (tree_in program.now id.0)) }
{
    let value = const_value(alloc, program, id, scope, exact)?;
    pay_nodes(program, id, budget)?;
    Ok(value)
}

/// A whole number, where a constant of another kind may not stand.
pub fn whole_at<S: Constants>(
    alloc: Global,
    program: &Program,
    id: ExprId,
    scope: &S,
    exact: bool,
    budget: &mut Budget,
) -> Result<i128, Fault>
    requires in_range { id.0 < length program.now.exprs }
    requires names { HasNames program.now (S.names scope.now) }
    ensures { AnswersWithin budget.old budget.new (λ z. z) result (whole_walk (meaning_in program.now (S.names scope.now)) exact (tree_in program.now id.0)) }
{
    let value = constant_at(alloc, program, id, scope, exact, budget)?;
    whole_number(&value, program.expr(id).at)
}

// The number that a whole constant is.
fn whole_number(value: &Const, place: Span) -> Result<i128, Fault>
    ensures { Answers (λ z. z) result (whole_of place (constant_of value.now)) }
{
    match value {
        Const::Whole(whole) => Ok(whole.number),
        _ => Err(refused(Rule::NoCast, place)),
    }
}

// The start, step or stop of a range, if it is there.
fn end_at<S: Constants>(
    alloc: Global,
    program: &Program,
    id: Option<ExprId>,
    scope: &S,
    exact: bool,
    budget: &mut Budget,
) -> Result<Option<i128>, Fault>
    requires in_range { IfThere (IsExpr (length program.now.exprs)) id }
    requires names { HasNames program.now (S.names scope.now) }
    ensures { AnswersWithin budget.old budget.new (λ z. z) result (end_walk (meaning_in program.now (S.names scope.now)) exact (maybe_in program.now id)) }
{
    match id {
        None => Ok(None),
        Some(id) => Ok(Some(whole_at(alloc, program, id, scope, exact, budget)?)),
    }
}

// The members of a set.
#[tactic(auto, using(crate::proofs::Members::all_members, crate::proofs::Walking::behind_nothing))]
fn members_at<S: Constants>(
    alloc: Global,
    program: &Program,
    ids: &Items<ExprId>,
    scope: &S,
    exact: bool,
    budget: &mut Budget,
) -> Result<MemberList, Fault>
    requires in_range { AllOf (IsExpr (length program.now.exprs)) ids.now }
    requires names { HasNames program.now (S.names scope.now) }
    ensures answer { AnswersWithin budget.old budget.new (λ v. v) result (members_walk (meaning_in program.now (S.names scope.now)) exact (trees_in program.now ids.now)) }
    ensures few { IfOk result (λ v. length v < 2 ^ 32) }
{
    let mut members = Vec::new(alloc);
    for id in &ids.items {
        let member = whole_at(alloc, program, *id, scope, exact, budget)?;
        push(&mut members, member)?;
    }
    Ok(MemberList { items: members })
}

// The value of one index.
fn index_at<S: Constants>(
    alloc: Global,
    program: &Program,
    index: &IndexRef,
    scope: &S,
    exact: bool,
    budget: &mut Budget,
) -> Result<IndexValue, Fault>
    requires in_range { IndexFits (length program.now.exprs) index.now }
    requires names { HasNames program.now (S.names scope.now) }
    ensures answer { AnswersWithin budget.old budget.new (λ v. v) result (index_walk (meaning_in program.now (S.names scope.now)) exact (bracket_in program.now index.now)) }
    ensures few { IfOk result HasFewMembers }
{
    match index {
        IndexRef::At(id) => Ok(IndexValue::At(whole_at(
            alloc, program, *id, scope, exact, budget,
        )?)),
        IndexRef::Range {
            start,
            step,
            stop,
            ..
        } => {
            let start = end_at(alloc, program, *start, scope, exact, budget)?;
            let step = end_at(alloc, program, *step, scope, exact, budget)?;
            let stop = end_at(alloc, program, *stop, scope, exact, budget)?;
            Ok(IndexValue::Range { start, step, stop })
        }
        IndexRef::Set(ids) => Ok(IndexValue::Set(members_at(
            alloc, program, ids, scope, exact, budget,
        )?)),
    }
}

/// The values of all indexes in brackets, each a whole constant.
#[tactic(auto, using(crate::proofs::Members::all_indexes, crate::proofs::Walking::behind_nothing))]
pub fn indexes_at<S: Constants>(
    alloc: Global,
    program: &Program,
    index: &Items<IndexRef>,
    scope: &S,
    exact: bool,
    budget: &mut Budget,
) -> Result<Vec<IndexValue>, Fault>
    requires in_range { AllOf (IndexFits (length program.now.exprs)) index.now }
    requires names { HasNames program.now (S.names scope.now) }
    ensures answer { AnswersWithin budget.old budget.new (λ v. v.items) result (indexes_walk (meaning_in program.now (S.names scope.now)) exact (brackets_in program.now index.now)) }
    ensures few { IfOk result (λ v. AreFew v.items) }
{
    let mut values = Vec::new(alloc);
    for bracket in &index.items {
        let value = index_at(alloc, program, bracket, scope, exact, budget)?;
        push(&mut values, value)?;
    }
    Ok(values)
}
