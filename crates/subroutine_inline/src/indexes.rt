//! The values of index brackets, with what their nodes cost.
ghost use Rattle.std.specs.Prelude.{◌≡◌, ◌-◌, ◌<◌, ◌^◌, false, length, IfOk, OnOk};
ghost use Rattle.qasm_ast.specs.View.{bracket_in, brackets_in, maybe_in, trees_in};
ghost use Rattle.qasm_ast.specs.Whole.{AllOf, IfThere, IndexFits, IsExpr};
ghost use Rattle.alias_resolve.specs.Places.{AreFew, HasFewMembers};
ghost use Rattle.const_eval.specs.Answers.{Answers};
ghost use Rattle.const_eval.specs.ConstantWalk.{end_walk, index_walk, indexes_walk, members_walk};
ghost use Rattle.const_eval.specs.Meaning.{meaning_in};
ghost use Rattle.const_eval.specs.Seen.{HasNames};

use crate::counted::whole_counted;
use alias_resolve::{IndexValue, MemberList};
use const_eval::Constants;
use gate_lists::push;
use qasm_ast::{ExprId, IndexRef, Items, Program};
use qq_base::Fault;
use std::alloc::Global;

// The start, step or stop of a range, if it is there.
fn end_counted<S: Constants>(
    alloc: Global,
    program: &Program,
    id: Option<ExprId>,
    scope: &S,
    left: &mut u64,
) -> Result<Option<i128>, Fault>
    requires in_range { IfThere (IsExpr (length program.now.exprs)) id }
    requires names { HasNames program.now (S.names scope.now) }
    ensures answer { Answers (λ z. z) result (end_walk (meaning_in program.now (S.names scope.now)) false (maybe_in program.now id)).answer }
    ensures cost { OnOk result (left.new ≡ left.old - (end_walk (meaning_in program.now (S.names scope.now)) false (maybe_in program.now id)).cost) }
{
    match id {
        None => Ok(None),
        Some(id) => Ok(Some(whole_counted(alloc, program, id, scope, left)?)),
    }
}

// The members of a set.
fn members_counted<S: Constants>(
    alloc: Global,
    program: &Program,
    ids: &Items<ExprId>,
    scope: &S,
    left: &mut u64,
) -> Result<MemberList, Fault>
    requires in_range { AllOf (IsExpr (length program.now.exprs)) ids.now }
    requires names { HasNames program.now (S.names scope.now) }
    ensures answer { Answers (λ v. v) result (members_walk (meaning_in program.now (S.names scope.now)) false (trees_in program.now ids.now)).answer }
    ensures cost { OnOk result (left.new ≡ left.old - (members_walk (meaning_in program.now (S.names scope.now)) false (trees_in program.now ids.now)).cost) }
    ensures few { IfOk result (λ v. length v < 2 ^ 32) }
{
    let mut members = Vec::new(alloc);
    for id in &ids.items {
        let member = whole_counted(alloc, program, *id, scope, left)?;
        push(&mut members, member)?;
    }
    Ok(MemberList { items: members })
}

// The value of one index.
fn index_counted<S: Constants>(
    alloc: Global,
    program: &Program,
    index: &IndexRef,
    scope: &S,
    left: &mut u64,
) -> Result<IndexValue, Fault>
    requires in_range { IndexFits (length program.now.exprs) index.now }
    requires names { HasNames program.now (S.names scope.now) }
    ensures answer { Answers (λ v. v) result (index_walk (meaning_in program.now (S.names scope.now)) false (bracket_in program.now index.now)).answer }
    ensures cost { OnOk result (left.new ≡ left.old - (index_walk (meaning_in program.now (S.names scope.now)) false (bracket_in program.now index.now)).cost) }
    ensures few { IfOk result HasFewMembers }
{
    match index {
        IndexRef::At(id) => Ok(IndexValue::At(whole_counted(alloc, program, *id, scope, left)?)),
        IndexRef::Range {
            start,
            step,
            stop,
            ..
        } => {
            let start = end_counted(alloc, program, *start, scope, left)?;
            let step = end_counted(alloc, program, *step, scope, left)?;
            let stop = end_counted(alloc, program, *stop, scope, left)?;
            Ok(IndexValue::Range { start, step, stop })
        }
        IndexRef::Set(ids) => Ok(IndexValue::Set(members_counted(
            alloc, program, ids, scope, left,
        )?)),
    }
}

/// The values of all indexes in brackets, each a whole constant.
pub(crate) fn indexes_counted<S: Constants>(
    alloc: Global,
    program: &Program,
    index: &Items<IndexRef>,
    scope: &S,
    left: &mut u64,
) -> Result<Vec<IndexValue>, Fault>
    requires in_range { AllOf (IndexFits (length program.now.exprs)) index.now }
    requires names { HasNames program.now (S.names scope.now) }
    ensures answer { Answers (λ v. v.items) result (indexes_walk (meaning_in program.now (S.names scope.now)) false (brackets_in program.now index.now)).answer }
    ensures cost { OnOk result (left.new ≡ left.old - (indexes_walk (meaning_in program.now (S.names scope.now)) false (brackets_in program.now index.now)).cost) }
    ensures few { IfOk result (λ v. AreFew v.items) }
{
    let mut values = Vec::new(alloc);
    for bracket in &index.items {
        let value = index_counted(alloc, program, bracket, scope, left)?;
        push(&mut values, value)?;
    }
    Ok(values)
}
