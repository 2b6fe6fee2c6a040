//! Constants that stand in a call of a subroutine, with what their nodes cost.
ghost use Rattle.std.specs.Prelude.{◌≡◌, ◌-◌, ◌<◌, false, length, OnOk};
ghost use Rattle.qasm_ast.specs.View.{tree_in};
ghost use Rattle.const_eval.specs.Answers.{Answers};
ghost use Rattle.const_eval.specs.ConstantWalk.{constant_walk, whole_walk};
ghost use Rattle.const_eval.specs.ConstCast.{whole_at as whole_of};
ghost use Rattle.const_eval.specs.Meaning.{meaning_in};
ghost use Rattle.const_eval.specs.Seen.{HasNames, constant_of};

use const_eval::{Const, Constants, const_value};
use gate_arguments::constant_at;
use gate_lists::{Budget, refused};
use qasm_ast::{ExprId, Program};
use qq_base::{Fault, Rule, Span};
use std::alloc::Global;

/// The value of an expression that must be constant. Its nodes are taken from what is left of the costs that are counted, and
/// where they are more, nothing is left.
pub(crate) fn constant_counted<S: Constants>(
    alloc: Global,
    program: &Program,
    id: ExprId,
    scope: &S,
    left: &mut u64,
) -> Result<Const, Fault>
    requires in_range { id.0 < length program.now.exprs }
    requires names { HasNames program.now (S.names scope.now) }
    ensures answer { Answers constant_of result (constant_walk (meaning_in program.now (S.names scope.now)) false (tree_in program.now id.0)).answer }
    ensures cost { OnOk result (left.new ≡ left.old - (constant_walk (meaning_in program.now (S.names scope.now)) false (tree_in program.now id.0)).cost) }
{
    let mut budget = Budget {
        left: *left,
        place: program.expr(id).at,
    };
    match constant_at(alloc, program, id, scope, false, &mut budget) {
        Ok(value) => {
            *left = budget.left;
            Ok(value)
        }
        Err(Fault::Memory) => Err(Fault::Memory),
        Err(Fault::Refused(_)) => {
            // by a rule of its own, or only because its nodes are more than what is left
            *left = 0;
            const_value(alloc, program, id, scope, false)
        }
    }
}

/// A whole number, where a constant of another kind may not stand.
pub(crate) fn whole_counted<S: Constants>(
    alloc: Global,
    program: &Program,
    id: ExprId,
    scope: &S,
    left: &mut u64,
) -> Result<i128, Fault>
    requires in_range { id.0 < length program.now.exprs }
    requires names { HasNames program.now (S.names scope.now) }
    ensures answer { Answers (λ z. z) result (whole_walk (meaning_in program.now (S.names scope.now)) false (tree_in program.now id.0)).answer }
    ensures cost { OnOk result (left.new ≡ left.old - (whole_walk (meaning_in program.now (S.names scope.now)) false (tree_in program.now id.0)).cost) }
{
    let value = constant_counted(alloc, program, id, scope, left)?;
    whole_number(&value, program.expr(id).at)
}

/// The number that a whole constant is.
pub(crate) fn whole_number(value: &Const, place: Span) -> Result<i128, Fault>
    ensures { Answers (λ z. z) result (whole_of place (constant_of value.now)) }
{
    match value {
        Const::Whole(whole) => Ok(whole.number),
        _ => Err(refused(Rule::NoCast, place)),
    }
}
