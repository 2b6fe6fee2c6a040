//! The modifiers of a call, as they are written.
ghost use Rattle.std.specs.Prelude.{◌<◌, ◌≤ℤ◌, pos, neg_ℤ, map, length};
ghost use Rattle.qasm_ast.specs.Tree.{control, place_of};
ghost use Rattle.qasm_ast.specs.View.{change_in, maybe_in, tree_in};
ghost use Rattle.qasm_ast.specs.Whole.{AllOf, IfThere, IsExpr, ModifierFits};
ghost use Rattle.const_eval.specs.Answers.{Answers};
ghost use Rattle.const_eval.specs.Meaning.{meaning_in};
ghost use Rattle.const_eval.specs.Seen.{HasNames};
ghost use Rattle.gate_arguments.specs.Seen.{scope_names};
ghost use Rattle.gate_lists.specs.Paid.{AnswersWithin};
ghost use Rattle.gate_flatten.specs.Modifiers.{in_range as spec_in_range, modifier_walk, modifiers_walk};

use const_eval::GateEnv;
use gate_arguments::{Scope, whole_at};
use gate_lists::{Budget, Modified, push, refused};
use qasm_ast::{ExprId, Items, Modifier, Program};
use qq_base::{Fault, Rule, Span};
use std::alloc::Global;

/// The greatest exponent and number of controls.
const MOST: i128 = 1024;

/// The modifiers of a call, from left to right.
#[tactic(auto, using(crate::proofs::Fronts::front_nothing))]
pub(crate) fn modifiers_at<E: GateEnv>(
    alloc: Global,
    program: &Program,
    mods: &Items<Modifier>,
    scope: &Scope<'_, E>,
    budget: &mut Budget,
) -> Result<Vec<Modified>, Fault>
    requires in_range { AllOf (ModifierFits (length program.now.exprs)) mods.now }
    requires names { HasNames program.now (scope_names (E.names scope.now.env.now) (E.inside scope.now.env.now) scope.now.body) }
    ensures { AnswersWithin budget.old budget.new (λ v. v.items) result (modifiers_walk (meaning_in program.now (scope_names (E.names scope.now.env.now) (E.inside scope.now.env.now) scope.now.body)) (map (change_in program.now) mods.now)) }
{
    let mut modifiers = Vec::new(alloc);
    for modifier in &mods.items {
        let known = modifier_at(alloc, program, *modifier, scope, budget)?;
        push(&mut modifiers, known)?;
    }
    Ok(modifiers)
}

// A modifier. An exponent must leave no remainder where it divides, which a number of controls may.
#[tactic(auto, using(crate::proofs::Modifying::inverse_known))]
fn modifier_at<E: GateEnv>(
    alloc: Global,
    program: &Program,
    modifier: Modifier,
    scope: &Scope<'_, E>,
    budget: &mut Budget,
) -> Result<Modified, Fault>
    requires in_range { ModifierFits (length program.now.exprs) modifier }
    requires names { HasNames program.now (scope_names (E.names scope.now.env.now) (E.inside scope.now.env.now) scope.now.body) }
    ensures { AnswersWithin budget.old budget.new (λ m. m) result (modifier_walk (meaning_in program.now (scope_names (E.names scope.now.env.now) (E.inside scope.now.env.now) scope.now.body)) (change_in program.now modifier)) }
{
    match modifier {
        Modifier::Inv(at) => Ok(Modified::Inverse(at)),
        Modifier::Pow(id, at) => {
            let number = whole_at(alloc, program, id, scope, true, budget)?;
            let exponent = in_range(program, id, -MOST, number)?;
            Ok(Modified::Power(exponent, at))
        }
        Modifier::Ctrl(count, at) => controls_at(alloc, program, count, at, scope, budget),
    }
}

// A number of controls, which is 1 where none is written.
#[tactic(auto, using(crate::proofs::Modifying::control_known))]
fn controls_at<E: GateEnv>(
    alloc: Global,
    program: &Program,
    count: Option<ExprId>,
    at: Span,
    scope: &Scope<'_, E>,
    budget: &mut Budget,
) -> Result<Modified, Fault>
    requires in_range { IfThere (IsExpr (length program.now.exprs)) count }
    requires names { HasNames program.now (scope_names (E.names scope.now.env.now) (E.inside scope.now.env.now) scope.now.body) }
    ensures { AnswersWithin budget.old budget.new (λ m. m) result (modifier_walk (meaning_in program.now (scope_names (E.names scope.now.env.now) (E.inside scope.now.env.now) scope.now.body)) (control (maybe_in program.now count) at)) }
{
    let Some(id) = count else {
        return Ok(Modified::Controls(1, at));
    };
    let number = whole_at(alloc, program, id, scope, false, budget)?;
    let controls = in_range(program, id, 1, number)?;
    Ok(Modified::Controls(controls.unsigned_abs(), at))
}

// A number from the least one to 1,024.
fn in_range(program: &Program, id: ExprId, least: i128, number: i128) -> Result<i32, Fault>
    requires in_range { id.0 < length program.now.exprs }
    requires least { neg_ℤ (pos 1024) ≤ℤ least }
    ensures { Answers (λ z. z) result (spec_in_range least (pos 1024) number (place_of (tree_in program.now id.0))) }
{
    if number < least || number > MOST {
        return Err(refused(Rule::PowRange, program.expr(id).at));
    }
    Ok(number as i32)
}
