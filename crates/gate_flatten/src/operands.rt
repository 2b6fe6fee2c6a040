//! The operands of a call.
ghost use Rattle.std.specs.Prelude.{◌≡◌, ◌<◌, false, map, length, All, IfOk};
ghost use Rattle.qasm_ast.specs.View.{called_in, operand_in};
ghost use Rattle.qasm_ast.specs.Whole.{AllOf, OperandFits};
ghost use Rattle.alias_resolve.specs.Seen.{seen_qubits};
ghost use Rattle.const_eval.specs.Meaning.{meaning_in};
ghost use Rattle.const_eval.specs.Operands.{is_wire, operand_walk};
ghost use Rattle.const_eval.specs.Seen.{HasNames};
ghost use Rattle.gate_lists.specs.Paid.{AnswersWithin};
ghost use Rattle.gate_arguments.specs.Seen.{scope_names, scope_qubits};
ghost use Rattle.gate_flatten.specs.declared.applications.Placed.{Placed};
ghost use Rattle.gate_flatten.specs.Applications.{placed_operands};
ghost use Rattle.gate_flatten.specs.Served.{AnswersOperand, IsOne, placed_seen};

use crate::applications::Placed;
use alias_resolve::{QubitList, qubits_of};
use const_eval::{GateEnv, refusal_of_fault};
use gate_arguments::{Scope, indexes_at};
use gate_lists::{Budget, push, refused};
use qasm_ast::{Items, OperandName, OperandRef, Program};
use qq_base::{Fault, Rule};
use std::alloc::Global;

/// The operands of a call, in order.
pub(crate) fn operands_at<E: GateEnv>(
    alloc: Global,
    program: &Program,
    operands: &Items<OperandRef>,
    scope: &Scope<'_, E>,
    budget: &mut Budget,
) -> Result<Vec<Placed>, Fault>
    requires in_range { AllOf (OperandFits (length program.now.names) (length program.now.exprs)) operands.now }
    requires names { HasNames program.now (scope_names (E.names scope.now.env.now) (E.inside scope.now.env.now) scope.now.body) }
    requires answered { All (AnswersOperand (E.operands scope.now.env.now) (E.inside scope.now.env.now) scope.now.body) operands.now }
    ensures answer { AnswersWithin budget.old budget.new (λ v. map placed_seen v.items) result (placed_operands (meaning_in program.now (scope_names (E.names scope.now.env.now) (E.inside scope.now.env.now) scope.now.body)) (scope_qubits program.now (E.operands scope.now.env.now) (E.inside scope.now.env.now) scope.now.body) (map (operand_in program.now) operands.now)) }
    ensures ones { IfOk result (λ v. All (λ (s : Placed). IsOne s.list) v.items) }
{
    let mut found = Vec::new(alloc);
    for operand in &operands.items {
        let list = operand_at(alloc, program, operand, scope, budget)?;
        push(
            &mut found,
            Placed {
                place: operand.at,
                list,
            },
        )?;
    }
    Ok(found)
}

// The qubits of an operand: its name first, then all its indexes, and then what they select.
#[tactic(auto, using(crate::proofs::Operating::wire_refused))]
fn operand_at<E: GateEnv>(
    alloc: Global,
    program: &Program,
    operand: &OperandRef,
    scope: &Scope<'_, E>,
    budget: &mut Budget,
) -> Result<QubitList, Fault>
    requires in_range { OperandFits (length program.now.names) (length program.now.exprs) operand.now }
    requires names { HasNames program.now (scope_names (E.names scope.now.env.now) (E.inside scope.now.env.now) scope.now.body) }
    requires answered { AnswersOperand (E.operands scope.now.env.now) (E.inside scope.now.env.now) scope.now.body operand.now }
    ensures answer { AnswersWithin budget.old budget.new seen_qubits result (operand_walk (meaning_in program.now (scope_names (E.names scope.now.env.now) (E.inside scope.now.env.now) scope.now.body)) (scope_qubits program.now (E.operands scope.now.env.now) (E.inside scope.now.env.now) scope.now.body) (operand_in program.now operand.now)) }
    ensures one { IfOk result IsOne }
{
    if operand.index.items.is_empty() {
        return scope.qubits(alloc, program, operand);
    }
    match operand.name {
        OperandName::Hardware(_) => Err(refused(Rule::WrongKind, operand.at)),
        OperandName::Name(_) => indexed_qubits(alloc, program, operand, scope, budget),
    }
}

// The qubits that brackets select of a register.
fn indexed_qubits<E: GateEnv>(
    alloc: Global,
    program: &Program,
    operand: &OperandRef,
    scope: &Scope<'_, E>,
    budget: &mut Budget,
) -> Result<QubitList, Fault>
    requires in_range { OperandFits (length program.now.names) (length program.now.exprs) operand.now }
    requires names { HasNames program.now (scope_names (E.names scope.now.env.now) (E.inside scope.now.env.now) scope.now.body) }
    requires answered { AnswersOperand (E.operands scope.now.env.now) (E.inside scope.now.env.now) scope.now.body operand.now }
    requires word { is_wire (called_in program.now operand.now.name) ≡ false }
    requires some { 0 < length operand.now.index }
    ensures answer { AnswersWithin budget.old budget.new seen_qubits result (operand_walk (meaning_in program.now (scope_names (E.names scope.now.env.now) (E.inside scope.now.env.now) scope.now.body)) (scope_qubits program.now (E.operands scope.now.env.now) (E.inside scope.now.env.now) scope.now.body) (operand_in program.now operand.now)) }
    ensures one { IfOk result IsOne }
{
    let register = scope.qubits(alloc, program, operand)?;
    if register.single {
        return Err(refused(Rule::WrongKind, operand.at));
    }
    let values = indexes_at(alloc, program, &operand.index, scope, false, budget)?;
    match qubits_of(alloc, &register.ids, &values) {
        Ok(list) => Ok(list),
        Err(fault) => Err(refusal_of_fault(program, operand.at, &operand.index, fault)),
    }
}
