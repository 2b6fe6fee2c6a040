//! The qubits that an argument names.
ghost use Rattle.std.specs.Prelude.{◌≡◌, ◌-◌, ◌<◌, ◌^◌, false, length, IfOk, OnOk, slice_get};
ghost use Rattle.qasm_ast.specs.View.{brackets_in, called_in, tree_in};
ghost use Rattle.qasm_ast.specs.Tree.{place_of};
ghost use Rattle.qasm_ast.specs.Whole.{NameFits, OperandFits};
ghost use Rattle.alias_resolve.specs.Seen.{seen_qubits};
ghost use Rattle.const_eval.specs.Answers.{Answers};
ghost use Rattle.const_eval.specs.Binding.{ToQubits, TakesQubits, bound_argument_walk};
ghost use Rattle.const_eval.specs.Meaning.{meaning_in};
ghost use Rattle.const_eval.specs.Operands.{at_place, is_wire, operand_walk};
ghost use Rattle.const_eval.specs.Seen.{HasNames};
ghost use Rattle.gate_arguments.specs.Environment.{operand_in};
ghost use Rattle.subroutine_inline.specs.Serves.{HasArgument, HasOperand};

use crate::indexes::indexes_counted;
use alias_resolve::{QubitList, qubits_of};
use const_eval::{GateEnv, refusal_of_fault};
use gate_arguments::Scope;
use gate_lists::refused;
use qasm_ast::{ExprId, ExprKind, Items, OperandName, OperandRef, Program};
use qq_base::{Fault, Rule, Span};
use std::alloc::Global;

/// The qubits of an argument, as many as its parameter takes. In the body they are a qubit alone where the parameter is one.
pub(crate) fn argument_qubits<E: GateEnv>(
    alloc: Global,
    program: &Program,
    id: ExprId,
    count: u32,
    single: bool,
    env: &E,
    left: &mut u64,
) -> Result<QubitList, Fault>
    requires in_range { id.0 < length program.now.exprs }
    requires names { HasNames program.now (E.names env.now) }
    requires answered { HasArgument (E.operands env.now) (slice_get program.now.exprs id.0) }
    ensures answer { Answers (λ list. ToQubits (seen_qubits list)) result (bound_argument_walk (meaning_in program.now (E.names env.now)) (operand_in program.now (E.operands env.now)) (tree_in program.now id.0) (TakesQubits count single)).answer }
    ensures cost { OnOk result (left.new ≡ left.old - (bound_argument_walk (meaning_in program.now (E.names env.now)) (operand_in program.now (E.operands env.now)) (tree_in program.now id.0) (TakesQubits count single)).cost) }
{
    let node = program.expr(id);
    let list = match &node.kind {
        ExprKind::Name(operand) => operand_qubits(alloc, program, operand, node.at, env, left)?,
        ExprKind::Hardware(number) => {
            let name = OperandName::Hardware(*number);
            named_qubits(alloc, program, name, node.at, env)?
        }
        _ => return Err(refused(Rule::WrongKind, node.at)),
    };
    if list.ids.len() != count as usize {
        return Err(refused(Rule::SizeMismatch, node.at));
    }
    Ok(QubitList {
        ids: list.ids,
        single,
    })
}

// The qubits of an operand that stands as an expression: its name first, then all its indexes, and then what they select.
fn operand_qubits<E: GateEnv>(
    alloc: Global,
    program: &Program,
    operand: &OperandRef,
    place: Span,
    env: &E,
    left: &mut u64,
) -> Result<QubitList, Fault>
    requires in_range { OperandFits (length program.now.names) (length program.now.exprs) operand.now }
    requires names { HasNames program.now (E.names env.now) }
    requires answered { HasOperand (E.operands env.now) operand.now.name }
    ensures answer { Answers seen_qubits result (operand_walk (meaning_in program.now (E.names env.now)) (operand_in program.now (E.operands env.now)) (record { name = called_in program.now operand.now.name; index = brackets_in program.now operand.now.index; place = place })).answer }
    ensures cost { OnOk result (left.new ≡ left.old - (operand_walk (meaning_in program.now (E.names env.now)) (operand_in program.now (E.operands env.now)) (record { name = called_in program.now operand.now.name; index = brackets_in program.now operand.now.index; place = place })).cost) }
{
    if operand.index.items.is_empty() {
        return named_qubits(alloc, program, operand.name, place, env);
    }
    match operand.name {
        OperandName::Hardware(_) => Err(refused(Rule::WrongKind, place)),
        OperandName::Name(_) => selected_qubits(alloc, program, operand, place, env, left),
    }
}

// The qubits that brackets select of a register.
fn selected_qubits<E: GateEnv>(
    alloc: Global,
    program: &Program,
    operand: &OperandRef,
    place: Span,
    env: &E,
    left: &mut u64,
) -> Result<QubitList, Fault>
    requires in_range { OperandFits (length program.now.names) (length program.now.exprs) operand.now }
    requires names { HasNames program.now (E.names env.now) }
    requires answered { HasOperand (E.operands env.now) operand.now.name }
    requires word { is_wire (called_in program.now operand.now.name) ≡ false }
    requires some { 0 < length operand.now.index }
    ensures answer { Answers seen_qubits result (operand_walk (meaning_in program.now (E.names env.now)) (operand_in program.now (E.operands env.now)) (record { name = called_in program.now operand.now.name; index = brackets_in program.now operand.now.index; place = place })).answer }
    ensures cost { OnOk result (left.new ≡ left.old - (operand_walk (meaning_in program.now (E.names env.now)) (operand_in program.now (E.operands env.now)) (record { name = called_in program.now operand.now.name; index = brackets_in program.now operand.now.index; place = place })).cost) }
{
    let register = named_qubits(alloc, program, operand.name, place, env)?;
    if register.single {
        return Err(refused(Rule::WrongKind, place));
    }
    let values = indexes_counted(alloc, program, &operand.index, env, left)?;
    match qubits_of(alloc, &register.ids, &values) {
        Ok(list) => Ok(list),
        Err(fault) => Err(refusal_of_fault(program, place, &operand.index, fault)),
    }
}

// The qubits of a name, or of a `$n`, in front of any brackets.
fn named_qubits<E: GateEnv>(
    alloc: Global,
    program: &Program,
    name: OperandName,
    place: Span,
    env: &E,
) -> Result<QubitList, Fault>
    requires in_range { NameFits (length program.now.names) name }
    requires answered { HasOperand (E.operands env.now) name }
    ensures answer { Answers seen_qubits result (at_place place (operand_in program.now (E.operands env.now) (called_in program.now name))) }
    ensures few { IfOk result (λ l. length l.ids.items < 2 ^ 32) }
{
    let operand = OperandRef {
        name,
        index: Items {
            items: Vec::new(alloc),
        },
        at: place,
    };
    let scope = Scope { env, body: None };
    scope.qubits(alloc, program, &operand)
}
