//! The applications of a call.
ghost use Rattle.std.specs.Prelude.{◌≡◌, ◌≢◌, ◌+◌, [], true, false, map, length, nat_eq, option_map, OnOk, IfErr};
ghost use Rattle.qq_base.specs.declared.rule.Rule.TheVariants.{ArgumentCount, RepeatedQubit};
ghost use Rattle.const_eval.specs.Answers.{Answers};
ghost use Rattle.const_eval.specs.Refusing.{where_allowed};
ghost use Rattle.scope_env.specs.Scopes.{declare, is_declared};
ghost use Rattle.gate_lists.specs.Modifiers.{control_count as controls_in};
ghost use Rattle.gate_flatten.specs.Applications.{times_of as spec_times_of, length_with as spec_length_with, application as spec_application, qubit_at as spec_qubit_at, placed, distinct};
ghost use Rattle.gate_flatten.specs.Served.{placed_seen};

use alias_resolve::QubitList;
use gate_lists::{Modified, control_count, push, refused};
use qasm_ast::Declared;
use qq_base::{Fault, QubitId, Rule, Span};
use scope_env::{DeclareFault, Scopes};
use std::alloc::Global;

/// The qubits of an operand, with its place.
#[derive(Debug, Drop)]
pub(crate) struct Placed {
    pub place: Span,
    pub list: QubitList,
}

/// How often a call is applied that has as many operands as its modifiers and its gate take.
pub(crate) fn times_of_call(
    name: Declared,
    modifiers: &[Modified],
    own: usize,
    operands: &[Placed],
) -> Result<usize, Fault>
    ensures answer { Answers (λ n. n) result (where_allowed (nat_eq (length (map placed_seen operands.now)) (controls_in modifiers.now + own)) ArgumentCount name.at (spec_times_of (map placed_seen operands.now))) }
    ensures count { OnOk result (length operands.now ≡ controls_in modifiers.now + own) }
{
    let is_right = match control_count(modifiers) {
        Some(controls) => operands.len() >= own && operands.len() - own == controls,
        None => false,
    };
    if !is_right {
        return Err(refused(Rule::ArgumentCount, name.at));
    }
    times_of(operands)
}

// How often a call is applied: as often as its registers have places, and once where it has no register. A register of
// another length than the first one is refused.
#[tactic(auto, using(crate::proofs::Entering::length_more, crate::proofs::Entering::length_refused, crate::proofs::Entering::length_end))]
fn times_of(operands: &[Placed]) -> Result<usize, Fault>
    ensures { Answers (λ n. n) result (spec_times_of (map placed_seen operands.now)) }
{
    let mut times = None;
    for operand in operands {
        times = length_with(times, operand)?;
    }
    Ok(times.unwrap_or(1))
}

// The length of the registers, if there is one, once this operand is known.
fn length_with(known: Option<usize>, operand: &Placed) -> Result<Option<usize>, Fault>
    ensures { Answers (λ n. n) result (spec_length_with known (placed_seen operand.now)) }
{
    if operand.list.single {
        return Ok(known);
    }
    let length = operand.list.ids.len();
    match known {
        Some(first) if length != first => Err(refused(Rule::SizeMismatch, operand.place)),
        _ => Ok(Some(length)),
    }
}

/// The qubits of the k-th application, which are distinct: the first that stands in front of itself is refused.
#[tactic(auto, using(crate::proofs::Entering::application_skips, crate::proofs::Entering::application_goes_on, crate::proofs::Entering::application_repeats, crate::proofs::Entering::application_ends, crate::proofs::Entering::declared_among, crate::proofs::Entering::names_more, crate::proofs::Applying::before_nothing))]
pub(crate) fn application(
    alloc: Global,
    operands: &[Placed],
    k: usize,
) -> Result<Vec<QubitId>, Fault>
    ensures { Answers (λ v. v.items) result (distinct [] (spec_application (map placed_seen operands.now) k)) }
{
    let mut before = Scopes::new(alloc)?;
    let mut qubits = Vec::new(alloc);
    for operand in operands {
        if let Some(qubit) = qubit_at(operand, k) {
            enter(&mut before, qubit, operand.place)?;
            push(&mut qubits, qubit)?;
        }
    }
    Ok(qubits)
}

// The qubit of an operand in the k-th application.
fn qubit_at(operand: &Placed, k: usize) -> Option<QubitId>
    ensures { option_map (placed operand.now.place) result ≡ spec_qubit_at k (placed_seen operand.now) }
{
    let place = if operand.list.single { 0 } else { k };
    operand.list.ids.get(place).copied()
}

// Puts a qubit to those in front of the next one, if it is not among them.
fn enter(before: &mut Scopes<()>, qubit: QubitId, place: Span) -> Result<(), Fault>
    ensures entered { OnOk result (before.new ≡ declare qubit.0 tt before.old) }
    ensures is_new { OnOk result (is_declared qubit.0 before.old ≡ false) }
    ensures refused { IfErr result (λ fault. fault ≢ Fault.Memory → (is_declared qubit.0 before.old ≡ true) × (fault ≡ Fault.Refused (record { rule = RepeatedQubit; at = place }))) }
{
    match before.declare(qubit.0, ()) {
        Ok(()) => Ok(()),
        Err(DeclareFault::Redeclared(())) => Err(refused(Rule::RepeatedQubit, place)),
        Err(DeclareFault::Memory(())) => Err(Fault::Memory),
    }
}
