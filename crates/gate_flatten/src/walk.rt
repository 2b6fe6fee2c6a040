//! Calls of gates, walked.
ghost use Rattle.std.specs.Prelude.{◌≡◌, ◌+◌, ◌<◌, ℕ, ℤ, All, length, slice_get, IsTrue};
ghost use Rattle.qq_base.specs.declared.run.QubitId.{QubitId};
ghost use Rattle.qasm_ast.specs.Whole.{AllOf, IsStmt};
ghost use Rattle.gate_lists.specs.Growing.{AreWorths};
ghost use Rattle.gate_lists.specs.Members.{instructions_in};
ghost use Rattle.gate_lists.specs.Modifiers.{control_count as controls_in};
ghost use Rattle.gate_lists.specs.Paid.{AnswersWithin};
ghost use Rattle.gate_arguments.specs.Seen.{ArgumentFits};
ghost use Rattle.gate_flatten.specs.Served.{AnswersOperand, CallFits, Leaves, ReadyFits, Served, ServedBody, call_walk, applied_walk, gate_walk, body_walk, member_walk, count_of};

use crate::applications::application;
use crate::call::{Around, Call};
use crate::gate::{Ready, one_instruction};
use crate::operands::operands_at;
use crate::ready_call::ready_call;
use const_eval::GateEnv;
use gate_arguments::{Argument, Scope, Signature, arguments_at, body_scope};
use gate_lists::{Member, Modified, Work, append, modified_list};
use qasm_ast::{Items, StmtId, StmtKind};
use qq_base::{Fault, QubitId};

/// What a statement in the body of a gate costs, beside what it walks.
const MEMBER_COST: u64 = 1;

/// The list of a call whose arguments are walked, where so many calls may be open, this one among them.
#[cycle(call_list)]
pub(crate) fn call_list<E: GateEnv>(
    around: &Around<'_>,
    call: &Call<'_>,
    arguments: &[Argument],
    scope: &Scope<'_, E>,
    levels: u32,
    work: &mut Work,
) -> Result<Vec<Member>, Fault>
    requires call { CallFits around.now.program.now call.now }
    requires served { Served around.now.program.now (E.names scope.now.env.now) (E.callables scope.now.env.now) (E.operands scope.now.env.now) (E.inside scope.now.env.now) scope.now.body }
    requires operands { All (AnswersOperand (E.operands scope.now.env.now) (E.inside scope.now.env.now) scope.now.body) call.now.operands.now }
    requires count { length arguments.now ≡ length call.now.args.now }
    requires arguments { All (ArgumentFits (length work.old.turns.items.items)) arguments.now }
    ensures answer { (given worths : ℕ → ℤ) → AreWorths given worths work.new.turns.items.items → AnswersWithin work.old.budget work.new.budget (λ v. instructions_in worths v.items) result (call_walk around.now.program.now (E.names scope.now.env.now) (E.callables scope.now.env.now) (E.operands scope.now.env.now) (E.inside scope.now.env.now) worths levels scope.now.body call.now arguments.now) }
    ensures leaves { Leaves work.old work.new result }
{
    let made = ready_call(around, call, arguments, scope, levels, &mut work.budget)?;
    let deeper = levels - 1;
    let mut list = Vec::new(around.alloc);
    for k in 0..made.times {
        let qubits = application(around.alloc, &made.operands, k)?;
        let more = applied_list(
            around,
            &made.ready,
            &made.modifiers,
            &qubits,
            scope,
            deeper,
            work,
        )?;
        append(&mut list, &more)?;
    }
    Ok(list)
}

// One application on its qubits, those of the controls first. In the body of the gate so many calls may be open.
#[cycle(call_list)]
fn applied_list<E: GateEnv>(
    around: &Around<'_>,
    ready: &Ready<'_, '_>,
    modifiers: &[Modified],
    qubits: &[QubitId],
    scope: &Scope<'_, E>,
    levels: u32,
    work: &mut Work,
) -> Result<Vec<Member>, Fault>
    requires served { Served around.now.program.now (E.names scope.now.env.now) (E.callables scope.now.env.now) (E.operands scope.now.env.now) (E.inside scope.now.env.now) scope.now.body }
    requires ready { ReadyFits around.now.program.now (length work.old.turns.items.items) ready.now }
    requires qubits { length qubits.now ≡ controls_in modifiers.now + count_of ready.now }
    ensures answer { (given worths : ℕ → ℤ) → AreWorths given worths work.new.turns.items.items → AnswersWithin work.old.budget work.new.budget (λ v. instructions_in worths v.items) result (applied_walk around.now.program.now (E.names scope.now.env.now) (E.callables scope.now.env.now) (E.operands scope.now.env.now) (E.inside scope.now.env.now) worths levels scope.now.body ready.now modifiers.now qubits.now) }
    ensures leaves { Leaves work.old work.new result }
{
    let (controls, own) = qubits.split_at(qubits.len() - ready.qubit_count());
    let list = gate_list(around, ready, own, scope, levels, work)?;
    modified_list(around.alloc, modifiers, controls, list, &mut work.budget)
}

// The list of a gate on its qubits.
#[cycle(call_list)]
fn gate_list<E: GateEnv>(
    around: &Around<'_>,
    ready: &Ready<'_, '_>,
    qubits: &[QubitId],
    scope: &Scope<'_, E>,
    levels: u32,
    work: &mut Work,
) -> Result<Vec<Member>, Fault>
    requires served { Served around.now.program.now (E.names scope.now.env.now) (E.callables scope.now.env.now) (E.operands scope.now.env.now) (E.inside scope.now.env.now) scope.now.body }
    requires ready { ReadyFits around.now.program.now (length work.old.turns.items.items) ready.now }
    requires qubits { length qubits.now ≡ count_of ready.now }
    ensures answer { (given worths : ℕ → ℤ) → AreWorths given worths work.new.turns.items.items → AnswersWithin work.old.budget work.new.budget (λ v. instructions_in worths v.items) result (gate_walk around.now.program.now (E.names scope.now.env.now) (E.callables scope.now.env.now) (E.operands scope.now.env.now) (E.inside scope.now.env.now) worths levels scope.now.body ready.now qubits.now) }
    ensures leaves { Leaves work.old work.new result }
{
    match ready {
        Ready::Table { gate, args, .. } => one_instruction(around.alloc, *gate, args, qubits, work),
        Ready::Defined { defined, arguments } => {
            let signature = Signature {
                def: defined.def,
                params: defined.params,
                qubits: defined.qubits,
            };
            let inner = body_scope(
                around.alloc,
                around.program,
                &*scope,
                signature,
                arguments,
                qubits,
            )?;
            body_list(around, defined.body, &inner, levels, work)
        }
    }
}

// The list of the body of a gate. Each statement costs 1, and what it walks.
#[cycle(call_list)]
fn body_list<E: GateEnv>(
    around: &Around<'_>,
    body: &Items<StmtId>,
    scope: &Scope<'_, E>,
    levels: u32,
    work: &mut Work,
) -> Result<Vec<Member>, Fault>
    requires in_range { AllOf (IsStmt (length around.now.program.now.stmts)) body.now }
    requires inside { ServedBody around.now.program.now (E.names scope.now.env.now) (E.callables scope.now.env.now) (E.operands scope.now.env.now) (E.inside scope.now.env.now) (length work.old.turns.items.items) scope.now.body }
    ensures answer { (given worths : ℕ → ℤ) → AreWorths given worths work.new.turns.items.items → AnswersWithin work.old.budget work.new.budget (λ v. instructions_in worths v.items) result (body_walk around.now.program.now (E.names scope.now.env.now) (E.callables scope.now.env.now) (E.operands scope.now.env.now) (E.inside scope.now.env.now) worths levels scope.now.body body.now) }
    ensures leaves { Leaves work.old work.new result }
{
    let mut list = Vec::new(around.alloc);
    for id in &body.items {
        work.budget.spend(MEMBER_COST)?;
        let more = member_list(around, *id, scope, levels, work)?;
        append(&mut list, &more)?;
    }
    Ok(list)
}

// A statement in the body of a gate: a call, whose arguments come first, or a `barrier`, which gives nothing.
#[cycle(call_list)]
fn member_list<E: GateEnv>(
    around: &Around<'_>,
    id: StmtId,
    scope: &Scope<'_, E>,
    levels: u32,
    work: &mut Work,
) -> Result<Vec<Member>, Fault>
    requires in_range { id.0 < length around.now.program.now.stmts }
    requires inside { ServedBody around.now.program.now (E.names scope.now.env.now) (E.callables scope.now.env.now) (E.operands scope.now.env.now) (E.inside scope.now.env.now) (length work.old.turns.items.items) scope.now.body }
    ensures answer { (given worths : ℕ → ℤ) → AreWorths given worths work.new.turns.items.items → AnswersWithin work.old.budget work.new.budget (λ v. instructions_in worths v.items) result (member_walk around.now.program.now (E.names scope.now.env.now) (E.callables scope.now.env.now) (E.operands scope.now.env.now) (E.inside scope.now.env.now) worths levels scope.now.body id) }
    ensures leaves { Leaves work.old work.new result }
{
    let alloc = around.alloc;
    let program = around.program;
    match &program.stmt(id).kind {
        StmtKind::GateCall {
            mods,
            gate,
            args,
            operands,
        } => {
            let arguments = arguments_at(alloc, program, args, scope, work)?;
            let call = Call {
                mods,
                gate: *gate,
                args,
                operands,
            };
            call_list(around, &call, &arguments, scope, levels, work)
        }
        StmtKind::Barrier(operands) => {
            let _qubits = operands_at(alloc, program, operands, scope, &mut work.budget)?;
            Ok(Vec::new(alloc))
        }
        _ => Ok(Vec::new(alloc)),
    }
}
