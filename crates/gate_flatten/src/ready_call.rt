//! A call up to its applications.
ghost use Rattle.std.specs.Prelude.{◌≡◌, ◌<◌, ◌≤◌, ◌-◌, ℕ, ℤ, All, length, IfErr, IfOk, OnOk};
ghost use Rattle.const_eval.specs.Answers.{Fails};
ghost use Rattle.gate_lists.specs.Paid.{paid_from};
ghost use Rattle.gate_arguments.specs.Seen.{ArgumentFits};
ghost use Rattle.gate_flatten.specs.Served.{AnswersOperand, CallFits, PreparedFits, Served, applications_walk, call_walk};

use crate::applications::{Placed, times_of_call};
use crate::call::{Around, Call};
use crate::gate::{Ready, ready_gate};
use crate::modifiers::modifiers_at;
use crate::named::gate_called;
use crate::operands::operands_at;
use const_eval::GateEnv;
use gate_arguments::{Argument, Scope};
use gate_lists::{Budget, Modified, refused};
use qq_base::{Fault, Rule};

/// A call that is ready for its applications.
#[derive(Drop)]
pub(crate) struct Prepared<'p, 'a> {
    pub modifiers: Vec<Modified>,
    pub ready: Ready<'p, 'a>,
    pub operands: Vec<Placed>,
    /// How often it is applied.
    pub times: usize,
}

/// A call up to its applications: its modifiers, its gate, whether so many calls may be open, this one among them, its arguments
/// and its operands.
pub(crate) fn ready_call<'p, 'a, E: GateEnv>(
    around: &Around<'p>,
    call: &Call<'_>,
    arguments: &'a [Argument],
    scope: &Scope<'_, E>,
    levels: u32,
    budget: &mut Budget,
) -> Result<Prepared<'p, 'a>, Fault>
    requires call { CallFits around.now.program.now call.now }
    requires served { Served around.now.program.now (E.names scope.now.env.now) (E.callables scope.now.env.now) (E.operands scope.now.env.now) (E.inside scope.now.env.now) scope.now.body }
    requires operands { All (AnswersOperand (E.operands scope.now.env.now) (E.inside scope.now.env.now) scope.now.body) call.now.operands.now }
    requires count { length arguments.now ≡ length call.now.args.now }
    ensures goes_on { IfOk result (λ made. (worths : ℕ → ℤ) → paid_from budget.old (call_walk around.now.program.now (E.names scope.now.env.now) (E.callables scope.now.env.now) (E.operands scope.now.env.now) (E.inside scope.now.env.now) worths levels scope.now.body call.now arguments.now) ≡ paid_from budget.new (applications_walk around.now.program.now (E.names scope.now.env.now) (E.callables scope.now.env.now) (E.operands scope.now.env.now) (E.inside scope.now.env.now) worths (levels - 1) scope.now.body made)) }
    ensures fails { IfErr result (λ why. (worths : ℕ → ℤ) → Fails why (paid_from budget.old (call_walk around.now.program.now (E.names scope.now.env.now) (E.callables scope.now.env.now) (E.operands scope.now.env.now) (E.inside scope.now.env.now) worths levels scope.now.body call.now arguments.now))) }
    ensures deep { OnOk result (0 < levels) }
    ensures fits { (turns : ℕ) → All (ArgumentFits turns) arguments.now → IfOk result (PreparedFits around.now.program.now turns) }
    ensures paid { OnOk result (budget.new.left ≤ budget.old.left) }
{
    let alloc = around.alloc;
    let program = around.program;
    let modifiers = modifiers_at(alloc, program, call.mods, scope, budget)?;
    let gate = gate_called(program, call.gate, scope)?;
    if levels == 0 {
        return Err(refused(Rule::CallDepth, call.gate.at));
    }
    let ready = ready_gate(alloc, program, call, &gate, arguments)?;
    let operands = operands_at(alloc, program, call.operands, scope, budget)?;
    let times = times_of_call(call.gate, &modifiers, ready.qubit_count(), &operands)?;
    Ok(Prepared {
        modifiers,
        ready,
        operands,
        times,
    })
}
