//! The call of the crate.
ghost use Rattle.std.specs.Prelude.{◌≡◌, ℕ, ℤ, ◌+◌, ◌<◌, ◌≤◌, [], All, length, slice_get, Some, IfOk, OnOk};
ghost use Rattle.const_eval.specs.Answers.{Answers};
ghost use Rattle.gate_lists.specs.Growing.{AreWorths};
ghost use Rattle.gate_lists.specs.Seen.{seen_expansion};
ghost use Rattle.gate_lists.specs.Turns.{AreTurns, made_count};
ghost use Rattle.gate_arguments.specs.Kept.{KeepsTurns};
ghost use Rattle.gate_arguments.specs.Seen.{ArgumentFits, argument_seen, arguments_seen};
ghost use Rattle.gate_flatten.specs.Outer.{OuterMeaning};
ghost use Rattle.gate_flatten.specs.Seen.{due_call, outer_argument as spec_outer_argument, outer_arguments as spec_outer_arguments};
ghost use Rattle.gate_flatten.specs.Serves.{IsGateCall, Serves};

use crate::call::{Around, Call};
use crate::environment::{CallEnv, OuterArg};
use crate::walk::call_list;
use gate_arguments::{Argument, Scope};
use gate_lists::{Budget, Expansion, Turns, Work, finished, push};
use qasm_ast::{Program, StmtId, StmtKind};
use qq_base::{Fault, NoMemory};
use std::alloc::Global;

/// How many calls may be open.
const MOST_OPEN: u32 = 64;

/// The instructions of a call of a gate, or the first rule that its walk breaks, from its modifiers on; its arguments were
/// walked by the caller, and stand in the environment. A cost that passes the budget is refused at the statement, and no work
/// is done behind it.
pub fn expand<E: CallEnv>(
    alloc: Global,
    program: &Program,
    call: StmtId,
    env: &E,
    budget: u64,
) -> Result<Expansion, Fault>
    requires in_range { call.0 < length program.now.stmts }
    requires is_call { IsGateCall (slice_get program.now.stmts call.0) }
    requires serves { Serves program.now call.0 (E.names env.now) (E.callables env.now) (E.operands env.now) (E.inside env.now) (E.outers env.now) }
    requires small { budget ≤ 250000 }

    // whatever units the run-time arguments have
    ensures exact { (given : ℕ → ℤ) → Answers (seen_expansion given) result (due_call program.now call.0 (E.names env.now) (E.callables env.now) (E.operands env.now) (E.inside env.now) (E.outers env.now) budget given) }
    ensures turns { IfOk result (λ e. AreTurns (length (E.outers env.now)) e.cost e.turns.items e.calls.items) }
{
    let stmt = program.stmt(call);
    let StmtKind::GateCall {
        mods,
        gate,
        args,
        operands,
    } = &stmt.kind
    else {
        unreachable!()
    };
    let mut turns = Turns::new(alloc);
    let arguments = outer_arguments(alloc, env, args.items.len() as u32, &mut turns)?;
    let written = Call {
        mods,
        gate: *gate,
        args,
        operands,
    };
    let mut work = Work {
        budget: Budget {
            left: budget,
            place: stmt.at,
        },
        turns,
    };
    let scope = Scope { env, body: None };
    let around = Around { alloc, program };
    let list = call_list(&around, &written, &arguments, &scope, MOST_OPEN, &mut work)?;
    Ok(finished(alloc, &list, work, budget)?)
}

// The arguments of the outermost call.
fn outer_arguments<E: CallEnv>(
    alloc: Global,
    env: &E,
    count: u32,
    turns: &mut Turns,
) -> Result<Vec<Argument>, NoMemory>
    requires all { count ≡ length (E.outers env.now) }
    requires none { turns.old.items.items ≡ [] }
    requires first { turns.old.args ≡ 0 }
    ensures worths { IfOk result (λ v. (given worths : ℕ → ℤ) → AreWorths given worths turns.new.items.items → arguments_seen worths v.items ≡ spec_outer_arguments given 0 (E.outers env.now)) }
    ensures count { IfOk result (λ v. length v.items ≡ count) }
    ensures fit { IfOk result (λ v. All (ArgumentFits (length turns.new.items.items)) v.items) }
    ensures outers { OnOk result (made_count turns.new.items.items ≡ 0) }
    ensures args { OnOk result (turns.new.args ≤ count) }
{
    let mut arguments = Vec::new(alloc);
    for k in 0..count {
        let argument = outer_argument(alloc, env, k, turns)?;
        push(&mut arguments, argument)?;
    }
    Ok(arguments)
}

// One of them: a turn stands behind those of the arguments in front of it.
fn outer_argument<E: CallEnv>(
    alloc: Global,
    env: &E,
    k: u32,
    turns: &mut Turns,
) -> Result<Argument, NoMemory>
    requires in_range { k < length (E.outers env.now) }
    requires later { turns.old.args ≤ k }
    ensures worth { IfOk result (λ a. (given worths : ℕ → ℤ) (m : OuterMeaning) → AreWorths given worths turns.new.items.items → slice_get (E.outers env.now) k ≡ Some m → argument_seen worths a ≡ spec_outer_argument given k m) }
    ensures fits { IfOk result (ArgumentFits (length turns.new.items.items)) }
    ensures kept { OnOk result (KeepsTurns turns.old.items.items turns.new.items.items) }
    ensures outers { OnOk result (made_count turns.new.items.items ≡ made_count turns.old.items.items) }
    ensures args { OnOk result (turns.new.args ≤ k + 1) }
{
    match env.outer(k) {
        OuterArg::Fixed(value) => Ok(Argument::Constant(value.copied(alloc)?)),
        OuterArg::Running => Ok(Argument::Turn(turns.push_outer(k)?)),
    }
}
