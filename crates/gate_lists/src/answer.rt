//! Lists of instructions as they are answered.
ghost use Rattle.std.specs.Prelude.{◌≡◌, ℕ, ℤ, ◌+◌, ◌-◌, ◌*◌, ◌<◌, ◌≤◌, nat_lt, length, map, All, Some, IfOk, OnOk};
ghost use Rattle.gate_table.specs.Table.{row_of};
ghost use Rattle.gate_lists.specs.Turns.{ArgFits, AreTurns, made_count, worth_at};
ghost use Rattle.gate_lists.specs.Seen.{argument_in, leaf_in, leaf_of, seen_expansion};
ghost use Rattle.gate_lists.specs.Instructions.{without_phases};
ghost use Rattle.gate_lists.specs.Amounts.{units_in, IsNamed};
ghost use Rattle.gate_lists.specs.Members.{instruction_in, instructions_in, AreNamed};
ghost use Rattle.gate_lists.specs.Growing.{AreWorths, worth_where, qubit_where, MakesTurns};

use crate::expansion::{Expansion, GateArg, LeafCall, TurnExpr};
use crate::member::{Amount, Member};
use crate::refusing::push;
use crate::turns::Turns;
use crate::work::Work;
use gate_table::{Row, target};
use qq_base::{GateId, NoMemory, QubitId};
use std::alloc::Global;

/// The row of `gphase`, which is no instruction where no control is left on it.
const GPHASE: GateId = GateId(30);

// An argument that is there or not, with a turn of its own where one is negated.
fn finished_argument(amount: Amount, is_there: bool, turns: &mut Turns) -> Result<GateArg, NoMemory>
    requires { IsNamed (length turns.old.items.items) amount }
    ensures worth { IfOk result (λ arg. (given worths : ℕ → ℤ) → AreWorths given worths turns.new.items.items → argument_in worths arg ≡ worth_where is_there (units_in worths amount)) }
    ensures named { IfOk result (ArgFits (length turns.new.items.items)) }
    ensures made { OnOk result (MakesTurns turns.old.items.items turns.new.items.items 1) }
    ensures args { OnOk result (turns.new.args ≡ turns.old.args) }
{
    if !is_there {
        return Ok(GateArg::Unused);
    }
    match amount {
        Amount::Units(units) => Ok(GateArg::Units(units)),
        Amount::Turn {
            turn,
            negated: false,
        } => Ok(GateArg::Running(turn)),
        Amount::Turn {
            turn,
            negated: true,
        } => Ok(GateArg::Running(turns.push(TurnExpr::Neg(turn))?)),
    }
}

// A qubit that is there or not.
fn finished_qubit(qubit: QubitId, is_there: bool) -> QubitId
    ensures { result ≡ qubit_where is_there qubit }
{
    if is_there { qubit } else { QubitId(0) }
}

// A member as it is answered.
fn finished_member(member: &Member, row: Row, turns: &mut Turns) -> Result<LeafCall, NoMemory>
    requires row { row_of member.now.gate.0 ≡ Some row }
    requires named { All (IsNamed (length turns.old.items.items)) member.now.args }
    ensures worth { IfOk result (λ call. (given worths : ℕ → ℤ) → AreWorths given worths turns.new.items.items → leaf_in worths call ≡ leaf_of (instruction_in worths member.now)) }
    ensures named { IfOk result (λ call. All (ArgFits (length turns.new.items.items)) call.args) }
    ensures made { OnOk result (MakesTurns turns.old.items.items turns.new.items.items 4) }
    ensures args { OnOk result (turns.new.args ≡ turns.old.args) }
{
    let [a, b, c, d] = member.args;
    let [p, q, r] = member.qubits;
    let first = finished_argument(a, 0 < row.params, turns)?;
    let second = finished_argument(b, 1 < row.params, turns)?;
    let third = finished_argument(c, 2 < row.params, turns)?;
    let fourth = finished_argument(d, 3 < row.params, turns)?;
    Ok(LeafCall {
        gate: member.gate,
        args: [first, second, third, fourth],
        qubits: [
            finished_qubit(p, 0 < row.qubits),
            finished_qubit(q, 1 < row.qubits),
            finished_qubit(r, 2 < row.qubits),
        ],
    })
}

/// The answer for the list of a call: each member is an instruction, but for a `gphase` that is left without a control. The
/// turns of the members are in `work`, and what was paid of the budget is enough for the turns that were made and for 4 more
/// for each member.
pub fn finished(
    alloc: Global,
    members: &[Member],
    work: Work,
    budget: u64,
) -> Result<Expansion, NoMemory>
    requires named { AreNamed (length work.turns.items.items) members.now }
    requires paid { made_count work.turns.items.items + 4 * (work.budget.left + length members.now) ≤ 4 * budget }
    ensures exact { IfOk result (λ e. (given : ℕ → ℤ) → seen_expansion given e ≡ record { leaves = map leaf_of (without_phases (instructions_in (worth_at given e.turns.items) members.now)); cost = budget - work.budget.left }) }
    ensures worths { IfOk result (λ e. (given : ℕ → ℤ) → AreWorths given (worth_at given e.turns.items) work.turns.items.items) }
    ensures turns { (args : ℕ) → work.turns.args ≤ args → IfOk result (λ e. AreTurns args e.cost e.turns.items e.calls.items) }
{
    let table = target();
    let mut turns = work.turns;
    let mut calls = Vec::new(alloc);
    for member in members {
        if member.gate == GPHASE {
            continue;
        }
        let call = finished_member(member, table.row(member.gate), &mut turns)?;
        push(&mut calls, call)?;
    }
    Ok(Expansion {
        calls,
        turns: turns.items,
        cost: budget - work.budget.left,
    })
}
