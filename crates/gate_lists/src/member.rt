//! Members of lists of instructions.
ghost use Rattle.std.specs.Prelude.{◌≡◌, ◌<◌, length, slice_index_or, pos};
ghost use Rattle.gate_lists.specs.Amounts.{amounts_under};

use gate_table::{CtlRow, InvRow};
use qq_base::{GateId, QubitId};
use std::alloc::AllocError;

/// An argument of a member.
#[derive(Clone, Copy, Debug, PartialEq, Eq)]
pub enum Amount {
    Units(i64),
    /// A turn, by its place in the list of turns, and whether it is negated.
    Turn { turn: u32, negated: bool },
}

/// An instruction of the target table whose turns are named by their places. What stands behind the arguments and qubits of
/// the gate's row means nothing.
#[derive(Copy, Debug)]
pub struct Member {
    pub gate: GateId,
    pub args: [Amount; 4],
    pub qubits: [QubitId; 3],
    pub ghost of_table: { gate.0 < 31 },
    pub ghost four: { length args ≡ 4 },
    pub ghost three: { length qubits ≡ 3 },
}

impl Clone for Member {
    fn clone(&self) -> Result<Member, AllocError> {
        Ok(*self)
    }
}

impl Amount {
    ghost use Rattle.std.specs.Prelude.{◌≡◌, ℕ, ℤ};
    ghost use Rattle.gate_lists.specs.Units.{negated as minus};
    ghost use Rattle.gate_lists.specs.Amounts.{units_in, IsNamed};

    fn negated(self) -> Amount
        ensures units { (worths : ℕ → ℤ) → units_in worths result ≡ minus (units_in worths self) }
        ensures named { (turns : ℕ) → IsNamed turns self → IsNamed turns result }
    {
        match self {
            Amount::Units(units) => Amount::Units(units.wrapping_neg()),
            Amount::Turn { turn, negated } => Amount::Turn {
                turn,
                negated: !negated,
            },
        }
    }
}

impl Member {
    ghost use Rattle.std.specs.Prelude.{◌≡◌, ℕ, ℤ, length, map, All, Some};
    ghost use Rattle.gate_table.specs.Table.{inverse_of, control_of};
    ghost use Rattle.gate_lists.specs.Instructions.{inverse_by_row, controlled_by_row};
    ghost use Rattle.gate_lists.specs.Amounts.{units_in, IsNamed, params_of, qubits_of};
    ghost use Rattle.gate_lists.specs.Members.{instruction_in};

    /// A gate with as many arguments and qubits as it takes.
    pub fn new(gate: GateId, args: &[Amount], qubits: &[QubitId]) -> Member
        requires of_table { gate.0 < 31 }
        requires params { length args.now ≡ params_of gate.0 }
        requires qubits { length qubits.now ≡ qubits_of gate.0 }
        ensures seen { (worths : ℕ → ℤ) → instruction_in worths result ≡ record { gate = gate.0; arguments = map (units_in worths) args.now; qubits = qubits.now } }
        ensures named { (turns : ℕ) → All (IsNamed turns) args.now → All (IsNamed turns) result.args }
    {
        Member {
            gate,
            args: [
                amount_at(args, 0),
                amount_at(args, 1),
                amount_at(args, 2),
                amount_at(args, 3),
            ],
            qubits: [
                qubit_at(qubits, 0),
                qubit_at(qubits, 1),
                qubit_at(qubits, 2),
            ],
        }
    }

    /// The member by its row of inverses.
    pub(crate) fn inverse(&self, row: InvRow) -> Member
        requires { inverse_of self.now.gate.0 ≡ Some row }
        ensures seen { (worths : ℕ → ℤ) → inverse_by_row (instruction_in worths self.now) ≡ Some (instruction_in worths result) }
        ensures named { (turns : ℕ) → All (IsNamed turns) self.now.args → All (IsNamed turns) result.args }
    {
        let [a, b, c, d] = row.order;
        Member {
            gate: row.gate,
            args: [
                self.args[a as usize].negated(),
                self.args[b as usize].negated(),
                self.args[c as usize].negated(),
                self.args[d as usize].negated(),
            ],
            qubits: self.qubits,
        }
    }

    /// The member by its row under a control.
    pub(crate) fn controlled(&self, control: QubitId, row: CtlRow) -> Member
        requires { control_of self.now.gate.0 ≡ Some row }
        ensures seen { (worths : ℕ → ℤ) → controlled_by_row control (instruction_in worths self.now) ≡ Some (instruction_in worths result) }
        ensures named { (turns : ℕ) → All (IsNamed turns) self.now.args → All (IsNamed turns) result.args }
    {
        Member {
            gate: row.gate,
            args: args_under(&self.args, row.turn),
            qubits: [control, self.qubits[0], self.qubits[1]],
        }
    }
}

// The arguments under a control: the same, or this one turn.
fn args_under(args: &[Amount; 4], turn: Option<i64>) -> [Amount; 4]
    ensures { result ≡ amounts_under turn args.now }
{
    match turn {
        None => *args,
        Some(turn) => [
            Amount::Units(turn),
            Amount::Units(0),
            Amount::Units(0),
            Amount::Units(0),
        ],
    }
}

// The amount at a place, or no units where there is none.
fn amount_at(args: &[Amount], k: usize) -> Amount
    ensures { result ≡ slice_index_or args.now k (Amount.Units (pos 0)) }
{
    match args.get(k) {
        Some(amount) => *amount,
        None => Amount::Units(0),
    }
}

// The qubit at a place, or qubit 0 where there is none.
fn qubit_at(qubits: &[QubitId], k: usize) -> QubitId
    ensures { result ≡ slice_index_or qubits.now k (record { 0 = 0 }) }
{
    match qubits.get(k) {
        Some(qubit) => *qubit,
        None => QubitId(0),
    }
}
