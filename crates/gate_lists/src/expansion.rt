//! What a call of a gate is expanded to.

use qq_base::{GateId, QubitId};

/// An argument of an instruction, in units of 2^-32 turn.
#[derive(Clone, Copy, Debug, PartialEq, Eq)]
pub enum GateArg {
    /// There is no argument at this place.
    Unused,
    /// A constant, which is never reduced modulo a turn.
    Units(i64),
    /// A turn, by its place in the list of turns.
    Running(u32),
}

/// A turn: a number of units that is known when the program runs. It wraps modulo 2^64, and its division truncates. A turn
/// names only turns that stand earlier in their list.
#[derive(Clone, Copy, Debug, PartialEq, Eq)]
pub enum TurnExpr {
    /// The argument of the call with this place.
    Outer(u32),
    Fixed(i64),
    Neg(u32),
    Add(u32, u32),
    Sub(u32, u32),
    Mul(u32, i64),
    /// The divisor is at least 1.
    Div(u32, i64),
}

/// One application of a gate of the target table. Places behind those of the gate's row hold `Unused` and qubit 0.
#[derive(Clone, Copy, Debug, PartialEq, Eq)]
pub struct LeafCall {
    pub gate: GateId,
    pub args: [GateArg; 4],
    pub qubits: [QubitId; 3],
}

/// The instructions of a call of a gate, in order, the turns that they name, and what the walk of the call adds to the cost
/// of the program, without the 1 of its statement.
#[derive(Debug, Drop)]
pub struct Expansion {
    pub calls: Vec<LeafCall>,
    pub turns: Vec<TurnExpr>,
    pub cost: u64,
}
