//! Statements. A statement names expressions, and the statements of its bodies, by their numbers.

use qq_base::{GateId, QubitId};
use std::marker::Model;

/// An argument of a gate: an angle, in units of 2^-32 turn.
#[derive(Clone, Copy, Debug, PartialEq, Eq)]
pub enum GateArg {
    /// The gate takes no argument at this place.
    Unused,
    Units(i64),
    /// The value of an expression.
    Running(u32),
}

/// One application of a gate of the target table. Places behind those of the gate's row hold `Unused`, and
/// qubit 0.
#[derive(Clone, Copy, Debug, PartialEq, Eq)]
pub struct LeafCall {
    pub gate: GateId,
    pub args: [GateArg; 4],
    pub qubits: [QubitId; 3],
}

/// Pairs of a cell and the expression whose value it is given, seen as their list.
#[derive(Debug, Drop)]
pub struct Pairs {
    pub items: Vec<(u32, u32)>,
}

impl Model for Pairs {
    ghost use Rattle.std.specs.Prelude.{List, ℕ};

    ghost Value = { List (ℕ × ℕ) };

    ghost view = { λ pairs. pairs.items.items };
}

/// The numbers of statements, in their order, seen as their list.
#[derive(Debug, Drop)]
pub struct Body {
    pub items: Vec<u32>,
}

impl Model for Body {
    ghost use Rattle.std.specs.Prelude.{List, ℕ};

    ghost Value = { List ℕ };

    ghost view = { λ body. body.items.items };
}

/// A statement.
#[derive(Debug, Drop)]
pub enum CoreStmt {
    /// All expressions are read before any cell is stored.
    Assign(Pairs),
    Gate(LeafCall),
    /// The qubit is set to its ground state.
    Reset(QubitId),
    /// The qubit is measured, into the cell if one is named.
    Measure { qubit: QubitId, into: Option<u32> },
    /// The first body where the expression is true, else the second.
    If(u32, Body, Body),
    Block(Body),
    /// A body that `Again` goes back to. What falls off its end leaves it.
    Loop(Body),
    /// To the end of the k-th enclosing `Block` or `Loop`, counted from the inside, from 0.
    Leave(u32),
    /// To the start of the k-th enclosing `Loop`, counted in the same way.
    Again(u32),
}
