//! Programs of the thin form: gates `h`, `x` and `cx` and kept measurements on one register of qubits and
//! one register of bits.

use std::marker::Model;

/// A statement behind the declarations of a thin program.
#[derive(Clone, Copy, Debug, PartialEq, Eq)]
pub enum ThinLine {
    /// `h q[qubit];`
    Hadamard { qubit: u32 },
    /// `x q[qubit];`
    Not { qubit: u32 },
    /// `cx q[control], q[target];`
    ControlledNot { control: u32, target: u32 },
    /// `c[bit] = measure q[qubit];`
    Measure { qubit: u32, bit: u32 },
}

/// A thin program: the sizes of its registers and its statements, which keep to them.
#[derive(Debug, Drop)]
pub struct ThinProgram {
    pub qubits: u32,
    pub bits: u32,
    pub lines: Vec<ThinLine>,
}

impl Model for ThinProgram {
    ghost use Rattle.qq_tool.specs.Thin.{Thin, IsThin};

    ghost Value = { Thin };

    ghost view = { λ p. record { qubits = p.qubits; bits = p.bits; lines = p.lines.items } };

    ghost invariant = { λ p. IsThin (record { qubits = p.qubits; bits = p.bits; lines = p.lines.items }) };
}
