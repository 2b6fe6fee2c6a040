//! Expressions over cells. An expression names others by their numbers, and only smaller ones.

use qir_module::Opcode;

/// What a cell holds: a truth value, or a word of 64 bits.
#[derive(Clone, Copy, Debug, PartialEq, Eq)]
pub enum CellKind {
    Truth,
    Number,
}

/// An expression. It has one value, however often it is used.
#[derive(Clone, Copy, Debug, PartialEq, Eq)]
pub enum CoreExpr {
    /// What the cell holds.
    Cell(u32),
    Truth(bool),
    Number(i64),
    /// An instruction of two words, or of two truth values. A comparison of words gives a truth value.
    Op(Opcode, u32, u32),
    /// The word 0 or 1 of a truth value.
    Widen(u32),
    /// The truth value of a word's lowest bit.
    Narrow(u32),
    /// The second expression's value where the first is true, else the third's.
    Choose(u32, u32, u32),
}
