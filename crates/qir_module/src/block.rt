//! Blocks and their phis.

use crate::instruction::{Instr, Last, Operand};
use crate::sequence::Sequence;

/// A value that is chosen by the block that was left: an operand for each predecessor, by its name.
#[derive(Debug, Drop)]
pub struct Phi {
    pub register: u32,
    /// Whether it is a word of 64 bits; else it is a truth value.
    pub number: bool,
    pub entries: Sequence<(Operand, u32)>,
}

/// A block: its name, its phis, its instructions and its last instruction.
#[derive(Debug, Drop)]
pub struct Block {
    pub name: u32,
    pub phis: Sequence<Phi>,
    pub body: Sequence<Instr>,
    pub last: Last,
}
