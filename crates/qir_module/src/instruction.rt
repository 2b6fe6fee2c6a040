//! Instructions and their operands. Their meaning is that of the LLVM Language Reference, on words of 64
//! bits and on truth values.

use crate::function::Function;
use crate::sequence::Sequence;

/// What an instruction reads: a register, or a fixed value. A truth value is fixed as 0 or 1.
#[derive(Clone, Copy, Debug, PartialEq, Eq)]
pub enum Operand {
    Register(u32),
    Fixed(i64),
}

/// The words of LLVM's binary instructions, and the conditions of its `icmp`.
#[derive(Clone, Copy, Debug, PartialEq, Eq)]
pub enum Opcode {
    Add,
    Sub,
    Mul,
    Sdiv,
    Srem,
    Udiv,
    Urem,
    Shl,
    Lshr,
    Ashr,
    And,
    Or,
    Xor,
    Eq,
    Ne,
    Slt,
    Sle,
    Sgt,
    Sge,
    Ult,
    Ule,
    Ugt,
    Uge,
}

/// An argument of a call.
#[derive(Clone, Copy, Debug, PartialEq, Eq)]
pub enum Arg {
    /// A word of 64 bits.
    Number(Operand),
    /// A truth value.
    Truth(Operand),
    /// A qubit or a result, by its number.
    Id(u32),
    /// A label, by its number.
    Text(u32),
}

/// An instruction inside a block.
#[derive(Debug, Drop)]
pub enum Instr {
    /// A binary instruction on words or, where `truth` is set, on truth values; a comparison compares words
    /// and gives a truth value.
    Op {
        register: u32,
        op: Opcode,
        truth: bool,
        left: Operand,
        right: Operand,
    },
    /// The word 0 or 1 of a truth value.
    Zext {
        register: u32,
        from: Operand,
    },
    /// The truth value of a word's lowest bit.
    Trunc {
        register: u32,
        from: Operand,
    },
    /// One of two words or, where `truth` is set, of two truth values.
    Select {
        register: u32,
        truth: bool,
        test: Operand,
        yes: Operand,
        no: Operand,
    },
    /// A call of a function, with the register that takes its truth value where it gives one.
    Call {
        register: Option<u32>,
        function: Function,
        args: Sequence<Arg>,
    },
}

/// The last instruction of a block. Blocks are named by their numbers.
#[derive(Clone, Copy, Debug, PartialEq, Eq)]
pub enum Last {
    Jump(u32),
    /// To the first block where the truth value holds, else to the second.
    Branch(Operand, u32, u32),
    Return(i64),
}
