// Values in the middle of a run, with their types.
ghost use Rattle.std.specs.Prelude.{◌<◌, ◌^◌, length};
ghost use Rattle.word_arith.specs.WordTy.{IsValue};

use angle_arith::PiFraction;
use const_eval::{AngleCount, WholeNumber};
use word_arith::WordTy;

/// Fewer than 2^32 bits, that of index 0 first.
#[derive(Debug, Drop)]
pub struct Register {
    pub bits: Vec<bool>,
    ghost few: { length bits.items < 2 ^ 32 },
}

/// A value of `int[n]` or `uint[n]`.
#[derive(Clone, Copy, Debug)]
pub struct Word {
    pub ty: WordTy,
    pub number: i128,
    ghost is_value: { IsValue ty number },
}

/// A value with its type: that of a variable, of a constant, or of an expression over them.
#[derive(Debug, Drop)]
pub enum TypedValue {
    Bool(bool),
    Bit(bool),
    Bits(Register),
    Word(Word),
    Angle(AngleCount),
    /// A whole constant.
    Whole(WholeNumber),
    /// A constant fraction of pi, in lowest terms.
    Pi(PiFraction),
}
