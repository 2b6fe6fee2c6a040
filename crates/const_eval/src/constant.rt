// Constants.
ghost use Rattle.std.specs.Prelude.{◌^◌, ◌<◌, ◌≤◌, length};
ghost use Rattle.qasm_types.specs.Types.{IsWholeConstant};

use angle_arith::PiFraction;
use qasm_ast::BitText;

/// A whole number from -2^63 to 2^64 - 1.
#[derive(Clone, Copy, Debug, PartialEq, Eq)]
pub struct WholeNumber {
    pub number: i128,
    ghost in_range: { IsWholeConstant number },
}

/// Fewer than 2^32 bits as they are written, the leftmost first. Index 0 is the rightmost.
#[derive(Debug, Drop)]
pub struct BitRegister {
    pub text: BitText,
    ghost few: { length text < 2 ^ 32 },
}

/// So many parts of which a turn has 2^width.
#[derive(Clone, Copy, Debug, PartialEq, Eq)]
pub struct AngleCount {
    pub width: u32,
    pub count: u64,
    ghost some: { 1 ≤ width },
    ghost fits: { width ≤ 32 },
    ghost below: { count < 2 ^ width },
}

/// A constant, exactly.
#[derive(Debug, Drop)]
pub enum Const {
    Whole(WholeNumber),
    /// A fraction of pi, in lowest terms.
    Pi(PiFraction),
    /// A truth value.
    Bool(bool),
    Bits(BitRegister),
    Angle(AngleCount),
}
