ghost use Rattle.std.specs.Prelude.{◌≤◌};

/// The type of a word: `int[width]` where it is signed, else `uint[width]`. Both are classical types of the OpenQASM
/// 3.0 specification, "Types and Casting"; what does not fit wraps modulo 2^width.
#[derive(Clone, Copy, Debug, PartialEq, Eq)]
pub struct WordTy {
    /// Whether the values begin at -2^(width-1), and not at 0.
    pub signed: bool,
    /// The width in bits, from 1 to 64.
    pub width: u32,
    ghost has_bits: { 1 ≤ width },
    ghost fits_i64: { width ≤ 64 },
}
