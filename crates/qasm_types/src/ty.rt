// The types of expressions.
ghost use Rattle.std.specs.Prelude.{◌≡◌};
ghost use Rattle.qasm_types.specs.Types.{cells_of};
ghost use Rattle.qasm_types.specs.Plans.{is_word as word_test, is_number as number_test, is_truth as truth_test};

/// The type of an expression: a classical type of the OpenQASM 3.0 specification, "Types and Casting", or what stands in
/// the place of one for a constant or in a gate's body.
#[derive(Clone, Copy, Debug, PartialEq, Eq)]
pub enum Ty {
    /// `bool`
    Bool,
    /// `bit`, and each constant truth value
    Bit,
    /// `bit[n]`, and each constant string of n bits
    Bits(u32),
    /// `int[n]`, n from 1 to 64
    Int(u32),
    /// `uint[n]`, n from 1 to 64
    Uint(u32),
    /// `angle[n]`, n from 1 to 32
    Angle(u32),
    /// A run-time argument of a gate, in units of 2^-32 turn, modulo 2^64
    Turn,
    /// A whole constant
    Whole,
    /// A constant fraction of pi
    Pi,
}

impl Ty {
    /// Whether the type is `int[n]` or `uint[n]`.
    pub(crate) fn is_word(self) -> bool
        ensures { result ≡ word_test self }
    {
        matches!(self, Ty::Int(_) | Ty::Uint(_))
    }

    /// Whether the type is that of a number: a word or a whole constant.
    pub(crate) fn is_number(self) -> bool
        ensures { result ≡ number_test self }
    {
        matches!(self, Ty::Int(_) | Ty::Uint(_) | Ty::Whole)
    }

    /// Whether the type is `bool` or `bit`.
    pub(crate) fn is_truth(self) -> bool
        ensures { result ≡ truth_test self }
    {
        matches!(self, Ty::Bool | Ty::Bit)
    }
}

/// The cells that a variable of the type has: n of a `bit[n]`, else one.
pub fn cells(ty: Ty) -> u32
    ensures { result ≡ cells_of ty }
{
    match ty {
        Ty::Bits(n) => n,
        _ => 1,
    }
}
