// What stands at an operator's sides, and the types at which it is taken.
ghost use Rattle.std.specs.Prelude.{◌≡◌, ◌≤◌};
ghost use Rattle.qasm_types.specs.Types.{IsType, IsWholeConstant};
ghost use Rattle.qasm_types.specs.declared.ty.Ty.TheVariants.{Whole, Uint};

use crate::ty::Ty;

/// What a table asks of an operand: its type, and where that is `Whole` its value.
#[derive(Clone, Copy, Debug, PartialEq, Eq)]
pub struct Operand {
    pub ty: Ty,
    /// The value of a whole constant, from -2^63 to 2^64 - 1. It is not read where the type is another.
    pub whole: i128,
    ghost is_type: { IsType ty },
    ghost is_constant: { ty ≡ Whole → IsWholeConstant whole },
}

/// The types at which an operator takes its operands, and the type of its result.
#[derive(Clone, Copy, Debug, PartialEq, Eq)]
pub struct OpPlan {
    pub left: Ty,
    pub right: Ty,
    pub result: Ty,
    ghost left_is_type: { IsType left },
    ghost right_is_type: { IsType right },
    ghost result_is_type: { IsType result },
}

impl Operand {
    /// The operand as `uint[width]`.
    pub(crate) fn as_word(self, width: u32) -> Self
        requires some { 1 ≤ width }
        requires fits { width ≤ 64 }
        ensures ty { result.ty ≡ Uint width }
        ensures whole { result.whole ≡ self.whole }
    {
        Operand {
            ty: Ty::Uint(width),
            whole: self.whole,
        }
    }
}

impl OpPlan {
    /// The operands at their own types.
    pub(crate) fn of(left: Operand, right: Operand, outcome: Ty) -> Self
        requires { IsType outcome }
        ensures left { result.left ≡ left.ty }
        ensures right { result.right ≡ right.ty }
        ensures result { result.result ≡ outcome }
    {
        OpPlan {
            left: left.ty,
            right: right.ty,
            result: outcome,
        }
    }

    /// Both operands and the result at one type.
    pub(crate) fn all(ty: Ty) -> Self
        requires { IsType ty }
        ensures left { result.left ≡ ty }
        ensures right { result.right ≡ ty }
        ensures result { result.result ≡ ty }
    {
        OpPlan {
            left: ty,
            right: ty,
            result: ty,
        }
    }
}
