// What the tables of types ask of a value.
ghost use Rattle.std.specs.Prelude.{◌≡◌};
ghost use Rattle.qasm_types.specs.Types.{IsType};
ghost use Rattle.const_eval.specs.Constant.{whole_in};
ghost use Rattle.source_values.specs.Seen.{seen, word_type as type_of_words};

use crate::value::TypedValue;
use qasm_types::{Operand, Ty};
use word_arith::WordTy;

impl TypedValue {
    /// The type of the value, and where it is a whole constant its number.
    pub(crate) fn operand(&self) -> Operand
        ensures ty { result.ty ≡ (seen self.now).type }
        ensures whole { result.whole ≡ whole_in (seen self.now) }
    {
        match self {
            TypedValue::Bool(_) => Operand {
                ty: Ty::Bool,
                whole: 0,
            },
            TypedValue::Bit(_) => Operand {
                ty: Ty::Bit,
                whole: 0,
            },
            TypedValue::Bits(register) => Operand {
                ty: Ty::Bits(register.bits.len() as u32),
                whole: 0,
            },
            TypedValue::Word(word) => Operand {
                ty: word_type(word.ty),
                whole: 0,
            },
            TypedValue::Angle(angle) => Operand {
                ty: Ty::Angle(angle.width),
                whole: 0,
            },
            TypedValue::Whole(whole) => Operand {
                ty: Ty::Whole,
                whole: whole.number,
            },
            TypedValue::Pi(_) => Operand {
                ty: Ty::Pi,
                whole: 0,
            },
        }
    }
}

/// The type of words.
pub(crate) fn word_type(ty: WordTy) -> Ty
    ensures ty { result ≡ type_of_words ty }
    ensures is_type { IsType result }
{
    if ty.signed {
        Ty::Int(ty.width)
    } else {
        Ty::Uint(ty.width)
    }
}
