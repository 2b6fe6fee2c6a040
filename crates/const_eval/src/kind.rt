// What the tables of types ask of a constant.
ghost use Rattle.std.specs.Prelude.{◌≡◌};
ghost use Rattle.const_eval.specs.Constant.{whole_in, is_part_of_pi};
ghost use Rattle.const_eval.specs.ConstCast.{no_value as no_value_rule};
ghost use Rattle.const_eval.specs.ConstOperators.{is_zero as zero_test, no_row as no_row_rule};
ghost use Rattle.const_eval.specs.Seen.{constant_of};

use crate::constant::Const;
use qasm_types::{Operand, Ty};
use qq_base::Rule;

impl Const {
    /// The type of the constant, and the value of a whole number.
    pub(crate) fn operand(&self) -> Operand
        ensures ty { result.ty ≡ (constant_of self.now).type }
        ensures whole { result.whole ≡ whole_in (constant_of self.now) }
    {
        match self {
            Const::Whole(number) => Operand {
                ty: Ty::Whole,
                whole: number.number,
            },
            Const::Pi(_) => Operand {
                ty: Ty::Pi,
                whole: 0,
            },
            Const::Bool(_) => Operand {
                ty: Ty::Bit,
                whole: 0,
            },
            Const::Bits(bits) => Operand {
                ty: Ty::Bits(bits.text.items.len() as u32),
                whole: 0,
            },
            Const::Angle(angle) => Operand {
                ty: Ty::Angle(angle.width),
                whole: 0,
            },
        }
    }

    /// Whether the constant is a fraction of pi.
    pub(crate) fn is_part_of_pi(&self) -> bool
        ensures { result ≡ is_part_of_pi (constant_of self.now) }
    {
        matches!(self, Const::Pi(_))
    }

    /// Whether the constant is the whole number 0 or the fraction 0.
    pub(crate) fn is_zero(&self) -> bool
        ensures { result ≡ zero_test (constant_of self.now) }
    {
        match self {
            Const::Whole(number) => number.number == 0,
            Const::Pi(part) => part.num() == 0,
            Const::Bool(_) | Const::Bits(_) | Const::Angle(_) => false,
        }
    }

    /// The rule where the table has no row for a unary operator.
    pub(crate) fn no_row(&self) -> Rule
        ensures { result ≡ no_row_rule (is_part_of_pi (constant_of self.now)) }
    {
        if self.is_part_of_pi() {
            Rule::NotPiMultiple
        } else {
            Rule::TypeMismatch
        }
    }

    /// The rule of a cast that the table has and that has no value.
    pub(crate) fn no_value(&self) -> Rule
        ensures { result ≡ no_value_rule (constant_of self.now) }
    {
        if self.is_part_of_pi() {
            Rule::NotDyadic
        } else {
            Rule::NotPiMultiple
        }
    }
}
