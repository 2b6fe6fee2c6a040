//! Types of values, as they are written.
ghost use Rattle.std.specs.Prelude.{◌≡◌, ◌≢◌, ◌≤◌, Some, Ok, IfOk};
ghost use Rattle.qasm_types.specs.Types.{IsType};
ghost use Rattle.const_eval.specs.Answers.{Answers};
ghost use Rattle.const_eval.specs.ConstCast.{greatest_width as width_bound, plain_type as plain_type_of, type_of_width as type_at_width};
ghost use Rattle.const_eval.specs.Seen.{constant_of};
ghost use Rattle.subroutine_inline.specs.Seen.{width_at};

use crate::counted::whole_number;
use const_eval::Const;
use gate_lists::refused;
use qasm_ast::Base;
use qasm_types::Ty;
use qq_base::{Fault, Rule, Span};

/// The greatest width of a base.
fn greatest_width(base: Base) -> u32
    ensures { result ≡ width_bound base }
{
    match base {
        Base::Bool => 1,
        Base::Bit => 4096,
        Base::Int | Base::Uint => 64,
        Base::Angle => 32,
        Base::Qubit => 1024,
    }
}

/// A width: a whole constant from 1 to the greatest width of its base.
pub(crate) fn width_of(base: Base, value: &Const, place: Span) -> Result<u32, Fault>
    ensures answer { Answers (λ n. n) result (width_at base place (constant_of value.now)) }
    ensures some { IfOk result (λ n. 1 ≤ n) }
    ensures fits { IfOk result (λ n. n ≤ width_bound base) }
{
    let width = whole_number(value, place)?;
    if width < 1 || width > i128::from(greatest_width(base)) {
        return Err(refused(Rule::WidthRange, place));
    }
    Ok(width as u32)
}

/// The type of a base of values without a width: 32 bits of a word or an angle.
pub(crate) fn plain_type(base: Base) -> Ty
    requires { base ≢ Base.Qubit }
    ensures answer { plain_type_of base ≡ Some result }
    ensures is_type { IsType result }
{
    match base {
        Base::Bool => Ty::Bool,
        Base::Bit => Ty::Bit,
        Base::Int => Ty::Int(32),
        Base::Uint => Ty::Uint(32),
        Base::Angle => Ty::Angle(32),
        Base::Qubit => unreachable!(),
    }
}

/// The type of a base of values with a width that it may have.
pub(crate) fn type_of_width(base: Base, width: u32) -> Ty
    requires classical { base ≢ Base.Qubit }
    requires some { 1 ≤ width }
    requires fits { width ≤ width_bound base }
    ensures answer { type_at_width base width ≡ Some result }
    ensures is_type { IsType result }
{
    match base {
        Base::Bool => Ty::Bool,
        Base::Bit => Ty::Bits(width),
        Base::Int => Ty::Int(width),
        Base::Uint => Ty::Uint(width),
        Base::Angle => Ty::Angle(width),
        Base::Qubit => unreachable!(),
    }
}
