// Types as they are written.
ghost use Rattle.std.specs.Prelude.{◌≡◌, pos, IfOk, ◌<◌, ◌≤◌};
ghost use Rattle.qasm_types.specs.Types.{IsType};
ghost use Rattle.const_eval.specs.Answers.{Answers};
ghost use Rattle.const_eval.specs.ConstCast.{greatest_width as width_bound, plain_type as plain_type_of, type_of_width as type_at_width, type_at, whole_at as whole_of, sized_type as sized_type_of};
ghost use Rattle.const_eval.specs.Seen.{constant_of};

use crate::constant::Const;
use crate::refusing::refused;
use qasm_ast::Base;
use qasm_types::Ty;
use qq_base::{Fault, Rule, Span};

/// A whole number, where a constant of another kind may not stand.
pub(crate) fn whole_at(place: Span, value: &Const) -> Result<i128, Fault>
    ensures { Answers (λ z. z) result (whole_of place (constant_of value.now)) }
{
    match value {
        Const::Whole(number) => Ok(number.number),
        _ => Err(refused(Rule::NoCast, place)),
    }
}

/// The type of a base without a width: 32 bits of a word or an angle. `qubit` is no type of a value.
pub(crate) fn plain_type(base: Base, place: Span) -> Result<Ty, Fault>
    ensures answer { Answers (λ ty. ty) result (type_at place (plain_type_of base)) }
    ensures is_type { IfOk result IsType }
{
    match base {
        Base::Bool => Ok(Ty::Bool),
        Base::Bit => Ok(Ty::Bit),
        Base::Int => Ok(Ty::Int(32)),
        Base::Uint => Ok(Ty::Uint(32)),
        Base::Angle => Ok(Ty::Angle(32)),
        Base::Qubit => Err(refused(Rule::WrongKind, place)),
    }
}

/// The greatest width of a base.
fn greatest_width(base: Base) -> u32
    ensures { result ≡ width_bound base }
{
    match base {
        Base::Bool => 1,
        Base::Bit => 4096,
        Base::Int | Base::Uint => 64,
        Base::Angle => 32,
        Base::Qubit => 1024,
    }
}

/// The type of a base with a width that is in range.
fn type_of_width(base: Base, width: u32, place: Span) -> Result<Ty, Fault>
    requires some { 1 ≤ width }
    requires fits { width ≤ width_bound base }
    ensures answer { Answers (λ ty. ty) result (type_at place (type_at_width base width)) }
    ensures is_type { IfOk result IsType }
{
    match base {
        Base::Bool => Ok(Ty::Bool),
        Base::Bit => Ok(Ty::Bits(width)),
        Base::Int => Ok(Ty::Int(width)),
        Base::Uint => Ok(Ty::Uint(width)),
        Base::Angle => Ok(Ty::Angle(width)),
        Base::Qubit => Err(refused(Rule::WrongKind, place)),
    }
}

/// The type of a base whose width is this constant.
pub(crate) fn sized_type(
    base: Base,
    place: Span,
    width_place: Span,
    width: &Const,
) -> Result<Ty, Fault>
    ensures answer { Answers (λ ty. ty) result (sized_type_of base place width_place (constant_of width.now)) }
    ensures is_type { IfOk result IsType }
{
    let width = whole_at(width_place, width)?;
    if width < 1 || width > i128::from(greatest_width(base)) {
        return Err(refused(Rule::WidthRange, width_place));
    }
    type_of_width(base, width as u32, place)
}
