// The table of casts.
ghost use Rattle.std.specs.Prelude.{◌≡◌, ◌↔◌, IsTrue, ◌≤◌};
ghost use Rattle.qasm_types.specs.Casts.{HasCast};
ghost use Rattle.qasm_types.specs.Plans.{casts, word_casts, bits_cast, angle_casts, constant_casts, is_pattern as pattern_test};

use crate::operand::Operand;
use crate::ty::Ty;

/// Whether there is a cast from the operand to the type. Two casts that there are have no value for some operands: that of a
/// whole constant other than 0 to `angle[n]`, and that of a fraction of pi whose count there is not whole.
pub fn cast_of(from: Operand, to: Ty) -> bool
    ensures row { IsTrue result ↔ HasCast from.ty from.whole to }
    ensures test { result ≡ casts from.ty from.whole to }
{
    has_cast(from, to)
}

// What the tests below find.
pub(crate) fn has_cast(from: Operand, to: Ty) -> bool
    ensures { result ≡ casts from.ty from.whole to }
{
    match from.ty {
        Ty::Bool | Ty::Bit => to.is_truth() || to.is_word(),
        Ty::Bits(width) => bits_cast_to(width, to),
        Ty::Int(width) | Ty::Uint(width) => word_casts_to(width, to),
        Ty::Angle(width) => angle_casts_to(width, to),
        Ty::Turn => to == Ty::Turn,
        Ty::Whole => constant_casts_to(from.whole, to),
        Ty::Pi => matches!(to, Ty::Pi | Ty::Angle(_)),
    }
}

// A word to a type.
fn word_casts_to(width: u32, to: Ty) -> bool
    ensures { result ≡ word_casts width to }
{
    match to {
        Ty::Bit => width == 1,
        Ty::Bits(n) => n == width,
        Ty::Bool | Ty::Int(_) | Ty::Uint(_) => true,
        _ => false,
    }
}

// A register of bits to a type.
fn bits_cast_to(width: u32, to: Ty) -> bool
    ensures { result ≡ bits_cast width to }
{
    match to {
        Ty::Int(_) | Ty::Uint(_) => width <= 64,
        Ty::Bits(n) | Ty::Angle(n) => n == width,
        Ty::Bool => true,
        _ => false,
    }
}

// An angle to a type.
fn angle_casts_to(width: u32, to: Ty) -> bool
    ensures { result ≡ angle_casts width to }
{
    match to {
        Ty::Bits(n) => width == n,
        Ty::Bool | Ty::Angle(_) => true,
        _ => false,
    }
}

// A whole constant to a type.
fn constant_casts_to(value: i128, to: Ty) -> bool
    ensures { result ≡ constant_casts value to }
{
    match to {
        Ty::Bit => is_pattern(value, 1),
        Ty::Bits(width) => width <= 64 && is_pattern(value, width),
        Ty::Turn | Ty::Pi => false,
        _ => true,
    }
}

// Whether a whole constant is from 0 below 2^width.
fn is_pattern(value: i128, width: u32) -> bool
    requires { width ≤ 64 }
    ensures { result ≡ pattern_test value width }
{
    0 <= value && value < 1 << width
}
