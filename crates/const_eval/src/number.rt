// Constants as numbers, and numbers as constants.
ghost use Rattle.std.specs.Prelude.{◌≡◌, ℕ, ◌<◌, ◌≤◌, ◌^◌, not, true, pos, length, reverse, unsigned_abs, IfSome, Some};
ghost use Rattle.std.specs.Int.{int_rem_euclid};
ghost use Rattle.std.specs.Option.{option_and_then, option_map};
ghost use Rattle.angle_arith.specs.Fraction.{parts_of};
ghost use Rattle.std.specs.Ordering.{int_eq};
ghost use Rattle.qasm_types.specs.Plans.{casts};
ghost use Rattle.qasm_types.specs.Types.{IsWholeConstant, IsType};
ghost use Rattle.qasm_types.specs.Values.{reduced_to, cast, whole_of, count_at, number_of, number_of_bits as bits_number};
ghost use Rattle.qasm_types.specs.declared.ty.Ty.TheVariants.{Angle, Whole};
ghost use Rattle.word_arith.specs.WordTy.{reduced as reduced_word};
ghost use Rattle.const_eval.specs.Answers.{Answers};
ghost use Rattle.const_eval.specs.Constant.{angle_of, whole_in};
ghost use Rattle.const_eval.specs.Numbered.{HasFewBits, IsNumberOf, IsReducedNumber, is_numbered, value_for};
ghost use Rattle.const_eval.specs.Results.{constant_in_range, constant_of_value};
ghost use Rattle.const_eval.specs.Seen.{constant_of};

use crate::constant::{AngleCount, Const, WholeNumber};
use crate::refusing::refused;
use crate::whole::in_range;
use angle_arith::{PiFraction, to_angle};
use qasm_types::Ty;
use qq_base::{Fault, Rule, Span};
use word_arith::{WordTy, value, wrap};

/// The number of a constant that is cast to a type of numbers, or None where that has no value.
pub(crate) fn number_at(constant: &Const, ty: Ty) -> Option<i128>
    requires is_type { IsType ty }
    requires numbered { is_numbered ty ≡ true }
    requires row { casts (constant_of constant.now).type (whole_in (constant_of constant.now)) ty ≡ true }
    ensures number { cast (constant_of constant.now).type (constant_of constant.now).value ty ≡ option_map (value_for ty) result }
    ensures stands { IfSome result (IsNumberOf ty) }
{
    match ty {
        Ty::Bool => Some(i128::from(is_nonzero(constant))),
        Ty::Angle(width) => count_of(constant, width),
        _ => Some(reduced(ty, number_in(constant))),
    }
}

/// Whether the number of a constant is not 0.
pub(crate) fn is_nonzero(constant: &Const) -> bool
    ensures { result ≡ not (int_eq (number_of (constant_of constant.now).value) (pos 0)) }
{
    match constant {
        Const::Whole(number) => number.number != 0,
        Const::Pi(_) => false,
        Const::Bool(truth) => *truth,
        Const::Bits(bits) => has_one(&bits.text.items),
        Const::Angle(angle) => angle.count != 0,
    }
}

// Whether some bit is 1.
fn has_one(bits: &[bool]) -> bool
    ensures { result ≡ not (int_eq (pos (bits_number (reverse bits.now))) (pos 0)) }
{
    for bit in bits {
        if *bit {
            return true;
        }
    }
    false
}

/// The number that bits are, the highest first.
pub(crate) fn number_of_bits(bits: &[bool]) -> u64
    requires { length bits.now ≤ 64 }
    ensures number { result ≡ bits_number (reverse bits.now) }
    ensures below { result < 2 ^ length bits.now }
{
    let mut number: u64 = 0;
    for bit in bits {
        number = 2 * number + u64::from(*bit);
    }
    number
}

// The number of a constant as it stands.
fn number_in(constant: &Const) -> i128
    requires { HasFewBits constant.now }
    ensures number { result ≡ number_of (constant_of constant.now).value }
    ensures range { IsWholeConstant result }
{
    match constant {
        Const::Whole(number) => number.number,
        Const::Pi(_) => 0,
        Const::Bool(truth) => i128::from(*truth),
        Const::Bits(bits) => i128::from(number_of_bits(&bits.text.items)),
        Const::Angle(angle) => i128::from(angle.count),
    }
}

// A number at a type other than `bool` and that of angles.
fn reduced(ty: Ty, number: i128) -> i128
    requires is_type { IsType ty }
    requires range { IsWholeConstant number }
    ensures { IsReducedNumber ty number result }
{
    match ty {
        Ty::Int(width) => word(
            number,
            WordTy {
                signed: true,
                width,
            },
        ),
        Ty::Uint(width) => word(
            number,
            WordTy {
                signed: false,
                width,
            },
        ),
        Ty::Bit => number.rem_euclid(2),
        _ => number,
    }
}

/// A number at a word type.
pub(crate) fn word(number: i128, ty: WordTy) -> i128
    ensures value { result ≡ reduced_word ty number }
    ensures range { IsWholeConstant result }
{
    value(wrap(number, ty), ty)
}

// The count of an angle.
fn count_of(constant: &Const, width: u32) -> Option<i128>
    requires least { 1 ≤ width }
    requires greatest { width ≤ 32 }
    requires row { casts (constant_of constant.now).type (whole_in (constant_of constant.now)) (Angle width) ≡ true }
    ensures count { cast (constant_of constant.now).type (constant_of constant.now).value (Angle width) ≡ option_map (value_for (Angle width)) result }
    ensures stands { IfSome result (IsNumberOf (Angle width)) }
{
    match constant {
        Const::Whole(number) => (number.number == 0).then_some(0),
        Const::Pi(part) => part_count(*part, width),
        Const::Bool(_) => None,
        Const::Bits(bits) => Some(i128::from(number_of_bits(&bits.text.items))),
        Const::Angle(angle) => Some(i128::from(resized(*angle, width))),
    }
}

// The count of a fraction of pi, where that is whole.
fn part_count(part: PiFraction, width: u32) -> Option<i128>
    requires least { 1 ≤ width }
    requires greatest { width ≤ 32 }
    ensures count { option_and_then (reduced_to (Angle width)) (whole_of (parts_of part width)) ≡ option_map (value_for (Angle width)) result }
    ensures stands { IfSome result (IsNumberOf (Angle width)) }
{
    // the denominator is above 0
    let _den = part.den();
    match to_angle(part, width) {
        Ok(count) => Some(i128::from(count)),
        Err(_) => None,
    }
}

// The count of an angle at another width.
fn resized(angle: AngleCount, width: u32) -> u64
    requires { width ≤ 32 }
    ensures count { result ≡ count_at angle.width width angle.count }
    ensures below { result < 2 ^ width }
{
    if angle.width <= width {
        angle.count << (width - angle.width)
    } else {
        angle.count >> (angle.width - width)
    }
}

/// The constant of a type for which a number stands.
pub(crate) fn constant_at(ty: Ty, number: i128) -> Const
    requires is_type { IsType ty }
    requires numbered { is_numbered ty ≡ true }
    requires stands { IsNumberOf ty number }
    ensures { constant_of result ≡ constant_of_value ty (value_for ty number) }
{
    match ty {
        Ty::Bool | Ty::Bit => Const::Bool(number == 1),
        Ty::Angle(width) => Const::Angle(AngleCount {
            width,
            count: number as u64,
        }),
        _ => Const::Whole(WholeNumber { number }),
    }
}

/// A whole number as a constant, where it is in range.
pub(crate) fn whole_constant(number: i128, at: Span) -> Result<Const, Fault>
    ensures { Answers constant_of result (constant_in_range at Whole (reduced_to Whole number)) }
{
    match in_range(number) {
        Some(number) => Ok(Const::Whole(WholeNumber { number })),
        None => Err(refused(Rule::ConstRange, at)),
    }
}

/// A number of parts as an angle, modulo a turn.
pub(crate) fn angle_constant(number: i128, width: u32) -> Const
    requires least { 1 ≤ width }
    requires greatest { width ≤ 32 }
    ensures { constant_of result ≡ angle_of width (unsigned_abs (int_rem_euclid number (pos (2 ^ width)))) }
{
    Const::Angle(AngleCount {
        width,
        count: number.rem_euclid(1 << width) as u64,
    })
}
