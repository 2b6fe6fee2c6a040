// Values as numbers, and numbers that are reduced to the types of values.
ghost use Rattle.std.specs.Prelude.{◌≡◌, ◌<◌, ◌≤◌, ◌^◌, true, false, not, pos, unsigned_abs, Some};
ghost use Rattle.std.specs.Int.{int_rem_euclid};
ghost use Rattle.std.specs.Ordering.{int_eq};
ghost use Rattle.word_arith.specs.Whole.{IsCongruent};
ghost use Rattle.word_arith.specs.WordTy.{reduced};
ghost use Rattle.qasm_types.specs.Types.{IsType, IsWholeConstant};
ghost use Rattle.qasm_types.specs.Values.{is_odd as odd_test, number_of, reduced_to};
ghost use Rattle.const_eval.specs.Constant.{angle_of};
ghost use Rattle.source_values.specs.Reduced.{ReduceAlike, is_bits, is_reducing};
ghost use Rattle.source_values.specs.Seen.{seen};

use crate::bits::{has_one, lowest_number};
use crate::value::{TypedValue, Word};
use const_eval::AngleCount;
use qasm_types::Ty;
use word_arith::{WordTy, congruent_numbers_have_one_word, value, wrap};

/// The number of a value that is no register of bits. A fraction of pi is none, and 0 stands for it.
pub(crate) fn number(value: &TypedValue) -> i128
    requires { is_bits (seen value.now).type ≡ false }
    ensures number { result ≡ number_of (seen value.now).value }
    ensures range { IsWholeConstant result }
{
    match value {
        TypedValue::Bool(truth) | TypedValue::Bit(truth) => i128::from(*truth),
        TypedValue::Word(word) => word.number,
        TypedValue::Angle(angle) => i128::from(angle.count),
        TypedValue::Whole(whole) => whole.number,
        TypedValue::Bits(_) | TypedValue::Pi(_) => 0,
    }
}

/// The number of a value, or of a register one that has its lowest 64 bits.
pub(crate) fn low_number(value: &TypedValue) -> i128
    ensures congruent { IsCongruent (2 ^ 64) result (number_of (seen value.now).value) }
    ensures range { IsWholeConstant result }
{
    match value {
        TypedValue::Bits(register) => i128::from(lowest_number(&register.bits)),
        _ => number(value),
    }
}

/// Whether the number of a value is not 0.
pub(crate) fn is_nonzero(value: &TypedValue) -> bool
    ensures { result ≡ not (int_eq (number_of (seen value.now).value) (pos 0)) }
{
    match value {
        TypedValue::Bits(register) => has_one(&register.bits),
        _ => number(value) != 0,
    }
}

/// The value of a type to which a number reduces.
pub(crate) fn reduced_value(ty: Ty, number: i128) -> TypedValue
    requires is_type { IsType ty }
    requires reducing { is_reducing ty ≡ true }
    ensures ty { (seen result).type ≡ ty }
    ensures value { reduced_to ty number ≡ Some (seen result).value }
{
    match ty {
        Ty::Int(width) => TypedValue::Word(word(
            WordTy {
                signed: true,
                width,
            },
            number,
        )),
        Ty::Uint(width) => TypedValue::Word(word(
            WordTy {
                signed: false,
                width,
            },
            number,
        )),
        Ty::Angle(width) => TypedValue::Angle(count(width, number)),
        _ => TypedValue::Bit(is_odd(number)),
    }
}

/// Whether the lowest bit of a number is 1.
pub(crate) fn is_odd(number: i128) -> bool
    ensures { result ≡ odd_test number }
{
    number.rem_euclid(2) == 1
}

// The word of a number.
fn word(ty: WordTy, number: i128) -> Word
    ensures ty { result.ty ≡ ty }
    ensures number { result.number ≡ reduced ty number }
{
    Word {
        ty,
        number: value(wrap(number, ty), ty),
    }
}

/// The angle of a number of parts, modulo a turn.
pub(crate) fn count(width: u32, number: i128) -> AngleCount
    requires least { 1 ≤ width }
    requires greatest { width ≤ 32 }
    ensures width { result.width ≡ width }
    ensures count { result.count ≡ unsigned_abs (int_rem_euclid number (pos (2 ^ width))) }
{
    AngleCount {
        width,
        count: number.rem_euclid(1 << width) as u64,
    }
}

/// Numbers that are congruent modulo 2^64 reduce to one value.
pub(crate) fn congruent_numbers_reduce_alike()
    ensures { ReduceAlike }
{
    congruent_numbers_have_one_word();
}
