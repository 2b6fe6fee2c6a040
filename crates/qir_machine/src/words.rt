//! Binary instructions on words of 64 bits and on truth values, as the LLVM Language Reference says. A word
//! is an i64: the words of LLVM have no sign, and each instruction says how it reads them.

ghost use Rattle.std.specs.Prelude.{◌≡◌, ◌/◌, ◌%◌, ◌^◌, int_div, int_rem};
ghost use Rattle.std.specs.Int.{w64, int_shl, int_shr, cast_unsigned};
ghost use Rattle.std.specs.Option.{option_map};
ghost use Rattle.qir_module.specs.Machine.{if_divisor, if_amount, unsigned_word, on_words, on_truths};
ghost use Rattle.qir_machine.specs.Values.{WordValue};
ghost use Rattle.qir_machine.specs.Remaining.{value_of};

use crate::value::Value;
use qir_module::Opcode;

/// The signed quotient, towards zero; None where the divisor is below 1.
fn signed_quotient(left: i64, right: i64) -> Option<Value>
    ensures { option_map value_of result ≡ if_divisor right (WordValue (int_div left right)) }
{
    if right < 1 {
        return None;
    }
    Some(Value::Word(left / right))
}

/// The signed remainder, with the dividend's sign; None where the divisor is below 1.
fn signed_remainder(left: i64, right: i64) -> Option<Value>
    ensures { option_map value_of result ≡ if_divisor right (WordValue (int_rem left right)) }
{
    if right < 1 {
        return None;
    }
    Some(Value::Word(left % right))
}

/// The unsigned quotient; None where the divisor is below 1.
fn unsigned_quotient(left: i64, right: i64) -> Option<Value>
    ensures { option_map value_of result
        ≡ if_divisor right (unsigned_word (cast_unsigned w64 left / cast_unsigned w64 right)) }
{
    if right < 1 {
        return None;
    }
    let quotient = left.cast_unsigned() / right.cast_unsigned();
    Some(Value::Word(quotient.cast_signed()))
}

/// The unsigned remainder; None where the divisor is below 1.
fn unsigned_remainder(left: i64, right: i64) -> Option<Value>
    ensures { option_map value_of result
        ≡ if_divisor right (unsigned_word (cast_unsigned w64 left % cast_unsigned w64 right)) }
{
    if right < 1 {
        return None;
    }
    let remainder = left.cast_unsigned() % right.cast_unsigned();
    Some(Value::Word(remainder.cast_signed()))
}

/// The word with its bits moved up.
fn shifted_left(left: i64, right: i64) -> Option<Value>
    ensures { option_map value_of result ≡ if_amount right (λ n. WordValue (int_shl w64 left n)) }
{
    if right < 0 || right > 63 {
        return None;
    }
    Some(Value::Word(left << (right as u32)))
}

/// The word with its bits moved down, zeros behind them.
fn shifted_right(left: i64, right: i64) -> Option<Value>
    ensures { option_map value_of result
        ≡ if_amount right (λ n. unsigned_word (cast_unsigned w64 left / 2 ^ n)) }
{
    if right < 0 || right > 63 {
        return None;
    }
    let bits = left.cast_unsigned() >> (right as u32);
    Some(Value::Word(bits.cast_signed()))
}

/// The word with its bits moved down, its sign behind them.
fn shifted_signed(left: i64, right: i64) -> Option<Value>
    ensures { option_map value_of result ≡ if_amount right (λ n. WordValue (int_shr left n)) }
{
    if right < 0 || right > 63 {
        return None;
    }
    Some(Value::Word(left >> (right as u32)))
}

/// A binary instruction on words; None where the divisor is below 1, or the amount of a shift is not from
/// 0 to 63.
pub fn operate_words(op: Opcode, left: i64, right: i64) -> Option<Value>
    ensures { option_map value_of result ≡ on_words op left right }
{
    match op {
        Opcode::Add => Some(Value::Word(left.wrapping_add(right))),
        Opcode::Sub => Some(Value::Word(left.wrapping_sub(right))),
        Opcode::Mul => Some(Value::Word(left.wrapping_mul(right))),
        Opcode::Sdiv => signed_quotient(left, right),
        Opcode::Srem => signed_remainder(left, right),
        Opcode::Udiv => unsigned_quotient(left, right),
        Opcode::Urem => unsigned_remainder(left, right),
        Opcode::Shl => shifted_left(left, right),
        Opcode::Lshr => shifted_right(left, right),
        Opcode::Ashr => shifted_signed(left, right),
        Opcode::And => Some(Value::Word(left & right)),
        Opcode::Or => Some(Value::Word(left | right)),
        Opcode::Xor => Some(Value::Word(left ^ right)),
        Opcode::Eq => Some(Value::Truth(left.cast_unsigned() == right.cast_unsigned())),
        Opcode::Ne => Some(Value::Truth(left.cast_unsigned() != right.cast_unsigned())),
        Opcode::Slt => Some(Value::Truth(left < right)),
        Opcode::Sle => Some(Value::Truth(left <= right)),
        Opcode::Sgt => Some(Value::Truth(left > right)),
        Opcode::Sge => Some(Value::Truth(left >= right)),
        Opcode::Ult => Some(Value::Truth(left.cast_unsigned() < right.cast_unsigned())),
        Opcode::Ule => Some(Value::Truth(left.cast_unsigned() <= right.cast_unsigned())),
        Opcode::Ugt => Some(Value::Truth(left.cast_unsigned() > right.cast_unsigned())),
        Opcode::Uge => Some(Value::Truth(left.cast_unsigned() >= right.cast_unsigned())),
    }
}

/// A binary instruction on truth values; None where it is not `and`, `or` or `xor`.
pub fn operate_truths(op: Opcode, left: bool, right: bool) -> Option<Value>
    ensures { option_map value_of result ≡ on_truths op left right }
{
    match op {
        Opcode::And => Some(Value::Truth(left & right)),
        Opcode::Or => Some(Value::Truth(left | right)),
        Opcode::Xor => Some(Value::Truth(left ^ right)),
        _ => None,
    }
}
