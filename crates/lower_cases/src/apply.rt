//! What an instruction does with two words, of which a truth value is 0 or 1.

use core_ir::CoreOp;

fn truth(value: bool) -> i64 {
    if value { 1 } else { 0 }
}

/// The result of an instruction. Divisors are from 1 and amounts of shifts from 0 to 63, or else it is 0.
pub fn apply(op: CoreOp, left: i64, right: i64) -> i64 {
    match op {
        CoreOp::Add => left.wrapping_add(right),
        CoreOp::Sub => left.wrapping_sub(right),
        CoreOp::Mul => left.wrapping_mul(right),
        CoreOp::Sdiv | CoreOp::Srem | CoreOp::Udiv | CoreOp::Urem => divide(op, left, right),
        CoreOp::Shl | CoreOp::Lshr | CoreOp::Ashr => shift(op, left, right),
        CoreOp::And => left & right,
        CoreOp::Or => left | right,
        CoreOp::Xor => left ^ right,
        _ => truth(compare(op, left, right)),
    }
}

fn divide(op: CoreOp, left: i64, right: i64) -> i64 {
    if right < 1 {
        return 0;
    }
    match op {
        CoreOp::Sdiv => left / right,
        CoreOp::Srem => left % right,
        CoreOp::Udiv => (left.cast_unsigned() / right.cast_unsigned()).cast_signed(),
        _ => (left.cast_unsigned() % right.cast_unsigned()).cast_signed(),
    }
}

fn shift(op: CoreOp, left: i64, right: i64) -> i64 {
    if right < 0 || right > 63 {
        return 0;
    }
    let amount = right as u32;
    match op {
        CoreOp::Shl => left << amount,
        CoreOp::Lshr => (left.cast_unsigned() >> amount).cast_signed(),
        _ => left >> amount,
    }
}

fn compare(op: CoreOp, left: i64, right: i64) -> bool {
    match op {
        CoreOp::Eq => left == right,
        CoreOp::Ne => left != right,
        CoreOp::Slt => left < right,
        CoreOp::Sle => left <= right,
        CoreOp::Sgt => left > right,
        CoreOp::Sge => left >= right,
        CoreOp::Ult => left.cast_unsigned() < right.cast_unsigned(),
        CoreOp::Ule => left.cast_unsigned() <= right.cast_unsigned(),
        CoreOp::Ugt => left.cast_unsigned() > right.cast_unsigned(),
        _ => left.cast_unsigned() >= right.cast_unsigned(),
    }
}
