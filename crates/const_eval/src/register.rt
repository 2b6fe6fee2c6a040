// Operators on registers of bits.
ghost use Rattle.std.specs.Prelude.{◌≡◌, ◌≤◌, ◌<◌, ◌^◌, ◌++◌, false, int_lt, length, min, pos, unsigned_abs, replicate, true, IfOk, OnOk, Some};
ghost use Rattle.qasm_types.specs.OpPlan.{types_of};
ghost use Rattle.qasm_types.specs.Operators.{group_of};
ghost use Rattle.qasm_types.specs.Plans.{casts};
ghost use Rattle.qasm_types.specs.Values.{Number, Register, apply, cast};
ghost use Rattle.qasm_types.specs.declared.ty.Ty.TheVariants.{Bits};
ghost use Rattle.const_eval.specs.Answers.{Answers};
ghost use Rattle.const_eval.specs.Constant.{register_of, whole_in};
ghost use Rattle.const_eval.specs.ConstOperators.{computed_at};
ghost use Rattle.const_eval.specs.ConstantRows.{IsRowOf};
ghost use Rattle.const_eval.specs.Registered.{bit_result, is_shift as shift_test, moved_left as left_of, moved_right as right_of, paired as pairs_of, paired_type, pairs as takes_pairs};
ghost use Rattle.const_eval.specs.Results.{constant_in_range};
ghost use Rattle.const_eval.specs.Seen.{constant_of};

use crate::cast::bits_at;
use crate::constant::{BitRegister, Const};
use crate::operator::Operator;
use crate::refusing::refused;
use qasm_ast::{BinaryOp, BitText};
use qasm_types::OpPlan;
use qq_base::{Fault, NoMemory, Rule, Span};
use std::alloc::Global;

/// The value of an operator that takes a register of bits as it is.
pub(crate) fn registers_result(
    alloc: Global,
    operator: Operator,
    plan: OpPlan,
    width: u32,
    left: &Const,
    right: &Const,
) -> Result<Const, Fault>
    requires row { IsRowOf operator.op (constant_of left.now) (constant_of right.now) (types_of plan) }
    requires register { plan.left ≡ Bits width }
    ensures { Answers constant_of result (computed_at operator.op operator.at (constant_of left.now) operator.left (constant_of right.now) operator.right (types_of plan)) }
{
    let bits = seen_bits(alloc, left, width)?;
    if is_shift(operator.op) {
        let amount = right.operand().whole;
        return shifted(alloc, operator.op, &bits, amount, operator.at);
    }
    let others = seen_bits(alloc, right, width)?;
    paired_result(alloc, operator.op, &bits, &others, operator.at)
}

// Whether an operator is a shift.
fn is_shift(op: BinaryOp) -> bool
    ensures { result ≡ shift_test (group_of op) }
{
    matches!(op, BinaryOp::ShiftLeft | BinaryOp::ShiftRight)
}

// The bits of a constant that is cast to a register, that of index 0 first.
fn seen_bits(alloc: Global, value: &Const, width: u32) -> Result<Vec<bool>, NoMemory>
    requires { casts (constant_of value.now).type (whole_in (constant_of value.now)) (Bits width) ≡ true }
    ensures bits { IfOk result (λ bits. cast (constant_of value.now).type (constant_of value.now).value (Bits width) ≡ Some (Register bits.items)) }
    ensures count { IfOk result (λ bits. length bits.items ≡ width) }
{
    let mut bits = bits_at(alloc, value, width)?.text.items;
    bits.reverse();
    Ok(bits)
}

// A register of these bits, that of index 0 first.
fn register(mut bits: Vec<bool>) -> Const
    requires { length bits.items < 2 ^ 32 }
    ensures { constant_of result ≡ register_of bits.items }
{
    bits.reverse();
    Const::Bits(BitRegister {
        text: BitText { items: bits },
    })
}

// What an operator gives on two registers of one width.
fn paired_result(
    alloc: Global,
    op: BinaryOp,
    left: &[bool],
    right: &[bool],
    at: Span,
) -> Result<Const, Fault>
    requires pair { takes_pairs (group_of op) ≡ true }
    requires same { length left.now ≡ length right.now }
    requires few { length left.now < 2 ^ 32 }
    ensures { Answers constant_of result (constant_in_range at (paired_type (group_of op) (Bits (length left.now))) (apply op (paired_type (group_of op) (Bits (length left.now))) (Register left.now) (Register right.now))) }
{
    match op {
        BinaryOp::Equal => Ok(Const::Bool(left == right)),
        BinaryOp::NotEqual => Ok(Const::Bool(left != right)),
        _ => Ok(register(paired(alloc, op, left, right)?)),
    }
}

// What `&`, `|` or `^` gives on each two bits.
fn paired(alloc: Global, op: BinaryOp, left: &[bool], right: &[bool]) -> Result<Vec<bool>, NoMemory>
    ensures { IfOk result (λ bits. bits.items ≡ pairs_of op left.now right.now) }
{
    let bits = left
        .iter()
        .zip(right.iter())
        .map(|(a, b)| combined(op, *a, *b))
        .collect(alloc)?;
    Ok(bits)
}

// What `&`, `|` or `^` gives on two bits.
fn combined(op: BinaryOp, a: bool, b: bool) -> bool
    ensures { result ≡ bit_result op a b }
{
    match op {
        BinaryOp::BitAnd => a && b,
        BinaryOp::BitOr => a || b,
        BinaryOp::BitXor => a != b,
        _ => false,
    }
}

// A register that is shifted: an amount of the width or more leaves zeros alone.
fn shifted(
    alloc: Global,
    op: BinaryOp,
    bits: &[bool],
    amount: i128,
    at: Span,
) -> Result<Const, Fault>
    requires shift { shift_test (group_of op) ≡ true }
    requires few { length bits.now < 2 ^ 32 }
    ensures { Answers constant_of result (constant_in_range at (Bits (length bits.now)) (apply op (Bits (length bits.now)) (Register bits.now) (Number amount))) }
{
    if amount < 0 {
        return Err(refused(Rule::ConstRange, at));
    }
    let count = least(amount, bits.len() as u32) as usize;
    let moved = match op {
        BinaryOp::ShiftLeft => moved_left(alloc, bits, count)?,
        _ => moved_right(alloc, bits, count)?,
    };
    Ok(register(moved))
}

// The lesser of an amount that is not below 0 and a size.
fn least(amount: i128, size: u32) -> u32
    requires { int_lt amount (pos 0) ≡ false }
    ensures { result ≡ min (unsigned_abs amount) size }
{
    if amount < i128::from(size) {
        amount as u32
    } else {
        size
    }
}

// The bits with zeros in front of index 0.
fn moved_left(alloc: Global, bits: &[bool], count: usize) -> Result<Vec<bool>, NoMemory>
    requires { count ≤ length bits.now }
    ensures { IfOk result (λ moved. moved.items ≡ left_of count bits.now) }
{
    let mut moved = Vec::new(alloc);
    add_zeros(&mut moved, count)?;
    moved.extend_from_slice(&bits[..bits.len() - count])?;
    Ok(moved)
}

// The bits without the lowest, and zeros behind the highest.
fn moved_right(alloc: Global, bits: &[bool], count: usize) -> Result<Vec<bool>, NoMemory>
    requires { count ≤ length bits.now }
    ensures { IfOk result (λ moved. moved.items ≡ right_of count bits.now) }
{
    let mut moved = Vec::from_slice(alloc, &bits[count..])?;
    add_zeros(&mut moved, count)?;
    Ok(moved)
}

// Puts so many zeros behind the bits.
fn add_zeros(bits: &mut Vec<bool>, count: usize) -> Result<(), NoMemory>
    ensures { OnOk result (bits.new.items ≡ bits.old.items ++ replicate count false) }
{
    for _ in 0..count {
        bits.push(false)?;
    }
    Ok(())
}
