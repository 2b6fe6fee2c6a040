// The types at which each group of operators takes its operands.
ghost use Rattle.std.specs.Prelude.{◌≡◌, ℕ, ◌≤◌, ◌&&◌, Bool, true, if◌then◌else◌, Some, None};
ghost use Rattle.std.specs.Option.{option_map, option_or};
ghost use Rattle.qasm_types.specs.Types.{IsType};
ghost use Rattle.qasm_types.specs.Plans.{compared as compared_types, angles_plan as angles_types, turns_plan as turns_types, scales as scales_test, shifts as shifts_test, wholes_plan as wholes_types, constant_shift as constant_shift_types, bits_plan as bits_types, numbers_plan as numbers_types, truth_with_word as truth_types, bits_with_word as bits_word_types, sum_plan as sum_types, product_plan as product_types, quotient_plan as quotient_types, rest_plan as rest_types, shift_plan as shift_types, bitwise_plan as bitwise_types, compared_plan as comparison_types, equality_plan as equality_types, order_plan as order_types, logic_plan as logic_types};
ghost use Rattle.qasm_types.specs.OpPlan.{types_of};

use crate::cast::has_cast;
use crate::operand::{OpPlan, Operand};
use crate::ty::Ty;
use crate::word::{constant_beside, words_plan};

/// `+` and `-`.
pub(crate) fn sum_plan(left: Operand, right: Operand) -> Option<OpPlan>
    ensures { option_map types_of result ≡ sum_types left.ty left.whole right.ty right.whole }
{
    words_plan(left, right).or(angles_plan(left, right).or(turns_plan(left, right)))
}

/// `*`: what `/` takes, and the same with the operands exchanged.
pub(crate) fn product_plan(left: Operand, right: Operand) -> Option<OpPlan>
    ensures { option_map types_of result ≡ product_types left.ty left.whole right.ty right.whole }
{
    let plan = quotient_plan(left, right);
    if plan.is_none() && scales(right.ty, left.ty) {
        Some(OpPlan::of(left, right, right.ty))
    } else {
        plan
    }
}

/// `/`.
pub(crate) fn quotient_plan(left: Operand, right: Operand) -> Option<OpPlan>
    ensures { option_map types_of result ≡ quotient_types left.ty left.whole right.ty right.whole }
{
    let plan = words_plan(left, right);
    if plan.is_none() && scales(left.ty, right.ty) {
        Some(OpPlan::of(left, right, left.ty))
    } else {
        plan
    }
}

/// `%`.
pub(crate) fn rest_plan(left: Operand, right: Operand) -> Option<OpPlan>
    ensures { option_map types_of result ≡ rest_types left.ty left.whole right.ty right.whole }
{
    words_plan(left, right).or(wholes_plan(left, right))
}

/// `<<` and `>>`.
pub(crate) fn shift_plan(left: Operand, right: Operand) -> Option<OpPlan>
    ensures { option_map types_of result ≡ shift_types left.ty left.whole right.ty right.whole }
{
    if !shifts(left.ty, right.ty) {
        return constant_shift(left, right);
    }
    let shifted = left.ty;
    Some(OpPlan::of(left, right, shifted))
}

/// `&`, `|` and `^`.
pub(crate) fn bitwise_plan(left: Operand, right: Operand) -> Option<OpPlan>
    ensures { option_map types_of result ≡ bitwise_types left.ty left.whole right.ty right.whole }
{
    rest_plan(left, right).or(bits_plan(left, right).or(truth_with_word(left, right)))
}

/// `==` and `!=`.
pub(crate) fn equality_plan(left: Operand, right: Operand) -> Option<OpPlan>
    ensures { option_map types_of result ≡ equality_types left.ty left.whole right.ty right.whole }
{
    compared(comparison_plan(left, right).or(bits_plan(left, right)))
}

/// `<`, `<=`, `>` and `>=`.
pub(crate) fn order_plan(left: Operand, right: Operand) -> Option<OpPlan>
    ensures { option_map types_of result ≡ order_types left.ty left.whole right.ty right.whole }
{
    compared(comparison_plan(left, right).or(numbers_plan(left, right)))
}

/// `&&` and `||`.
pub(crate) fn logic_plan(left: Operand, right: Operand) -> Option<OpPlan>
    ensures { option_map types_of result ≡ logic_types left.ty left.whole right.ty right.whole }
{
    if has_cast(left, Ty::Bool) && has_cast(right, Ty::Bool) {
        Some(OpPlan::all(Ty::Bool))
    } else {
        None
    }
}

/// `**`, and whole constants under an operator that has no other constants.
pub(crate) fn wholes_plan(left: Operand, right: Operand) -> Option<OpPlan>
    ensures { option_map types_of result ≡ wholes_types left.ty right.ty }
{
    match (left.ty, right.ty) {
        (Ty::Whole, Ty::Whole) => Some(OpPlan::all(Ty::Whole)),
        _ => None,
    }
}

// What all six comparisons take.
fn comparison_plan(left: Operand, right: Operand) -> Option<OpPlan>
    ensures { option_map types_of result ≡ comparison_types left.ty left.whole right.ty right.whole }
{
    let mixed = truth_with_word(left, right).or(bits_with_word(left, right));
    words_plan(left, right).or(angles_plan(left, right).or(mixed))
}

// The plan with a truth value as its result.
fn compared(plan: Option<OpPlan>) -> Option<OpPlan>
    ensures { option_map types_of result ≡ compared_types (option_map types_of plan) }
{
    let plan = plan?;
    Some(OpPlan {
        left: plan.left,
        right: plan.right,
        result: Ty::Bool,
    })
}

// Two angles of one width, or one and a fraction; two constants of one kind.
fn angles_plan(left: Operand, right: Operand) -> Option<OpPlan>
    ensures { option_map types_of result ≡ angles_types left.ty right.ty }
{
    match (left.ty, right.ty) {
        (Ty::Angle(m), Ty::Angle(n)) if m != n => None,
        (Ty::Angle(_), Ty::Angle(_) | Ty::Pi) | (Ty::Pi, Ty::Pi) | (Ty::Whole, Ty::Whole) => {
            Some(OpPlan::all(left.ty))
        }
        (Ty::Pi, Ty::Angle(_)) => Some(OpPlan::all(right.ty)),
        _ => None,
    }
}

// Two turns, or one and a fraction.
fn turns_plan(left: Operand, right: Operand) -> Option<OpPlan>
    ensures { option_map types_of result ≡ turns_types left.ty right.ty }
{
    match (left.ty, right.ty) {
        (Ty::Turn, Ty::Turn | Ty::Pi) | (Ty::Pi, Ty::Turn) => Some(OpPlan::all(Ty::Turn)),
        _ => None,
    }
}

// Whether the first is multiplied or divided by the second: an angle by a number, a turn or a constant by a whole constant.
fn scales(ty: Ty, by: Ty) -> bool
    ensures { result ≡ scales_test ty by }
{
    match ty {
        Ty::Angle(_) => by.is_number(),
        Ty::Turn | Ty::Whole | Ty::Pi => by == Ty::Whole,
        _ => false,
    }
}

// Whether the first is shifted by the second at its own type.
fn shifts(ty: Ty, by: Ty) -> bool
    ensures { result ≡ shifts_test ty by }
{
    match ty {
        Ty::Int(_) | Ty::Uint(_) | Ty::Bits(_) | Ty::Angle(_) => by.is_number(),
        Ty::Whole => by == Ty::Whole,
        _ => false,
    }
}

// A whole constant shifted by a word.
fn constant_shift(left: Operand, right: Operand) -> Option<OpPlan>
    ensures { option_map types_of result ≡ constant_shift_types left.ty left.whole right.ty }
{
    if left.ty != Ty::Whole || !right.ty.is_word() {
        return None;
    }
    let ty = constant_beside(right.ty, left.whole);
    Some(OpPlan {
        left: ty,
        right: right.ty,
        result: ty,
    })
}

// Two registers of one width, or two truth values.
fn bits_plan(left: Operand, right: Operand) -> Option<OpPlan>
    ensures { option_map types_of result ≡ bits_types left.ty right.ty }
{
    match (left.ty, right.ty) {
        (Ty::Bits(m), Ty::Bits(n)) if m == n => Some(OpPlan::all(left.ty)),
        (Ty::Bool | Ty::Bit, Ty::Bool | Ty::Bit) => Some(OpPlan::all(Ty::Bit)),
        _ => None,
    }
}

// Two registers of one width of at most 64, as words.
fn numbers_plan(left: Operand, right: Operand) -> Option<OpPlan>
    ensures { option_map types_of result ≡ numbers_types left.ty right.ty }
{
    match (left.ty, right.ty) {
        (Ty::Bits(m), Ty::Bits(n)) if m == n && m <= 64 => Some(OpPlan::all(Ty::Uint(m.max(1)))),
        _ => None,
    }
}

// A truth value as `uint[1]` with a number.
fn truth_with_word(left: Operand, right: Operand) -> Option<OpPlan>
    ensures { option_map types_of result ≡ truth_types left.ty left.whole right.ty right.whole }
{
    if left.ty.is_truth() {
        words_plan(left.as_word(1), right)
    } else if right.ty.is_truth() {
        words_plan(left, right.as_word(1))
    } else {
        None
    }
}

// A register of at most 64 bits, as a word, with a number.
fn bits_with_word(left: Operand, right: Operand) -> Option<OpPlan>
    ensures { option_map types_of result ≡ bits_word_types left.ty left.whole right.ty right.whole }
{
    match (left.ty, right.ty) {
        (Ty::Bits(width), _) if width <= 64 => words_plan(left.as_word(width.max(1)), right),
        (Ty::Bits(_), _) => None,
        (_, Ty::Bits(width)) if width <= 64 => words_plan(left, right.as_word(width.max(1))),
        _ => None,
    }
}
