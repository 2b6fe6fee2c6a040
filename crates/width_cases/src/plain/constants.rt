// Constant expressions: what they are worth, or the rule that they break.

use super::casts::{cast, has_cast};
use super::numbers::rest;
use super::rows::{Group, group_of, result_type, unary_type};
use super::values::{beside, result, unary_result};
use crate::typed::Typed;
use qasm_ast::{BinaryOp, UnaryOp};
use qasm_types::Ty;
use qq_base::Rule;

/// Where a rule stands.
#[derive(Clone, Copy, Debug, PartialEq, Eq)]
pub enum Spot {
    /// At the operator or the cast, where an expression begins.
    Whole,
    /// At the left operand.
    Left,
    /// At the right operand.
    Right,
}

/// What a constant expression answers.
#[derive(Clone, Copy, Debug, PartialEq, Eq)]
pub enum Answer {
    Value(Typed),
    Broken(Rule, Spot),
}

// A word is a whole constant once more, and a truth value a `bit`.
fn kept(value: Typed) -> Typed {
    let ty = match value.ty {
        Ty::Int(_) | Ty::Uint(_) => Ty::Whole,
        Ty::Bool => Ty::Bit,
        other => other,
    };
    Typed { ty, ..value }
}

/// What an operator gives on two constants: the first rule that is broken, the one with the least number first. `exact` forbids
/// that a division of whole constants leaves a rest.
pub fn binary_constant(op: BinaryOp, left: Typed, right: Typed, exact: bool) -> Answer {
    let group = group_of(op);
    let has_row = result_type(op, left, right).is_some();
    let has_part = left.is_part() || right.is_part();
    if !has_row && !has_part {
        return Answer::Broken(Rule::TypeMismatch, Spot::Whole);
    }
    if group == Group::Power && right.is_whole() && right.number < 0 {
        return Answer::Broken(Rule::ConstRange, Spot::Whole);
    }
    if !may_divide(op, left, right, exact) {
        return Answer::Broken(Rule::ConstDivide, Spot::Right);
    }
    if !has_row {
        return Answer::Broken(Rule::NotPiMultiple, Spot::Whole);
    }
    if group == Group::Shift && right.number < 0 {
        return Answer::Broken(Rule::ShiftRange, Spot::Right);
    }
    if beside(left, right.ty).is_none() {
        return Answer::Broken(Rule::NotDyadic, Spot::Left);
    }
    if beside(right, left.ty).is_none() {
        return Answer::Broken(Rule::NotDyadic, Spot::Right);
    }
    match result(op, left, right) {
        Some(value) => Answer::Value(kept(value)),
        None => Answer::Broken(Rule::ConstRange, Spot::Whole),
    }
}

// No division by the whole number 0 or by the part 0 of pi, and where it must be exact none that leaves a rest.
fn may_divide(op: BinaryOp, left: Typed, right: Typed, exact: bool) -> bool {
    if !matches!(op, BinaryOp::Divide | BinaryOp::Remainder) {
        return true;
    }
    if right.number == 0 && matches!(right.ty, Ty::Whole | Ty::Pi) {
        return false;
    }
    let asked = exact && op == BinaryOp::Divide && left.is_whole() && right.is_whole();
    !asked || rest(left.number, right.number) == Some(0)
}

/// What an operator gives on one constant.
pub fn unary_constant(op: UnaryOp, arg: Typed) -> Answer {
    if unary_type(op, arg).is_none() {
        let rule = if arg.is_part() {
            Rule::NotPiMultiple
        } else {
            Rule::TypeMismatch
        };
        return Answer::Broken(rule, Spot::Whole);
    }
    match unary_result(op, arg) {
        Some(value) => Answer::Value(kept(value)),
        None => Answer::Broken(Rule::ConstRange, Spot::Whole),
    }
}

/// What a cast gives on a constant.
pub fn cast_constant(from: Typed, to: Ty) -> Answer {
    if !has_cast(from, to) {
        return Answer::Broken(Rule::NoCast, Spot::Whole);
    }
    match cast(from, to) {
        Some(value) => Answer::Value(kept(value)),
        None if from.is_part() => Answer::Broken(Rule::NotDyadic, Spot::Whole),
        None => Answer::Broken(Rule::NotPiMultiple, Spot::Whole),
    }
}
