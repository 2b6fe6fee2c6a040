// What operators give.

use super::casts::{count_of, reduced};
use super::numbers::{compared, computed, lowest};
use super::rows::{Group, group_of, meeting, result_type, unary_type};
use crate::typed::Typed;
use qasm_ast::{BinaryOp, UnaryOp};
use qasm_types::Ty;

/// The value of an operator, where the operands have the operator. There is none at a divisor 0, at an amount or an exponent
/// below 0, where a constant is out of range, and beside a part of pi that has no count.
pub fn result(op: BinaryOp, left: Typed, right: Typed) -> Option<Typed> {
    let ty = result_type(op, left, right)?;
    let a = beside(left, right.ty)?;
    let b = beside(right, left.ty)?;
    if a.is_part() || b.is_part() {
        return of_parts(op, a, b);
    }
    of_numbers(op, ty, a, b)
}

/// An operand beside another: a part of pi beside an angle is a count of it, where it has one.
pub fn beside(operand: Typed, other: Ty) -> Option<Typed> {
    match other {
        Ty::Angle(n) if operand.is_part() => count_of(operand, n),
        _ => Some(operand),
    }
}

// The value of an operator with a result of this type, by the numbers of the operands.
fn of_numbers(op: BinaryOp, ty: Ty, left: Typed, right: Typed) -> Option<Typed> {
    let group = group_of(op);
    if group == Group::Logic {
        let truth = match op {
            BinaryOp::And => left.number != 0 && right.number != 0,
            _ => left.number != 0 || right.number != 0,
        };
        return Some(Typed::new(ty, i128::from(truth)));
    }
    let (a, b) = if group == Group::Shift {
        (taken(left, reduced(ty, left.number)), right.number)
    } else {
        (
            taken_beside(left, right, left),
            taken_beside(left, right, right),
        )
    };
    if group.compares() {
        return Some(Typed::new(ty, i128::from(compared(op, a, b))));
    }
    reduced(ty, computed(op, a, b)?)
}

// The number of an operand where it is taken at another type.
fn taken(operand: Typed, at: Option<Typed>) -> i128 {
    at.unwrap_or(operand).number
}

// The number of one of two operands: where they meet at a word, at that word.
fn taken_beside(left: Typed, right: Typed, one: Typed) -> i128 {
    taken(
        one,
        meeting(left, right).and_then(|word| reduced(word, one.number)),
    )
}

// The value of an operator on parts of pi, or on one and a whole constant. A comparison is one of the cross products.
fn of_parts(op: BinaryOp, left: Typed, right: Typed) -> Option<Typed> {
    let a = left.number.checked_mul(right.den)?;
    let b = right.number.checked_mul(left.den)?;
    let dens = left.den.checked_mul(right.den)?;
    match op {
        BinaryOp::Add | BinaryOp::Subtract => part(computed(op, a, b)?, dens),
        BinaryOp::Multiply => part(left.number.checked_mul(right.number)?, dens),
        BinaryOp::Divide => part(a, b),
        _ => Some(Typed::new(Ty::Bool, i128::from(compared(op, a, b)))),
    }
}

// A part of pi in lowest terms.
fn part(number: i128, den: i128) -> Option<Typed> {
    if den == 0 {
        return None;
    }
    let (number, den) = lowest(number, den)?;
    Some(Typed {
        ty: Ty::Pi,
        number,
        den,
    })
}

/// The value of an operator on one operand.
pub fn unary_result(op: UnaryOp, arg: Typed) -> Option<Typed> {
    let ty = unary_type(op, arg)?;
    match op {
        UnaryOp::Not => Some(Typed::new(ty, i128::from(arg.number == 0))),
        UnaryOp::Complement => reduced(ty, (-1i128).checked_sub(arg.number)?),
        UnaryOp::Negate if arg.is_part() => part(arg.number.checked_neg()?, arg.den),
        UnaryOp::Negate => reduced(ty, arg.number.checked_neg()?),
    }
}
