// Which operands have which operators, and of what type the result is, by the types of the operands.

use super::casts::has_cast;
use super::numbers::is_value;
use crate::typed::Typed;
use qasm_ast::{BinaryOp, UnaryOp};
use qasm_types::Ty;

/// Operators that share their rows.
#[derive(Clone, Copy, PartialEq, Eq)]
pub enum Group {
    Sum,
    Product,
    Quotient,
    Rest,
    Shift,
    Bitwise,
    Equality,
    Order,
    Logic,
    Power,
}

impl Group {
    /// Whether the operators compare.
    pub fn compares(self) -> bool {
        matches!(self, Group::Equality | Group::Order)
    }
}

pub fn group_of(op: BinaryOp) -> Group {
    match op {
        BinaryOp::Add | BinaryOp::Subtract => Group::Sum,
        BinaryOp::Multiply => Group::Product,
        BinaryOp::Divide => Group::Quotient,
        BinaryOp::Remainder => Group::Rest,
        BinaryOp::ShiftLeft | BinaryOp::ShiftRight => Group::Shift,
        BinaryOp::BitAnd | BinaryOp::BitOr | BinaryOp::BitXor => Group::Bitwise,
        BinaryOp::Equal | BinaryOp::NotEqual => Group::Equality,
        BinaryOp::Less | BinaryOp::LessEqual | BinaryOp::Greater | BinaryOp::GreaterEqual => {
            Group::Order
        }
        BinaryOp::And | BinaryOp::Or => Group::Logic,
        BinaryOp::Power => Group::Power,
    }
}

/// The type of an operator's result, where the operands have the operator.
pub fn result_type(op: BinaryOp, left: Typed, right: Typed) -> Option<Ty> {
    let group = group_of(op);
    if group == Group::Logic {
        return (has_cast(left, Ty::Bool) && has_cast(right, Ty::Bool)).then_some(Ty::Bool);
    }
    let ty = match (left.ty, right.ty) {
        (Ty::Pi, _) | (_, Ty::Pi) => beside_a_part(group, left.ty, right.ty),
        (Ty::Angle(_), _) | (_, Ty::Angle(_)) => beside_an_angle(group, left.ty, right.ty),
        (Ty::Bits(_), _) | (_, Ty::Bits(_)) => beside_bits(group, left.ty, right.ty),
        (Ty::Bool | Ty::Bit, _) | (_, Ty::Bool | Ty::Bit) => beside_a_truth(group, left, right),
        (Ty::Whole, Ty::Whole) => Some(Ty::Whole),
        _ => of_numbers(group, left, right),
    }?;
    Some(if group.compares() { Ty::Bool } else { ty })
}

fn is_number(ty: Ty) -> bool {
    matches!(ty, Ty::Int(_) | Ty::Uint(_) | Ty::Whole)
}

fn is_truth(ty: Ty) -> bool {
    matches!(ty, Ty::Bool | Ty::Bit)
}

// Parts of pi among each other, with a whole constant, or with an angle.
fn beside_a_part(group: Group, left: Ty, right: Ty) -> Option<Ty> {
    let meets = group == Group::Sum || group.compares();
    match (left, right) {
        (Ty::Pi, Ty::Pi) if meets => Some(Ty::Pi),
        (Ty::Angle(n), Ty::Pi) | (Ty::Pi, Ty::Angle(n)) if meets => Some(Ty::Angle(n)),
        (Ty::Pi, Ty::Whole) if matches!(group, Group::Product | Group::Quotient) => Some(Ty::Pi),
        (Ty::Whole, Ty::Pi) if group == Group::Product => Some(Ty::Pi),
        _ => None,
    }
}

// Angles of one width, or one with a number.
fn beside_an_angle(group: Group, left: Ty, right: Ty) -> Option<Ty> {
    let meets = group == Group::Sum || group.compares();
    match (left, right) {
        (Ty::Angle(m), Ty::Angle(n)) => (m == n && meets).then_some(left),
        (Ty::Angle(_), _) if is_number(right) => {
            matches!(group, Group::Product | Group::Quotient | Group::Shift).then_some(left)
        }
        (_, Ty::Angle(_)) if is_number(left) => (group == Group::Product).then_some(right),
        _ => None,
    }
}

// Bits of one width, or some with a number.
fn beside_bits(group: Group, left: Ty, right: Ty) -> Option<Ty> {
    match (left, right) {
        (Ty::Bits(m), Ty::Bits(n)) => {
            let ordered = group == Group::Order && n <= 64;
            let meets = ordered || matches!(group, Group::Bitwise | Group::Equality);
            (m == n && meets).then_some(left)
        }
        (Ty::Bits(n), _) if is_number(right) => {
            (group == Group::Shift || group.compares() && n <= 64).then_some(left)
        }
        (_, Ty::Bits(n)) if is_number(left) => (group.compares() && n <= 64).then_some(right),
        _ => None,
    }
}

// Truth values, or one with a number.
fn beside_a_truth(group: Group, left: Typed, right: Typed) -> Option<Ty> {
    if is_truth(left.ty) && is_truth(right.ty) {
        return matches!(group, Group::Bitwise | Group::Equality).then_some(Ty::Bit);
    }
    if group == Group::Bitwise || group.compares() {
        return meeting(left, right);
    }
    None
}

// Two numbers, of which one is a word.
fn of_numbers(group: Group, left: Typed, right: Typed) -> Option<Ty> {
    match group {
        Group::Power => None,
        Group::Shift if left.is_whole() => Some(beside(right.ty, left.number)),
        Group::Shift => Some(left.ty),
        _ => meeting(left, right),
    }
}

/// The word as which an operand is taken beside a word.
fn word_of(ty: Ty) -> Option<Ty> {
    match ty {
        Ty::Int(_) | Ty::Uint(_) => Some(ty),
        Ty::Bool | Ty::Bit | Ty::Bits(0) => Some(Ty::Uint(1)),
        Ty::Bits(n) if n <= 64 => Some(Ty::Uint(n)),
        _ => None,
    }
}

/// The word as which a whole constant is taken beside a word.
fn beside(word: Ty, number: i128) -> Ty {
    for ty in [word, Ty::Int(64)] {
        if is_value(number, ty) {
            return ty;
        }
    }
    Ty::Uint(64)
}

/// The word at which two operands meet, where one is a word or taken as one and the other is that or a whole constant.
pub fn meeting(left: Typed, right: Typed) -> Option<Ty> {
    match (word_of(left.ty), word_of(right.ty)) {
        (Some(a), Some(b)) => Some(wider(a, b)),
        (Some(a), None) if right.is_whole() => Some(wider(a, beside(a, right.number))),
        (None, Some(b)) if left.is_whole() => Some(wider(beside(b, left.number), b)),
        _ => None,
    }
}

// The wider of two words; of two of one width the one without a sign.
fn wider(left: Ty, right: Ty) -> Ty {
    match (left, right) {
        (Ty::Int(m), Ty::Int(n)) => Ty::Int(m.max(n)),
        (Ty::Uint(m), Ty::Uint(n)) => Ty::Uint(m.max(n)),
        (Ty::Uint(m), Ty::Int(n)) => of_both(m, n),
        (Ty::Int(n), Ty::Uint(m)) => of_both(m, n),
        _ => Ty::Whole,
    }
}

// The wider of a word without a sign and one with a sign.
fn of_both(unsigned: u32, signed: u32) -> Ty {
    if unsigned < signed {
        Ty::Int(signed)
    } else {
        Ty::Uint(unsigned)
    }
}

/// The type of the result of an operator on one operand.
pub fn unary_type(op: UnaryOp, arg: Typed) -> Option<Ty> {
    let ty = arg.ty;
    let has_operator = match op {
        UnaryOp::Not => return has_cast(arg, Ty::Bool).then_some(Ty::Bool),
        UnaryOp::Complement => is_number(ty) || matches!(ty, Ty::Bit | Ty::Bits(_)),
        UnaryOp::Negate => is_number(ty) || matches!(ty, Ty::Angle(_) | Ty::Pi),
    };
    has_operator.then_some(ty)
}
