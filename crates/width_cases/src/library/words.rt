// What the tables of `qasm_types` answer, and what the calls of `word_arith` give.

ghost use Rattle.std.specs.Prelude.{IsTrue};
ghost use Rattle.qasm_types.specs.Types.{IsType};

use crate::typed::Typed;
use qasm_ast::{BinaryOp, UnaryOp};
use qasm_types::{OpPlan, Operand, Ty, cast_of, operator_type, unary_type as type_of};
use word_arith::{
    WordTy, add, and, div, less, mul, neg, not, or, rem, shl, shr, sub, value, wrap, xor,
};

/// Whether the width of a type is one of the language's.
pub fn is_type(ty: Ty) -> bool
    ensures { IsTrue result → IsType ty }
{
    match ty {
        Ty::Int(n) | Ty::Uint(n) => 1 <= n && n <= 64,
        Ty::Angle(n) => 1 <= n && n <= 32,
        _ => true,
    }
}

/// What the tables are asked for.
fn operand(typed: Typed) -> Option<Operand> {
    let ty = typed.ty;
    let whole = typed.number;
    if is_type(ty) && -(1 << 63) <= whole && whole < 1 << 64 {
        return Some(Operand { ty, whole });
    }
    None
}

fn plan_of(op: BinaryOp, left: Typed, right: Typed) -> Option<OpPlan> {
    operator_type(op, operand(left)?, operand(right)?)
}

/// The type of an operator's result.
pub fn result_type(op: BinaryOp, left: Typed, right: Typed) -> Option<Ty> {
    Some(plan_of(op, left, right)?.result)
}

/// The type of the result of an operator on one operand.
pub fn unary_type(op: UnaryOp, arg: Typed) -> Option<Ty> {
    type_of(op, operand(arg)?)
}

/// Whether there is a cast.
pub fn has_cast(from: Typed, to: Ty) -> bool {
    match operand(from) {
        Some(operand) => cast_of(operand, to),
        None => false,
    }
}

fn word_ty(ty: Ty) -> Option<WordTy> {
    match ty {
        Ty::Int(width) if 1 <= width && width <= 64 => Some(WordTy {
            signed: true,
            width,
        }),
        Ty::Uint(width) if 1 <= width && width <= 64 => Some(WordTy {
            signed: false,
            width,
        }),
        _ => None,
    }
}

/// The value of an operator where its operands are taken as words and a call gives it.
pub fn word_result(op: BinaryOp, left: Typed, right: Typed) -> Option<Typed> {
    let plan = plan_of(op, left, right)?;
    let ty = word_ty(plan.left)?;
    if matches!(op, BinaryOp::ShiftLeft | BinaryOp::ShiftRight) {
        let moved = shifted(op, left.number, right.number, ty)?;
        return Some(Typed::new(plan.result, value(moved, ty)));
    }
    if plan.right != plan.left {
        return None;
    }
    let number = if plan.result == Ty::Bool {
        i128::from(compared(op, left.number, right.number, ty)?)
    } else {
        value(computed(op, left.number, right.number, ty)?, ty)
    };
    Some(Typed::new(plan.result, number))
}

fn shifted(op: BinaryOp, number: i128, amount: i128, ty: WordTy) -> Option<i64> {
    let word = wrap(number, ty);
    let amount = u32::try_from(amount).ok()?;
    if amount >= ty.width {
        return None;
    }
    Some(match op {
        BinaryOp::ShiftLeft => shl(word, amount, ty),
        _ => shr(word, amount, ty),
    })
}

fn computed(op: BinaryOp, left: i128, right: i128, ty: WordTy) -> Option<i64> {
    let a = wrap(left, ty);
    let b = wrap(right, ty);
    match op {
        BinaryOp::Add => Some(add(a, b, ty)),
        BinaryOp::Subtract => Some(sub(a, b, ty)),
        BinaryOp::Multiply => Some(mul(a, b, ty)),
        BinaryOp::Divide if b >= 1 => Some(div(a, b, ty)),
        BinaryOp::Remainder if b >= 1 => Some(rem(a, b, ty)),
        BinaryOp::BitAnd => Some(and(a, b, ty)),
        BinaryOp::BitOr => Some(or(a, b, ty)),
        BinaryOp::BitXor => Some(xor(a, b, ty)),
        _ => None,
    }
}

fn compared(op: BinaryOp, left: i128, right: i128, ty: WordTy) -> Option<bool> {
    let a = wrap(left, ty);
    let b = wrap(right, ty);
    Some(match op {
        BinaryOp::Less => less(a, b, ty),
        BinaryOp::LessEqual => !less(b, a, ty),
        BinaryOp::Greater => less(b, a, ty),
        BinaryOp::GreaterEqual => !less(a, b, ty),
        BinaryOp::Equal => a == b,
        BinaryOp::NotEqual => a != b,
        _ => return None,
    })
}

/// The value of `~` or `-` on a word.
pub fn unary_word(op: UnaryOp, arg: Typed) -> Option<Typed> {
    let ty = word_ty(unary_type(op, arg)?)?;
    let word = wrap(arg.number, ty);
    let word = match op {
        UnaryOp::Complement => not(word, ty),
        UnaryOp::Negate => neg(word, ty),
        UnaryOp::Not => return None,
    };
    Some(Typed::new(arg.ty, value(word, ty)))
}

/// A number at a word type to which it is cast.
pub fn word_cast(from: Typed, to: Ty) -> Option<Typed> {
    if !has_cast(from, to) {
        return None;
    }
    let ty = word_ty(to)?;
    Some(Typed::new(to, value(wrap(from.number, ty), ty)))
}
