// The word types at which operands are taken.
ghost use Rattle.std.specs.Prelude.{◌≡◌, ℕ, ◌≤◌, IfSome};
ghost use Rattle.std.specs.Option.{option_map};
ghost use Rattle.qasm_types.specs.Types.{IsType, IsWord};
ghost use Rattle.qasm_types.specs.Words.{meeting as meeting_of, constant_beside as constant_type, is_value_of};
ghost use Rattle.qasm_types.specs.Plans.{met, taken_beside as taken_type, words_plan as words_types};
ghost use Rattle.qasm_types.specs.OpPlan.{types_of};

use crate::operand::{OpPlan, Operand};
use crate::ty::Ty;
use word_arith::{WordTy, is_value};

/// The plan of two operands that are words, one of which may be a whole constant: both at the type at which they meet.
pub(crate) fn words_plan(left: Operand, right: Operand) -> Option<OpPlan>
    ensures { option_map types_of result ≡ words_types left.ty left.whole right.ty right.whole }
{
    if left.ty.is_word() {
        let other = taken_beside(left.ty, right)?;
        Some(OpPlan::all(meeting(left.ty, other)))
    } else if right.ty.is_word() {
        let other = taken_beside(right.ty, left)?;
        Some(OpPlan::all(meeting(other, right.ty)))
    } else {
        None
    }
}

// The word type of a number beside a word: its own, or the one that a whole constant takes there.
fn taken_beside(word: Ty, number: Operand) -> Option<Ty>
    requires { IsType word }
    ensures taken { result ≡ taken_type word number.ty number.whole }
    ensures is_type { IfSome result IsType }
{
    match number.ty {
        Ty::Int(_) | Ty::Uint(_) => Some(number.ty),
        Ty::Whole => Some(constant_beside(word, number.whole)),
        _ => None,
    }
}

/// The type of a whole constant beside a word: the word's where the value is one of it, else `int[64]` where it is one of
/// that, else `uint[64]`.
pub(crate) fn constant_beside(word: Ty, value: i128) -> Ty
    requires { IsType word }
    ensures taken { result ≡ constant_type word value }
    ensures is_type { IsType result }
{
    if has_value(word, value) {
        word
    } else if has_value(Ty::Int(64), value) {
        Ty::Int(64)
    } else {
        Ty::Uint(64)
    }
}

// Whether the number is a value of the word type.
fn has_value(word: Ty, value: i128) -> bool
    requires { IsType word }
    ensures { result ≡ is_value_of word value }
{
    match word {
        Ty::Int(width) => is_value(
            value,
            WordTy {
                signed: true,
                width,
            },
        ),
        Ty::Uint(width) => is_value(
            value,
            WordTy {
                signed: false,
                width,
            },
        ),
        _ => false,
    }
}

// The type at which two words meet.
fn meeting(left: Ty, right: Ty) -> Ty
    requires left_is_type { IsType left }
    requires right_is_type { IsType right }
    ensures met { result ≡ meeting_of left right }
    ensures is_type { IsType result }
{
    match (left, right) {
        (Ty::Uint(m), Ty::Uint(n)) => Ty::Uint(m.max(n)),
        (Ty::Int(m), Ty::Int(n)) => Ty::Int(m.max(n)),
        (Ty::Uint(m), Ty::Int(n)) if m < n => right,
        (Ty::Int(m), Ty::Uint(n)) if m <= n => right,
        _ => left,
    }
}
