// Operators on constants that are taken as numbers.
ghost use Rattle.std.specs.Prelude.{◌≡◌, ◌<◌, ◌≤◌, ◌*◌, ◌^◌, ◌≤ℤ◌, ℕ, true, pos, unsigned_abs, IfSome, Some};
ghost use Rattle.std.specs.Option.{option_and_then, option_map};
ghost use Rattle.qasm_types.specs.Operators.{group_of, Bitwise, Shift};
ghost use Rattle.qasm_types.specs.Types.{IsWholeConstant, IsType};
ghost use Rattle.qasm_types.specs.Values.{apply, reduced_to, result_on_numbers};
ghost use Rattle.qasm_types.specs.declared.ty.Ty.TheVariants.{Angle, Bool};
ghost use Rattle.const_eval.specs.ConstantRows.{ConstantRow, is_bitwise, is_for_counts};
ghost use Rattle.const_eval.specs.Numbered.{IsNumberOf, applied, is_numbered, value_for};

use crate::number::word;
use crate::whole::{power_of_two, shifted_right, test_result, whole_result};
use qasm_ast::BinaryOp;
use qasm_types::{OpPlan, Ty};
use word_arith::{WordTy, whole_and, whole_or, whole_xor};

/// What an operator gives on numbers that stand for values of the types at which it takes them, where it has a value.
pub(crate) fn number_result(op: BinaryOp, plan: OpPlan, x: i128, y: i128) -> Option<i128>
    requires row { ConstantRow (group_of op) plan.left plan.right plan.result }
    requires left_numbered { is_numbered plan.left ≡ true }
    requires right_numbered { is_numbered plan.right ≡ true }
    requires left { IsNumberOf plan.left x }
    requires right { IsNumberOf plan.right y }
    ensures value { apply op plan.result (value_for plan.left x) (value_for plan.right y) ≡ option_map (value_for plan.result) result }
    ensures stands { IfSome result (IsNumberOf plan.result) }
{
    applied_number(op, plan, x, y)
}

// The same on the numbers alone.
fn applied_number(op: BinaryOp, plan: OpPlan, x: i128, y: i128) -> Option<i128>
    requires row { ConstantRow (group_of op) plan.left plan.right plan.result }
    requires left_numbered { is_numbered plan.left ≡ true }
    requires right_numbered { is_numbered plan.right ≡ true }
    requires left { IsNumberOf plan.left x }
    requires right { IsNumberOf plan.right y }
    ensures value { applied op plan.result x y ≡ option_map (value_for plan.result) result }
    ensures stands { IfSome result (IsNumberOf plan.result) }
{
    match plan.result {
        Ty::Bool => truth_number(op, x, y),
        Ty::Whole => whole_result(op, x, y),
        Ty::Angle(width) => count_number(op, width, x, y),
        _ => Some(bits_number(op, plan.result, x, y)),
    }
}

// What a test says, as a number.
fn truth_number(op: BinaryOp, x: i128, y: i128) -> Option<i128>
    ensures value { applied op Bool x y ≡ option_map (value_for Bool) result }
    ensures stands { IfSome result (IsNumberOf Bool) }
{
    match test_result(op, x, y) {
        Some(true) => Some(1),
        Some(false) => Some(0),
        None => None,
    }
}

// What an operator that works bit by bit gives, at a word type or at `bit`.
fn bits_number(op: BinaryOp, ty: Ty, x: i128, y: i128) -> i128
    requires is_type { IsType ty }
    requires bitwise { is_bitwise ty ≡ true }
    requires group { group_of op ≡ Bitwise }
    ensures value { applied op ty x y ≡ Some (value_for ty result) }
    ensures stands { IsNumberOf ty result }
{
    let bits = bits_result(op, x, y);
    match ty {
        Ty::Int(width) => word(
            bits,
            WordTy {
                signed: true,
                width,
            },
        ),
        Ty::Uint(width) => word(
            bits,
            WordTy {
                signed: false,
                width,
            },
        ),
        _ => bits.rem_euclid(2),
    }
}

// The bits that an operator gives, in two's complement without end.
fn bits_result(op: BinaryOp, x: i128, y: i128) -> i128
    requires { group_of op ≡ Bitwise }
    ensures { result_on_numbers op x y ≡ Some result }
{
    match op {
        BinaryOp::BitAnd => whole_and(x, y),
        BinaryOp::BitOr => whole_or(x, y),
        _ => whole_xor(x, y),
    }
}

// What an operator gives on counts, modulo a turn.
fn count_number(op: BinaryOp, width: u32, x: i128, y: i128) -> Option<i128>
    requires counts { is_for_counts (group_of op) ≡ true }
    requires width { width ≤ 32 }
    requires small { unsigned_abs x * unsigned_abs y < 2 ^ 126 }
    requires constant { IsWholeConstant x }
    requires divisor { IsWholeConstant y }
    requires shifted { group_of op ≡ Shift → (pos 0 ≤ℤ x) × (unsigned_abs x < 2 ^ 32) }
    ensures value { applied op (Angle width) x y ≡ option_map (value_for (Angle width)) result }
    ensures stands { IfSome result (IsNumberOf (Angle width)) }
{
    match count_result(op, x, y) {
        Some(parts) => Some(parts.rem_euclid(power_of_two(width))),
        None => None,
    }
}

// What an operator gives on counts, as a number that has the same reduction at each width of an angle: all of one that is
// shifted to the left by 32 or more is out of the angle.
fn count_result(op: BinaryOp, x: i128, y: i128) -> Option<i128>
    requires counts { is_for_counts (group_of op) ≡ true }
    requires small { unsigned_abs x * unsigned_abs y < 2 ^ 126 }
    requires constant { IsWholeConstant x }
    requires divisor { IsWholeConstant y }
    requires shifted { group_of op ≡ Shift → (pos 0 ≤ℤ x) × (unsigned_abs x < 2 ^ 32) }
    ensures { (n : ℕ) → n ≤ 32 → option_and_then (reduced_to (Angle n)) (result_on_numbers op x y) ≡ option_and_then (reduced_to (Angle n)) result }
{
    match op {
        BinaryOp::Add => Some(x + y),
        BinaryOp::Subtract => Some(x - y),
        BinaryOp::Multiply => Some(x * y),
        BinaryOp::ShiftLeft if y < 0 => None,
        BinaryOp::ShiftLeft if y >= 32 => Some(0),
        BinaryOp::ShiftLeft => Some(x * power_of_two(y as u32)),
        BinaryOp::ShiftRight => shifted_right(x, y),
        _ if y == 0 => None,
        _ => Some(x / y),
    }
}
