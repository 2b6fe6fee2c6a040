// The table of operators.
ghost use Rattle.std.specs.Prelude.{◌≡◌, ◌↔◌, IsNone, IsSomeAnd, IfSome, Some};
ghost use Rattle.std.specs.Option.{option_map};
ghost use Rattle.qasm_ast.specs.declared.expr.BinaryOp.{BinaryOp};
ghost use Rattle.qasm_types.specs.declared.ty.Ty.{Ty};
ghost use Rattle.qasm_types.specs.Types.{IsType};
ghost use Rattle.qasm_types.specs.Operators.{group_of, HasRow, HasUnaryRow};
ghost use Rattle.qasm_types.specs.Plans.{operator_plan, unary_plan as unary_types, complements as complements_test, negates as negates_test};
ghost use Rattle.qasm_types.specs.OpPlan.{types_of, Takes};

use crate::cast::has_cast;
use crate::operand::{OpPlan, Operand};
use crate::plan::{
    bitwise_plan, equality_plan, logic_plan, order_plan, product_plan, quotient_plan, rest_plan,
    shift_plan, sum_plan, wholes_plan,
};
use crate::ty::Ty;
use qasm_ast::{BinaryOp, UnaryOp};

/// The types at which an operator takes its operands, and that of its result; or None where the operands have no such
/// operator.
pub fn operator_type(op: BinaryOp, left: Operand, right: Operand) -> Option<OpPlan>
    ensures row { (l r t : Ty) → HasRow (group_of op) left.ty left.whole right.ty right.whole l r t
        ↔ IsSomeAnd result (Takes l r t) }
    ensures none { IsNone result ↔ ((l r t : Ty) → ¬ HasRow (group_of op) left.ty left.whole right.ty right.whole l r t) }
    ensures plan { option_map types_of result ≡ operator_plan (group_of op) left.ty left.whole right.ty right.whole }
{
    plan_of(op, left, right)
}

// What the groups of operators take.
fn plan_of(op: BinaryOp, left: Operand, right: Operand) -> Option<OpPlan>
    ensures { option_map types_of result ≡ operator_plan (group_of op) left.ty left.whole right.ty right.whole }
{
    match op {
        BinaryOp::Add | BinaryOp::Subtract => sum_plan(left, right),
        BinaryOp::Multiply => product_plan(left, right),
        BinaryOp::Divide => quotient_plan(left, right),
        BinaryOp::Remainder => rest_plan(left, right),
        BinaryOp::ShiftLeft | BinaryOp::ShiftRight => shift_plan(left, right),
        BinaryOp::BitAnd | BinaryOp::BitOr | BinaryOp::BitXor => bitwise_plan(left, right),
        BinaryOp::Equal | BinaryOp::NotEqual => equality_plan(left, right),
        BinaryOp::Less | BinaryOp::LessEqual | BinaryOp::Greater | BinaryOp::GreaterEqual => {
            order_plan(left, right)
        }
        BinaryOp::And | BinaryOp::Or => logic_plan(left, right),
        BinaryOp::Power => wholes_plan(left, right),
    }
}

/// The type of the result of a unary operator, which is that of the operand but for `!`; or None where the operand has no
/// such operator.
pub fn unary_type(op: UnaryOp, arg: Operand) -> Option<Ty>
    ensures row { (t : Ty) → HasUnaryRow op arg.ty arg.whole t ↔ (result ≡ Some t) }
    ensures none { IsNone result ↔ ((t : Ty) → ¬ HasUnaryRow op arg.ty arg.whole t) }
    ensures plan { result ≡ unary_types op arg.ty arg.whole }
    ensures is_type { IfSome result IsType }
{
    unary_result(op, arg)
}

// What the unary operators give.
fn unary_result(op: UnaryOp, arg: Operand) -> Option<Ty>
    ensures result { result ≡ unary_types op arg.ty arg.whole }
    ensures is_type { IfSome result IsType }
{
    match op {
        UnaryOp::Not => has_cast(arg, Ty::Bool).then_some(Ty::Bool),
        UnaryOp::Complement => complements(arg.ty).then_some(arg.ty),
        UnaryOp::Negate => negates(arg.ty).then_some(arg.ty),
    }
}

fn complements(ty: Ty) -> bool
    ensures { result ≡ complements_test ty }
{
    matches!(
        ty,
        Ty::Int(_) | Ty::Uint(_) | Ty::Bit | Ty::Bits(_) | Ty::Whole
    )
}

fn negates(ty: Ty) -> bool
    ensures { result ≡ negates_test ty }
{
    !matches!(ty, Ty::Bool | Ty::Bit | Ty::Bits(_))
}
