// Binary operators on constants.
ghost use Rattle.std.specs.Prelude.{◌≡◌, true, false, IfOk};
ghost use Rattle.qasm_types.specs.OpPlan.{types_of};
ghost use Rattle.qasm_types.specs.Operators.{group_of, HasRow};
ghost use Rattle.qasm_types.specs.Plans.{operator_plan};
ghost use Rattle.const_eval.specs.Answers.{Answers};
ghost use Rattle.const_eval.specs.Constant.{whole_in};
ghost use Rattle.const_eval.specs.ConstantRows.{IsRowOf};
ghost use Rattle.const_eval.specs.Numbered.{is_numbered};
ghost use Rattle.const_eval.specs.ConstOperators.{is_zero as zero_test, binary_result as binary_of, computed_at, has_exponent as exponent_test, has_divisor as divisor_test, has_amount as amount_test, leaves_rest as rest_test, row_at};
ghost use Rattle.const_eval.specs.Seen.{constant_of};

use crate::constant::Const;
use crate::number::{constant_at, number_at};
use crate::numbers::number_result;
use crate::part::parts_result;
use crate::refusing::refused;
use crate::register::registers_result;
use qasm_ast::BinaryOp;
use qasm_types::{OpPlan, Ty, operator_type};
use qq_base::{Fault, Rule, Span};
use std::alloc::Global;

/// A binary operator where it stands.
#[derive(Clone, Copy, Debug, PartialEq, Eq)]
pub(crate) struct Operator {
    pub op: BinaryOp,
    /// Whether a division of whole constants must leave no remainder.
    pub exact: bool,
    /// The places of the expression and of its operands.
    pub at: Span,
    pub left: Span,
    pub right: Span,
}

/// What a binary operator gives on constants, or the first of its own rules that it breaks.
pub(crate) fn binary_result(
    alloc: Global,
    operator: Operator,
    left: &Const,
    right: &Const,
) -> Result<Const, Fault>
    ensures { Answers constant_of result (binary_of operator.exact operator.op operator.at (constant_of left.now) operator.left (constant_of right.now) operator.right) }
{
    let plan = row(operator, left, right)?;
    computed(alloc, operator, plan, left, right)
}

// The row of the operator, where none of its own rules is broken that are asked of the operands as they are: in the
// order of their numbers.
fn row(operator: Operator, left: &Const, right: &Const) -> Result<OpPlan, Fault>
    ensures stands { IfOk result (λ plan. HasRow (group_of operator.op) (constant_of left.now).type (whole_in (constant_of left.now)) (constant_of right.now).type (whole_in (constant_of right.now)) plan.left plan.right plan.result) }
    ensures answer { Answers types_of result (row_at operator.exact operator.op operator.at (constant_of left.now) (constant_of right.now) operator.right (operator_plan (group_of operator.op) (constant_of left.now).type (whole_in (constant_of left.now)) (constant_of right.now).type (whole_in (constant_of right.now)))) }
{
    let plan = operator_type(operator.op, left.operand(), right.operand());
    if plan.is_none() && !left.is_part_of_pi() && !right.is_part_of_pi() {
        return Err(refused(Rule::TypeMismatch, operator.at));
    }
    if !has_exponent(operator.op, right) {
        return Err(refused(Rule::ConstRange, operator.at));
    }
    if !has_divisor(operator.exact, operator.op, left, right) {
        return Err(refused(Rule::ConstDivide, operator.right));
    }
    let Some(plan) = plan else {
        return Err(refused(Rule::NotPiMultiple, operator.at));
    };
    if !has_amount(operator.op, right) {
        return Err(refused(Rule::ShiftRange, operator.right));
    }
    Ok(plan)
}

// The value of an operator with a row. Numbers, fractions of pi and registers of bits go their own ways.
fn computed(
    alloc: Global,
    operator: Operator,
    plan: OpPlan,
    left: &Const,
    right: &Const,
) -> Result<Const, Fault>
    requires { IsRowOf operator.op (constant_of left.now) (constant_of right.now) (types_of plan) }
    ensures { Answers constant_of result (computed_at operator.op operator.at (constant_of left.now) operator.left (constant_of right.now) operator.right (types_of plan)) }
{
    match plan.left {
        Ty::Pi => parts_result(operator, plan, left, right),
        Ty::Bits(width) => registers_result(alloc, operator, plan, width, left, right),
        _ => match plan.right {
            Ty::Pi => parts_result(operator, plan, left, right),
            _ => numbers_result(operator, plan, left, right),
        },
    }
}

// The value of an operator that takes its operands as numbers.
fn numbers_result(
    operator: Operator,
    plan: OpPlan,
    left: &Const,
    right: &Const,
) -> Result<Const, Fault>
    requires row { IsRowOf operator.op (constant_of left.now) (constant_of right.now) (types_of plan) }
    requires left { is_numbered plan.left ≡ true }
    requires right { is_numbered plan.right ≡ true }
    ensures { Answers constant_of result (computed_at operator.op operator.at (constant_of left.now) operator.left (constant_of right.now) operator.right (types_of plan)) }
{
    let Some(x) = number_at(left, plan.left) else {
        return Err(refused(Rule::NotDyadic, operator.left));
    };
    let Some(y) = number_at(right, plan.right) else {
        return Err(refused(Rule::NotDyadic, operator.right));
    };
    match number_result(operator.op, plan, x, y) {
        Some(number) => Ok(constant_at(plan.result, number)),
        None => Err(refused(Rule::ConstRange, operator.at)),
    }
}

// Whether an exponent is at least 0.
fn has_exponent(op: BinaryOp, right: &Const) -> bool
    ensures { result ≡ exponent_test (group_of op) (constant_of right.now) }
{
    match op {
        BinaryOp::Power => right.operand().whole >= 0,
        _ => true,
    }
}

// Whether an amount is at least 0.
fn has_amount(op: BinaryOp, right: &Const) -> bool
    ensures { result ≡ amount_test (group_of op) (constant_of right.now) }
{
    match op {
        BinaryOp::ShiftLeft | BinaryOp::ShiftRight => right.operand().whole >= 0,
        _ => true,
    }
}

// Whether a divisor is not 0, and leaves no remainder where none may be.
fn has_divisor(exact: bool, op: BinaryOp, left: &Const, right: &Const) -> bool
    ensures { result ≡ divisor_test exact (group_of op) (constant_of left.now) (constant_of right.now) }
{
    match op {
        BinaryOp::Divide => !right.is_zero() && !(exact && leaves_rest(left, right)),
        BinaryOp::Remainder => !right.is_zero(),
        _ => true,
    }
}

// Whether the quotient of whole constants leaves a remainder.
fn leaves_rest(left: &Const, right: &Const) -> bool
    requires { zero_test (constant_of right.now) ≡ false }
    ensures { result ≡ rest_test (constant_of left.now) (constant_of right.now) }
{
    match (left, right) {
        (Const::Whole(dividend), Const::Whole(divisor)) => dividend.number % divisor.number != 0,
        _ => false,
    }
}
