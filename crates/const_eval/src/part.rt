// Operators on fractions of pi.
ghost use Rattle.std.specs.Prelude.{◌≡◌, ◌≢◌, ◌*ℤ◌, pos, true, Some};
ghost use Rattle.angle_arith.specs.Fraction.{Fraction};
ghost use Rattle.qasm_ast.specs.declared.expr.BinaryOp.TheVariants.{Divide, Multiply};
ghost use Rattle.qasm_types.specs.OpPlan.{types_of};
ghost use Rattle.qasm_types.specs.Operators.{group_of};
ghost use Rattle.qasm_types.specs.Types.{IsWholeConstant};
ghost use Rattle.qasm_types.specs.Values.{Number, PartOfPi, part_in_range, result_on_parts, test_on_numbers};
ghost use Rattle.qasm_types.specs.declared.ty.Ty.TheVariants.{Pi};
ghost use Rattle.const_eval.specs.Answers.{Answers};
ghost use Rattle.const_eval.specs.ConstOperators.{computed_at};
ghost use Rattle.const_eval.specs.ConstantRows.{IsRowOf, is_comparison, is_scaling};
ghost use Rattle.const_eval.specs.Parted.{IsResult, has_part, part_type, takes_parts};
ghost use Rattle.const_eval.specs.Results.{constant_in_range};
ghost use Rattle.const_eval.specs.Seen.{constant_of};

use crate::constant::Const;
use crate::operator::Operator;
use crate::refusing::refused;
use angle_arith::{
    AngleRefusal, PiFraction, angle_add, angle_cmp, angle_div, angle_mul, angle_sub,
    fractions_have_lowest_terms,
};
use qasm_ast::BinaryOp;
use qasm_types::OpPlan;
use qq_base::{Fault, Rule, Span};
use std::cmp::Ordering;

/// The value of an operator that takes a fraction of pi as it is.
pub(crate) fn parts_result(
    operator: Operator,
    plan: OpPlan,
    left: &Const,
    right: &Const,
) -> Result<Const, Fault>
    requires row { IsRowOf operator.op (constant_of left.now) (constant_of right.now) (types_of plan) }
    requires part { has_part (types_of plan) ≡ true }
    ensures { Answers constant_of result (computed_at operator.op operator.at (constant_of left.now) operator.left (constant_of right.now) operator.right (types_of plan)) }
{
    match left {
        Const::Pi(a) => match right {
            Const::Pi(b) => on_parts(operator.op, *a, *b, operator.at),
            Const::Whole(number) => scaled(operator.op, *a, number.number, operator.at),
            _ => Err(refused(Rule::NotPiMultiple, operator.at)),
        },
        Const::Whole(number) => match right {
            Const::Pi(b) => scaled(operator.op, *b, number.number, operator.at),
            _ => Err(refused(Rule::NotPiMultiple, operator.at)),
        },
        _ => Err(refused(Rule::NotPiMultiple, operator.at)),
    }
}

// The value of an operator on two fractions.
fn on_parts(op: BinaryOp, a: PiFraction, b: PiFraction, at: Span) -> Result<Const, Fault>
    requires { takes_parts (group_of op) ≡ true }
    ensures { Answers constant_of result (constant_in_range at (part_type (group_of op)) (result_on_parts op (PartOfPi a) (PartOfPi b))) }
{
    // Both denominators are above 0.
    let (_, _) = (a.den(), b.den());
    match op {
        BinaryOp::Add => part_constant(angle_add(a, b), at),
        BinaryOp::Subtract => part_constant(angle_sub(a, b), at),
        _ => match compared(op, a, b) {
            Some(truth) => Ok(Const::Bool(truth)),
            None => Err(refused(Rule::ConstRange, at)),
        },
    }
}

// The value of `*` or `/` on a fraction and a whole number.
fn scaled(op: BinaryOp, part: PiFraction, number: i128, at: Span) -> Result<Const, Fault>
    requires scaling { is_scaling (group_of op) ≡ true }
    requires range { IsWholeConstant number }
    ensures { Answers constant_of result (constant_in_range at Pi (result_on_parts op (PartOfPi part) (Number number))) }
{
    // The denominator is above 0.
    let _ = part.den();
    match op {
        BinaryOp::Divide if number == 0 => Err(refused(Rule::ConstRange, at)),
        BinaryOp::Divide => part_constant(angle_div(part, number), at),
        _ => part_constant(angle_mul(part, number), at),
    }
}

// A fraction as a constant, where it is in range.
fn part_constant(found: Result<PiFraction, AngleRefusal>, at: Span) -> Result<Const, Fault>
    ensures { (f : Fraction) → f.den ≢ pos 0 → IsResult f found → Answers constant_of result (constant_in_range at Pi (part_in_range f)) }
{
    fractions_have_lowest_terms();
    match found {
        Ok(part) => Ok(Const::Pi(part)),
        Err(_) => Err(refused(Rule::ConstRange, at)),
    }
}

// What a comparison says of two fractions.
fn compared(op: BinaryOp, a: PiFraction, b: PiFraction) -> Option<bool>
    requires { is_comparison (group_of op) ≡ true }
    ensures { result ≡ test_on_numbers op (a.num *ℤ b.den) (b.num *ℤ a.den) }
{
    let order = angle_cmp(a, b);
    match op {
        BinaryOp::Equal => Some(order == Ordering::Equal),
        BinaryOp::NotEqual => Some(order != Ordering::Equal),
        BinaryOp::Less => Some(order == Ordering::Less),
        BinaryOp::LessEqual => Some(order != Ordering::Greater),
        BinaryOp::Greater => Some(order == Ordering::Greater),
        BinaryOp::GreaterEqual => Some(order != Ordering::Less),
        _ => None,
    }
}
