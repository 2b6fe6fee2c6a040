// Unary operators on constants.
ghost use Rattle.std.specs.Prelude.{◌≡◌, ◌<◌, ◌≤◌, ◌^◌, true, neg_ℤ, ◌-ℤ◌, pos, map, not, unsigned_abs, IfOk};
ghost use Rattle.qasm_ast.specs.declared.expr.UnaryOp.TheVariants.{Complement, Negate};
ghost use Rattle.qasm_types.specs.Plans.{complements, negates};
ghost use Rattle.qasm_types.specs.Values.{apply_unary};
ghost use Rattle.const_eval.specs.Answers.{Answers};
ghost use Rattle.const_eval.specs.ConstOperators.{unary_result as unary_of};
ghost use Rattle.const_eval.specs.Results.{constant_in_range};
ghost use Rattle.const_eval.specs.Seen.{constant_of};

use crate::constant::{BitRegister, Const};
use crate::number::{angle_constant, is_nonzero, whole_constant};
use crate::refusing::refused;
use angle_arith::angle_neg;
use qasm_ast::{BitText, UnaryOp};
use qasm_types::unary_type;
use qq_base::{Fault, NoMemory, Rule, Span};
use std::alloc::Global;

/// What a unary operator gives on a constant, or the rule that it breaks, at its place.
pub(crate) fn unary_result(
    alloc: Global,
    op: UnaryOp,
    at: Span,
    value: &Const,
) -> Result<Const, Fault>
    ensures { Answers constant_of result (unary_of op at (constant_of value.now)) }
{
    if unary_type(op, value.operand()).is_none() {
        return Err(refused(value.no_row(), at));
    }
    match op {
        UnaryOp::Not => Ok(Const::Bool(!is_nonzero(value))),
        UnaryOp::Complement => complement(alloc, at, value),
        UnaryOp::Negate => negative(at, value),
    }
}

// `~`: -x - 1 of a whole number, and each bit turned over.
fn complement(alloc: Global, at: Span, value: &Const) -> Result<Const, Fault>
    requires { complements (constant_of value.now).type ≡ true }
    ensures { Answers constant_of result (constant_in_range at (constant_of value.now).type (apply_unary Complement (constant_of value.now).type (constant_of value.now).value)) }
{
    match value {
        Const::Whole(number) => whole_constant(-number.number - 1, at),
        Const::Bool(truth) => Ok(Const::Bool(!*truth)),
        Const::Bits(bits) => Ok(Const::Bits(turned(alloc, bits)?)),
        Const::Pi(_) | Const::Angle(_) => Err(refused(Rule::TypeMismatch, at)),
    }
}

// The bits turned over.
fn turned(alloc: Global, bits: &BitRegister) -> Result<BitRegister, NoMemory>
    ensures { IfOk result (λ turned. turned.text ≡ map not bits.now.text) }
{
    let mut turned = Vec::new(alloc);
    for bit in &bits.text.items {
        turned.push(!*bit)?;
    }
    Ok(BitRegister {
        text: BitText { items: turned },
    })
}

// `-`
fn negative(at: Span, value: &Const) -> Result<Const, Fault>
    requires { negates (constant_of value.now).type ≡ true }
    ensures { Answers constant_of result (constant_in_range at (constant_of value.now).type (apply_unary Negate (constant_of value.now).type (constant_of value.now).value)) }
{
    match value {
        Const::Whole(number) => whole_constant(-number.number, at),
        Const::Pi(part) => Ok(Const::Pi(angle_neg(*part))),
        Const::Angle(angle) => Ok(angle_constant(-i128::from(angle.count), angle.width)),
        Const::Bool(_) | Const::Bits(_) => Err(refused(Rule::TypeMismatch, at)),
    }
}
