// Unary operators on values.
ghost use Rattle.std.specs.Prelude.{◌≡◌, true, false, pos, neg_ℤ, ◌-ℤ◌, IfOk};
ghost use Rattle.qasm_ast.specs.declared.expr.UnaryOp.TheVariants.{Complement, Negate};
ghost use Rattle.qasm_types.specs.Plans.{complements, negates};
ghost use Rattle.qasm_types.specs.Types.{IsWholeConstant};
ghost use Rattle.qasm_types.specs.Values.{apply_unary};
ghost use Rattle.const_eval.specs.Values.{or_zero, typed, unary_on};
ghost use Rattle.source_values.specs.Reduced.{is_bits};
ghost use Rattle.source_values.specs.Seen.{is_written, seen};

use crate::bits::turned;
use crate::number::{is_nonzero, number, reduced_value};
use crate::value::TypedValue;
use qasm_ast::UnaryOp;
use qasm_types::unary_type;
use qq_base::NoMemory;
use std::alloc::Global;

/// What a unary operator gives on a value of a type that can be written. Where the table has no row, `false` stands for it.
pub fn unary_value(alloc: Global, op: UnaryOp, value: &TypedValue) -> Result<TypedValue, NoMemory>
    requires { is_written (seen value.now).type ≡ true }
    ensures { IfOk result (λ other. seen other ≡ unary_on op (seen value.now)) }
{
    if unary_type(op, value.operand()).is_none() {
        return Ok(TypedValue::Bool(false));
    }
    match op {
        UnaryOp::Not => Ok(TypedValue::Bool(!is_nonzero(value))),
        UnaryOp::Complement => complement(alloc, value),
        UnaryOp::Negate => Ok(negative(value)),
    }
}

// `~`: -x - 1, which turns each bit over.
#[tactic(auto, using(crate::proofs::Turning::complement_of_bits))]
fn complement(alloc: Global, value: &TypedValue) -> Result<TypedValue, NoMemory>
    requires row { complements (seen value.now).type ≡ true }
    requires written { is_written (seen value.now).type ≡ true }
    ensures { IfOk result (λ other. seen other ≡ typed (seen value.now).type (or_zero (seen value.now).type (apply_unary Complement (seen value.now).type (seen value.now).value))) }
{
    match value {
        TypedValue::Bits(register) => Ok(TypedValue::Bits(turned(alloc, &register.bits)?)),
        _ => Ok(complement_of_number(value)),
    }
}

// `~` of a value that is no register.
#[tactic(auto, using(crate::proofs::Turning::complement_reduces, crate::proofs::Turning::complement_of_number))]
fn complement_of_number(value: &TypedValue) -> TypedValue
    requires row { complements (seen value.now).type ≡ true }
    requires written { is_written (seen value.now).type ≡ true }
    requires number { is_bits (seen value.now).type ≡ false }
    ensures { seen result ≡ typed (seen value.now).type (or_zero (seen value.now).type (apply_unary Complement (seen value.now).type (seen value.now).value)) }
{
    reduced_value(value.operand().ty, turned_number(number(value)))
}

// -x - 1
fn turned_number(number: i128) -> i128
    requires { IsWholeConstant number }
    ensures { result ≡ neg_ℤ number -ℤ pos 1 }
{
    -number - 1
}

// `-`
#[tactic(auto, using(crate::proofs::Turning::negative_reduces, crate::proofs::Turning::negative_is_no_register, crate::proofs::Turning::negative_of_number))]
fn negative(value: &TypedValue) -> TypedValue
    requires row { negates (seen value.now).type ≡ true }
    requires written { is_written (seen value.now).type ≡ true }
    ensures { seen result ≡ typed (seen value.now).type (or_zero (seen value.now).type (apply_unary Negate (seen value.now).type (seen value.now).value)) }
{
    reduced_value(value.operand().ty, -number(value))
}
