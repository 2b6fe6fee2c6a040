// Casts of values.
ghost use Rattle.std.specs.Prelude.{◌≡◌, ◌≤◌, true, length, IfOk, Some};
ghost use Rattle.std.specs.Option.{option_map};
ghost use Rattle.qasm_types.specs.Types.{IsType};
ghost use Rattle.qasm_types.specs.Values.{Register as register, cast};
ghost use Rattle.qasm_types.specs.declared.ty.Ty.TheVariants.{Angle, Bits};
ghost use Rattle.qasm_types.specs.Plans.{casts};
ghost use Rattle.const_eval.specs.Constant.{whole_in};
ghost use Rattle.const_eval.specs.Seen.{constant_of};
ghost use Rattle.const_eval.specs.Values.{cast_to, holds as holds_of, typed, zero_of};
ghost use Rattle.source_values.specs.Seen.{is_written, seen, seen_angle};

use crate::bits::{pattern, resized};
use crate::number::{
    congruent_numbers_reduce_alike, count, is_nonzero, low_number, number, reduced_value,
};
use crate::value::{Register, TypedValue};
use const_eval::{AngleCount, Const, const_cast};
use qasm_types::Ty;
use qq_base::{Fault, NoMemory, Span};
use std::alloc::Global;

/// A value cast to a type that can be written. Where there is no value of the type, as for the whole constant 1 at an angle, the
/// zero of the type stands for it.
pub fn cast_value(alloc: Global, value: &TypedValue, ty: Ty) -> Result<TypedValue, NoMemory>
    requires is_type { IsType ty }
    requires written { is_written ty ≡ true }
    ensures { IfOk result (λ other. seen other ≡ cast_to ty (seen value.now)) }
{
    match cast_if_some(alloc, value, ty)? {
        Some(other) => Ok(other),
        None => zero_value(alloc, ty),
    }
}

/// The zero of a type that can be written.
pub fn zero_value(alloc: Global, ty: Ty) -> Result<TypedValue, NoMemory>
    requires is_type { IsType ty }
    requires written { is_written ty ≡ true }
    ensures { IfOk result (λ value. seen value ≡ typed ty (zero_of ty)) }
{
    match ty {
        Ty::Bool => Ok(TypedValue::Bool(false)),
        Ty::Bits(width) => Ok(TypedValue::Bits(pattern(alloc, 0, width)?)),
        _ => Ok(reduced_value(ty, 0)),
    }
}

/// Whether a value that is taken as a condition holds.
pub fn holds(value: &TypedValue) -> bool
    ensures { result ≡ holds_of (seen value.now) }
{
    is_nonzero(value)
}

/// A value cast to a type that can be written, or None where it has no value of the type.
pub(crate) fn cast_if_some(
    alloc: Global,
    value: &TypedValue,
    ty: Ty,
) -> Result<Option<TypedValue>, NoMemory>
    requires is_type { IsType ty }
    requires written { is_written ty ≡ true }
    ensures { IfOk result (λ other. option_map seen other ≡ option_map (typed ty) (cast (seen value.now).type (seen value.now).value ty)) }
{
    match ty {
        Ty::Bool => Ok(Some(TypedValue::Bool(is_nonzero(value)))),
        Ty::Bits(width) => Ok(Some(TypedValue::Bits(bits_at(alloc, value, width)?))),
        Ty::Angle(width) => match angle_at(alloc, value, width)? {
            Some(angle) => Ok(Some(TypedValue::Angle(angle))),
            None => Ok(None),
        },
        _ => {
            congruent_numbers_reduce_alike();
            Ok(Some(reduced_value(ty, low_number(value))))
        }
    }
}

// A value as a register of bits.
fn bits_at(alloc: Global, value: &TypedValue, width: u32) -> Result<Register, NoMemory>
    ensures bits { IfOk result (λ r. cast (seen value.now).type (seen value.now).value (Bits width) ≡ Some (register r.bits.items)) }
    ensures count { IfOk result (λ r. length r.bits.items ≡ width) }
{
    match value {
        TypedValue::Bits(register) => resized(alloc, &register.bits, width),
        _ => pattern(alloc, number(value), width),
    }
}

// A value as an angle. Angles and constants are cast as constants are.
fn angle_at(alloc: Global, value: &TypedValue, width: u32) -> Result<Option<AngleCount>, NoMemory>
    requires least { 1 ≤ width }
    requires greatest { width ≤ 32 }
    ensures { IfOk result (λ angle. option_map seen_angle angle ≡ option_map (typed (Angle width)) (cast (seen value.now).type (seen value.now).value (Angle width))) }
{
    match value {
        TypedValue::Angle(angle) => constant_angle(alloc, &Const::Angle(*angle), width),
        TypedValue::Whole(whole) => constant_angle(alloc, &Const::Whole(*whole), width),
        TypedValue::Pi(part) => constant_angle(alloc, &Const::Pi(*part), width),
        _ => {
            congruent_numbers_reduce_alike();
            Ok(Some(count(width, low_number(value))))
        }
    }
}

// A constant as an angle.
fn constant_angle(
    alloc: Global,
    constant: &Const,
    width: u32,
) -> Result<Option<AngleCount>, NoMemory>
    requires least { 1 ≤ width }
    requires greatest { width ≤ 32 }
    requires row { casts (constant_of constant.now).type (whole_in (constant_of constant.now)) (Angle width) ≡ true }
    ensures { IfOk result (λ angle. option_map seen_angle angle ≡ option_map (typed (Angle width)) (cast (constant_of constant.now).type (constant_of constant.now).value (Angle width))) }
{
    // no rule stands anywhere, since what is refused has no value
    let nowhere = Span { line: 1, column: 1 };
    match const_cast(alloc, constant, Ty::Angle(width), nowhere) {
        Ok(Const::Angle(angle)) => Ok(Some(angle)),
        Err(Fault::Memory) => Err(NoMemory),
        _ => Ok(None),
    }
}
