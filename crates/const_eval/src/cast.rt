// Casts of constants.
ghost use Rattle.std.specs.Prelude.{◌≡◌, ◌≤◌, true, pos, reverse, length, IfOk, Some};
ghost use Rattle.qasm_types.specs.Types.{IsType};
ghost use Rattle.qasm_types.specs.Plans.{casts};
ghost use Rattle.qasm_types.specs.Values.{bits_of, cast, Register};
ghost use Rattle.qasm_types.specs.declared.ty.Ty.TheVariants.{Bits};
ghost use Rattle.const_eval.specs.Constant.{whole_in};
ghost use Rattle.const_eval.specs.Answers.{Answers};
ghost use Rattle.const_eval.specs.ConstCast.{cast_of_constant};
ghost use Rattle.const_eval.specs.Seen.{constant_of};

use crate::constant::{BitRegister, Const};
use crate::number::{constant_at, number_at};
use crate::refusing::refused;
use qasm_ast::BitText;
use qasm_types::{Ty, cast_of};
use qq_base::{Fault, NoMemory, Rule, Span};
use std::alloc::Global;

/// The constant at a type, by the table of casts: `NoCast`, `NotPiMultiple` or `NotDyadic` at the place where it has none.
pub fn const_cast(alloc: Global, value: &Const, to: Ty, at: Span) -> Result<Const, Fault>
    requires { IsType to }
    ensures { Answers constant_of result (cast_of_constant (constant_of value.now) to at) }
{
    if !cast_of(value.operand(), to) {
        return Err(refused(Rule::NoCast, at));
    }
    match to {
        Ty::Bits(width) => Ok(Const::Bits(bits_at(alloc, value, width)?)),
        Ty::Pi | Ty::Turn => match value {
            Const::Pi(part) => Ok(Const::Pi(*part)),
            _ => Err(refused(Rule::NoCast, at)),
        },
        _ => match number_at(value, to) {
            Some(number) => Ok(constant_at(to, number)),
            None => Err(refused(value.no_value(), at)),
        },
    }
}

/// A constant as a register of bits.
pub(crate) fn bits_at(alloc: Global, value: &Const, width: u32) -> Result<BitRegister, NoMemory>
    requires { casts (constant_of value.now).type (whole_in (constant_of value.now)) (Bits width) ≡ true }
    ensures bits { IfOk result (λ bits. cast (constant_of value.now).type (constant_of value.now).value (Bits width) ≡ Some (Register (reverse bits.text))) }
    ensures count { IfOk result (λ bits. length (reverse bits.text) ≡ width) }
{
    match value {
        Const::Bits(bits) => bits.copied(alloc),
        Const::Whole(number) => pattern(alloc, number.number as u64, width),
        Const::Angle(angle) => pattern(alloc, angle.count, width),
        Const::Bool(_) | Const::Pi(_) => pattern(alloc, 0, width),
    }
}

// The lowest bits of a number.
fn pattern(alloc: Global, number: u64, width: u32) -> Result<BitRegister, NoMemory>
    requires { width ≤ 64 }
    ensures bits { IfOk result (λ bits. reverse bits.text ≡ bits_of width (pos number)) }
    ensures count { IfOk result (λ bits. length (reverse bits.text) ≡ width) }
{
    let mut bits = Vec::new(alloc);
    for passed in 0..width {
        bits.push(number >> (width - 1 - passed) & 1 == 1)?;
    }
    Ok(BitRegister {
        text: BitText { items: bits },
    })
}
