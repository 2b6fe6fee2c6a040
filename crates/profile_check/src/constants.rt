//! Divisors and the amounts of shifts.

ghost use Rattle.std.specs.Prelude.{◌≡◌};
ghost use Rattle.qir_module.specs.Passes.{divides, shifts, is_fixed_between, constants_fit, item_constants_fit};

use crate::item::Item;
use crate::walk::Rule;
use qir_module::{Instr, Opcode, Operand};

/// Whether a divisor is fixed and positive.
fn is_divisor(operand: Operand) -> bool
    ensures { result ≡ is_fixed_between 1 0x7fff_ffff_ffff_ffff operand }
{
    match operand {
        Operand::Fixed(value) => value >= 1,
        Operand::Register(_) => false,
    }
}

/// Whether the amount of a shift is fixed and below 64.
fn is_amount(operand: Operand) -> bool
    ensures { result ≡ is_fixed_between 0 63 operand }
{
    match operand {
        Operand::Fixed(value) => value >= 0 && value <= 63,
        Operand::Register(_) => false,
    }
}

/// Divisors are fixed from 1 on, and the amounts of shifts are fixed below 64.
#[derive(Clone, Copy)]
pub(crate) struct ConstantsFit;

impl Rule for ConstantsFit {
    ghost keeps = { λ r b i item. item_constants_fit item };

    fn is_kept(&self, _block: usize, _item: usize, it: Item<'_>) -> bool {
        match it {
            Item::Instr(Instr::Op { op, right, .. }) => match *op {
                Opcode::Sdiv | Opcode::Srem | Opcode::Udiv | Opcode::Urem => is_divisor(*right),
                Opcode::Shl | Opcode::Lshr | Opcode::Ashr => is_amount(*right),
                _ => true,
            },
            _ => true,
        }
    }
}
