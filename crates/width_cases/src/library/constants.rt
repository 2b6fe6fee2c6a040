// Constants, and what is seen of them.

use crate::typed::Typed;
use angle_arith::PiFraction;
use const_eval::{AngleCount, BitRegister, Const, WholeNumber};
use qasm_ast::BitText;
use qasm_types::Ty;
use std::alloc::{AllocError, Global};

/// The constant that is the operand, where there is one.
pub fn constant(alloc: Global, typed: Typed) -> Result<Option<Const>, AllocError> {
    Ok(match typed.ty {
        Ty::Whole => whole(typed.number),
        Ty::Pi => part(typed.number, typed.den),
        Ty::Bit => Some(Const::Bool(typed.number != 0)),
        Ty::Bits(width) => bits(alloc, width, typed.number)?,
        Ty::Angle(width) => angle(width, typed.number),
        _ => None,
    })
}

fn whole(number: i128) -> Option<Const> {
    if -(1 << 63) <= number && number < 1 << 64 {
        return Some(Const::Whole(WholeNumber { number }));
    }
    None
}

fn part(number: i128, den: i128) -> Option<Const> {
    Some(Const::Pi(PiFraction::new(number, den).ok()?))
}

// The bits of a number, which are written with the highest first.
fn bits(alloc: Global, width: u32, number: i128) -> Result<Option<Const>, AllocError> {
    let mut items = Vec::new(alloc);
    let mut left = number;
    for _ in 0..width {
        items.push(left.rem_euclid(2) == 1)?;
        left = left.div_euclid(2);
    }
    items.reverse();
    if items.len() > 64 {
        return Ok(None);
    }
    Ok(Some(Const::Bits(BitRegister {
        text: BitText { items },
    })))
}

fn angle(width: u32, number: i128) -> Option<Const> {
    if width < 1 || width > 32 {
        return None;
    }
    let count = u64::try_from(number).ok()?;
    if count >= 1 << width {
        return None;
    }
    Some(Const::Angle(AngleCount { width, count }))
}

/// A constant as an operand.
pub fn seen(value: &Const) -> Typed {
    match value {
        Const::Whole(whole) => Typed::new(Ty::Whole, whole.number),
        Const::Pi(part) => Typed {
            ty: Ty::Pi,
            number: part.num(),
            den: part.den(),
        },
        Const::Bool(truth) => Typed::new(Ty::Bit, i128::from(*truth)),
        Const::Bits(bits) => register(&bits.text.items),
        Const::Angle(angle) => Typed::new(Ty::Angle(angle.width), i128::from(angle.count)),
    }
}

// Bits, the highest first.
fn register(bits: &[bool]) -> Typed {
    let mut number = 0i128;
    let mut width = 0u32;
    for bit in bits {
        number = number.wrapping_mul(2).wrapping_add(i128::from(*bit));
        width = width.wrapping_add(1);
    }
    Typed::new(Ty::Bits(width), number)
}
