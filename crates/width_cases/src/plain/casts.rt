// Which casts there are, and what they give.

use super::numbers::{modulo, of_bits, two_to};
use crate::typed::Typed;
use qasm_types::Ty;

/// The range of whole constants: from -2^63 to 2^64 - 1.
const LEAST_WHOLE: i128 = -9_223_372_036_854_775_808;

const GREATEST_WHOLE: i128 = 18_446_744_073_709_551_615;

/// Whether there is a cast of the value to the type.
pub fn has_cast(from: Typed, to: Ty) -> bool {
    let is_to_word = matches!(to, Ty::Int(_) | Ty::Uint(_));
    from.ty == to
        || match from.ty {
            Ty::Bool | Ty::Bit => matches!(to, Ty::Bool | Ty::Bit) || is_to_word,
            Ty::Int(n) | Ty::Uint(n) => {
                to == Ty::Bool || is_to_word || to == Ty::Bits(n) || n == 1 && to == Ty::Bit
            }
            Ty::Bits(n) => to == Ty::Bool || is_to_word && n <= 64 || to == Ty::Angle(n),
            Ty::Angle(n) => matches!(to, Ty::Bool | Ty::Angle(_)) || to == Ty::Bits(n),
            Ty::Whole => is_to_word || has_constant_cast(from.number, to),
            Ty::Pi => matches!(to, Ty::Angle(_)),
            Ty::Turn => false,
        }
}

// Whether there is a cast of a whole constant to a type that is no word.
fn has_constant_cast(number: i128, to: Ty) -> bool {
    match to {
        Ty::Bool | Ty::Angle(_) => true,
        Ty::Bit => number == 0 || number == 1,
        Ty::Bits(n) => n <= 64 && 0 <= number && number < two_to(n),
        _ => false,
    }
}

/// A number at a type, modulo 2^n where the type has n bits. A whole constant has its range.
pub fn reduced(ty: Ty, number: i128) -> Option<Typed> {
    let number = match ty {
        Ty::Bool | Ty::Bit => modulo(number, 2),
        Ty::Bits(n) | Ty::Uint(n) | Ty::Angle(n) => of_bits(number, n, false),
        Ty::Int(n) => of_bits(number, n, true),
        Ty::Whole if LEAST_WHOLE <= number && number <= GREATEST_WHOLE => number,
        _ => return None,
    };
    Some(Typed::new(ty, number))
}

/// The count of a part of pi at an angle of n bits, where it is whole: a turn is two pi.
pub fn count_of(part: Typed, width: u32) -> Option<Typed> {
    let doubled = part.den.checked_mul(2)?;
    let parts = part.number.checked_mul(two_to(width))?;
    if doubled == 0 || modulo(parts, doubled) != 0 {
        return None;
    }
    reduced(Ty::Angle(width), parts.checked_div_euclid(doubled)?)
}

// An angle of m bits at n bits: zeros come behind its bits, or its lowest bits go.
fn resized(count: i128, from: u32, to: u32) -> Option<i128> {
    if from <= to {
        count.checked_mul(two_to(to - from))
    } else {
        count.checked_div_euclid(two_to(from - to))
    }
}

/// What a cast gives, where there is one. There is none for a whole constant other than 0 at an angle, and for a part of pi
/// whose count is not whole.
pub fn cast(from: Typed, to: Ty) -> Option<Typed> {
    match (from.ty, to) {
        (Ty::Pi, Ty::Pi) => Some(from),
        (_, Ty::Bool) => Some(Typed::new(to, i128::from(from.number != 0))),
        (Ty::Pi, Ty::Angle(n)) => count_of(from, n),
        (Ty::Whole, Ty::Angle(_)) if from.number != 0 => None,
        (Ty::Angle(m), Ty::Angle(n)) => Some(Typed::new(to, resized(from.number, m, n)?)),
        _ => reduced(to, from.number),
    }
}
