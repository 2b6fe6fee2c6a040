// Constants as values.
ghost use Rattle.std.specs.Prelude.{◌≡◌, reverse};
ghost use Rattle.const_eval.specs.Seen.{constant_of};
ghost use Rattle.source_values.specs.Seen.{seen};

use crate::value::{Register, TypedValue};
use const_eval::{BitRegister, Const};

/// The value that a constant is. A constant truth value is a `bit`.
pub fn value_of_constant(constant: Const) -> TypedValue
    ensures { seen result ≡ constant_of constant }
{
    match constant {
        Const::Whole(number) => TypedValue::Whole(number),
        Const::Pi(part) => TypedValue::Pi(part),
        Const::Bool(truth) => TypedValue::Bit(truth),
        Const::Bits(bits) => TypedValue::Bits(register(bits)),
        Const::Angle(angle) => TypedValue::Angle(angle),
    }
}

// The bits of a constant, of which the rightmost that is written has index 0.
fn register(constant: BitRegister) -> Register
    ensures { result.bits.items ≡ reverse constant.text }
{
    let mut bits = constant.text.items;
    bits.reverse();
    Register { bits }
}
