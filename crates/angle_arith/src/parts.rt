// A fraction of pi as a number of parts of a turn.
ghost use Rattle.std.specs.Prelude.{◌≡◌, ◌↔◌, ◌⊎◌, ℕ, ℤ, ◌<◌, ◌≤◌, ◌^◌, pos, ◌≤ℤ◌, unsigned_abs, Err, IsNone, IfOk, IfErr, IfSome};
ghost use Rattle.angle_arith.specs.Fraction.{fraction_of, IsLowestTerms, IsWholeNumber, IsWhole, IsWholeBeyond, IsReducedCount, parts_of};

use crate::fraction::{AngleRefusal, PiFraction};

/// The greatest number of units, in size: 256 turns.
const UNIT_LIMIT: u128 = 1 << 40;

/// The units of 2^-32 turn, never reduced modulo a turn.
///
/// # Errors
///
/// `NotDyadic` exactly where the units are no whole number. Otherwise `TurnRange` exactly where they are
/// over 2^40 in size.
pub fn to_units(a: PiFraction) -> Result<i64, AngleRefusal>
    ensures units { IfOk result (IsWholeNumber (parts_of a 32)) }
    ensures bounded { IfOk result (λ units. unsigned_abs units ≤ 2 ^ 40) }
    ensures not_dyadic { (result ≡ Err AngleRefusal.NotDyadic) ↔ (¬ IsWhole (parts_of a 32)) }
    ensures turn_range { (result ≡ Err AngleRefusal.TurnRange) ↔ IsWholeBeyond (parts_of a 32) (2 ^ 40) }
    ensures refusals { IfErr result (λ e. (e ≡ AngleRefusal.NotDyadic) ⊎ (e ≡ AngleRefusal.TurnRange)) }
{
    let units = whole_parts(a, 32).ok_or(AngleRefusal::NotDyadic)?;
    if units.unsigned_abs() > UNIT_LIMIT {
        return Err(AngleRefusal::TurnRange);
    }
    Ok(units as i64)
}

/// The count of an angle of `width` bits, from 1 to 32: the parts of which a turn has 2^`width`, modulo
/// 2^`width`.
///
/// # Errors
///
/// `NotDyadic` exactly where the parts are no whole number.
pub fn to_angle(a: PiFraction, width: u32) -> Result<u64, AngleRefusal>
    requires least { 1 ≤ width }
    requires greatest { width ≤ 32 }
    ensures count { IfOk result (IsReducedCount (parts_of a width) width) }
    ensures below { IfOk result (λ c. c < 2 ^ width) }
    ensures not_dyadic { (result ≡ Err AngleRefusal.NotDyadic) ↔ (¬ IsWhole (parts_of a width)) }
    ensures refusals { IfErr result (λ e. e ≡ AngleRefusal.NotDyadic) }
{
    let parts = whole_parts(a, width).ok_or(AngleRefusal::NotDyadic)?;
    Ok(parts.rem_euclid(turn(width)) as u64)
}

/// The parts of which a turn has 2^`width`, where they are a whole number.
fn whole_parts(a: PiFraction, width: u32) -> Option<i128>
    requires { width ≤ 32 }
    ensures parts { IfSome result (IsWholeNumber (parts_of a width)) }
    ensures none { IsNone result ↔ (¬ IsWhole (parts_of a width)) }
    ensures lowest { IsLowestTerms a }
{
    exact_quotient(a.num() * turn(width), a.den() * 2)
}

/// The quotient, where it leaves no remainder.
fn exact_quotient(num: i128, den: i128) -> Option<i128>
    requires { pos 1 ≤ℤ den }
    ensures exact { IfSome result (IsWholeNumber (fraction_of num den)) }
    ensures none { IsNone result ↔ (¬ IsWhole (fraction_of num den)) }
{
    if num % den == 0 {
        Some(num / den)
    } else {
        None
    }
}

/// The parts of a turn, 2^`width`.
fn turn(width: u32) -> i128
    requires { width ≤ 32 }
    ensures value { result ≡ pos (2 ^ width) }
    ensures size { unsigned_abs result ≤ 2 ^ 32 }
{
    1i128 << width
}
