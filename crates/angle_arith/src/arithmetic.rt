// Sums, differences, products, quotients and the order of fractions of pi.
ghost use Rattle.std.specs.Prelude.{◌≡◌, ◌≢◌, ◌↔◌, ◌⊎◌, ◌≤◌, ◌^◌, pos, ◌*ℤ◌, unsigned_abs, IsTrue, Err, IfOk, IfErr};
ghost use Rattle.angle_arith.specs.Fraction.{Fraction, IsSameFraction, IsBelow, IsLowestTerms, IsInRange, negative_of, sum_of, difference_of, product_of, quotient_of};

use crate::fraction::{AngleRefusal, PiFraction, lowest_terms};
use std::cmp::Ordering;

/// The exact sum.
///
/// # Errors
///
/// `Range` exactly where the sum in lowest terms has a number over 2^62 in size.
pub fn angle_add(a: PiFraction, b: PiFraction) -> Result<PiFraction, AngleRefusal>
    ensures exact { IfOk result (λ f. IsSameFraction f (sum_of a b)) }
    ensures lowest { IfOk result IsLowestTerms }
    ensures range { (result ≡ Err AngleRefusal.Range) ↔ (¬ IsInRange (sum_of a b)) }
    ensures refusals { IfErr result (λ e. e ≡ AngleRefusal.Range) }
{
    lowest_terms(cross(a, b) + cross(b, a), common_den(a, b))
}

/// The exact difference, `a` less `b`.
///
/// # Errors
///
/// `Range` exactly where the difference in lowest terms has a number over 2^62 in size.
pub fn angle_sub(a: PiFraction, b: PiFraction) -> Result<PiFraction, AngleRefusal>
    ensures exact { IfOk result (λ f. IsSameFraction f (difference_of a b)) }
    ensures lowest { IfOk result IsLowestTerms }
    ensures range { (result ≡ Err AngleRefusal.Range) ↔ (¬ IsInRange (difference_of a b)) }
    ensures refusals { IfErr result (λ e. e ≡ AngleRefusal.Range) }
{
    lowest_terms(cross(a, b) - cross(b, a), common_den(a, b))
}

/// The exact product by a whole number of at most 2^64 in size.
///
/// # Errors
///
/// `Range` exactly where the product in lowest terms has a number over 2^62 in size.
pub fn angle_mul(a: PiFraction, k: i128) -> Result<PiFraction, AngleRefusal>
    requires { unsigned_abs k ≤ 2 ^ 64 }
    ensures exact { IfOk result (λ f. IsSameFraction f (product_of a k)) }
    ensures lowest { IfOk result IsLowestTerms }
    ensures range { (result ≡ Err AngleRefusal.Range) ↔ (¬ IsInRange (product_of a k)) }
    ensures refusals { IfErr result (λ e. e ≡ AngleRefusal.Range) }
{
    lowest_terms(a.num() * k, a.den())
}

/// The exact quotient by a whole number of at most 2^64 in size.
///
/// # Errors
///
/// `Divide` exactly where `k` is 0. Otherwise `Range` exactly where the quotient in lowest terms has a
/// number over 2^62 in size.
pub fn angle_div(a: PiFraction, k: i128) -> Result<PiFraction, AngleRefusal>
    requires { unsigned_abs k ≤ 2 ^ 64 }
    ensures exact { IfOk result (λ f. IsSameFraction f (quotient_of a k)) }
    ensures lowest { IfOk result IsLowestTerms }
    ensures divide { (result ≡ Err AngleRefusal.Divide) ↔ (k ≡ pos 0) }
    ensures range { (result ≡ Err AngleRefusal.Range) ↔ ((k ≢ pos 0) × (¬ IsInRange (quotient_of a k))) }
    ensures refusals { IfErr result (λ e. (e ≡ AngleRefusal.Divide) ⊎ (e ≡ AngleRefusal.Range)) }
{
    PiFraction::new(a.num(), a.den() * k)
}

/// The angle turned the other way: its numerator with the other sign. It has lowest terms too, so nothing is refused.
pub fn angle_neg(a: PiFraction) -> PiFraction
    ensures exact { result ≡ negative_of a }
    ensures lowest { IsLowestTerms result }
{
    a.negated()
}

/// Whether two angles are the same, which are never reduced modulo a turn. A fraction has one form in lowest terms, so
/// this is `==`.
pub fn angle_eq(a: PiFraction, b: PiFraction) -> bool
    ensures same { IsTrue result ↔ IsSameFraction a b }
    ensures one_form { (f g : Fraction) → IsLowestTerms f → IsLowestTerms g → (f ≡ g) ↔ IsSameFraction f g }
{
    angle_cmp(a, b) == Ordering::Equal
}

/// The exact order of two angles, which are never reduced modulo a turn.
pub fn angle_cmp(a: PiFraction, b: PiFraction) -> Ordering
    ensures less { (result ≡ Ordering.Less) ↔ IsBelow a b }
    ensures equal { (result ≡ Ordering.Equal) ↔ IsSameFraction a b }
    ensures greater { (result ≡ Ordering.Greater) ↔ IsBelow b a }
    ensures unique { IsSameFraction a b → a ≡ b }
{
    cross(a, b).cmp(&cross(b, a))
}

/// The numerator of `a` over the product of the two denominators.
fn cross(a: PiFraction, b: PiFraction) -> i128
    ensures value { result ≡ a.num *ℤ b.den }
    ensures size { unsigned_abs result ≤ 2 ^ 124 }
    ensures lowest { IsLowestTerms a × IsLowestTerms b }
{
    a.num() * b.den()
}

/// The product of the two denominators.
fn common_den(a: PiFraction, b: PiFraction) -> i128
    ensures value { result ≡ a.den *ℤ b.den }
    ensures nonzero { result ≢ pos 0 }
{
    a.den() * b.den()
}
