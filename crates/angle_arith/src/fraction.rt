// The type of a fraction of pi, and the one function that brings a quotient of whole numbers to lowest terms.
ghost use Rattle.std.specs.Prelude.{◌≡◌, ◌≢◌, ◌↔◌, ◌⊎◌, ◌≤◌, ◌^◌, pos, neg_ℤ, Err, IfOk, IfErr, if◌then◌else◌};
ghost use Rattle.std.specs.Int.{IsGcd};
ghost use Rattle.angle_arith.specs.Fraction.{fraction_of, IsSameFraction, IsLowestTerms, IsInRange, negative_of};

use std::marker::Model;

/// The greatest size of a numerator or denominator.
const LIMIT: u128 = 1 << 62;

/// Why a call of this crate gives no answer.
#[derive(Clone, Copy, Debug, PartialEq, Eq)]
pub enum AngleRefusal {
    /// The result in lowest terms has a numerator or denominator over 2^62 in size.
    Range,
    /// The divisor is 0.
    Divide,
    /// The angle is no whole number of the units, or of the parts that the width gives a turn.
    NotDyadic,
    /// The angle is over 2^40 units of 2^-32 turn in size.
    TurnRange,
}

/// The angle `num / den * pi`, exactly.
///
/// The fraction stands in lowest terms: `den` is at least 1, neither number is over 2^62 in size, and
/// no number above 1 divides both. So `==` says whether two angles are the same; their order is that of
/// `angle_cmp`.
#[derive(Clone, Copy, Debug, PartialEq, Eq)]
pub struct PiFraction {
    num: i128,
    den: i128,
}

impl Model for PiFraction {
    ghost use Rattle.angle_arith.specs.Fraction.{Fraction, fraction_of, IsLowestTerms};

    ghost Value = { Fraction };

    ghost view = { λ p. fraction_of p.num p.den };

    ghost invariant = { λ p. IsLowestTerms (fraction_of p.num p.den) };

    ghost inverse = { λ f. record { num = f.num; den = f.den } };
}

impl PiFraction {
    /// The angle `num / den * pi`. The two numbers may have common divisors, and `den` may be below 0.
    ///
    /// # Errors
    ///
    /// `Divide` exactly where `den` is 0. Otherwise `Range` exactly where `num / den` in lowest terms has
    /// a number over 2^62 in size.
    pub fn new(num: i128, den: i128) -> Result<Self, AngleRefusal>
        ensures exact { IfOk result (λ f. IsSameFraction f (fraction_of num den)) }
        ensures lowest { IfOk result IsLowestTerms }
        ensures divide { (result ≡ Err AngleRefusal.Divide) ↔ (den ≡ pos 0) }
        ensures range { (result ≡ Err AngleRefusal.Range) ↔ ((den ≢ pos 0) × (¬ IsInRange (fraction_of num den))) }
        ensures refusals { IfErr result (λ e. (e ≡ AngleRefusal.Divide) ⊎ (e ≡ AngleRefusal.Range)) }
    {
        if den == 0 {
            return Err(AngleRefusal::Divide);
        }
        lowest_terms(num, den)
    }

    /// The angle pi.
    pub fn pi() -> Self
        ensures { result ≡ fraction_of (pos 1) (pos 1) }
    {
        PiFraction { num: 1, den: 1 }
    }

    /// A whole turn, twice pi.
    pub fn tau() -> Self
        ensures { result ≡ fraction_of (pos 2) (pos 1) }
    {
        PiFraction { num: 2, den: 1 }
    }

    /// The numerator in lowest terms, at most 2^62 in size.
    pub fn num(self) -> i128
        ensures value { result ≡ self.num }
        ensures lowest { IsLowestTerms self }
    {
        self.num
    }

    /// The denominator in lowest terms, from 1 to 2^62.
    pub fn den(self) -> i128
        ensures value { result ≡ self.den }
        ensures lowest { IsLowestTerms self }
    {
        self.den
    }

    /// The fraction whose numerator has the other sign.
    pub(crate) fn negated(self) -> Self
        ensures exact { result ≡ negative_of self }
        ensures lowest { IsLowestTerms result }
    {
        PiFraction {
            num: -self.num,
            den: self.den,
        }
    }
}

/// `num / den` in lowest terms, or `Range` exactly where they pass 2^62 in size.
pub(crate) fn lowest_terms(num: i128, den: i128) -> Result<PiFraction, AngleRefusal>
    requires { den ≢ pos 0 }
    ensures exact { IfOk result (λ f. IsSameFraction f (fraction_of num den)) }
    ensures lowest { IfOk result IsLowestTerms }
    ensures range { (result ≡ Err AngleRefusal.Range) ↔ (¬ IsInRange (fraction_of num den)) }
    ensures refusals { IfErr result (λ e. e ≡ AngleRefusal.Range) }
{
    let num_size = num.unsigned_abs();
    let den_size = den.unsigned_abs();
    let common = greatest_common_divisor(num_size, den_size);
    let lowest_num = num_size / common;
    let lowest_den = den_size / common;
    if lowest_num > LIMIT || lowest_den > LIMIT {
        return Err(AngleRefusal::Range);
    }
    Ok(PiFraction {
        num: signed(lowest_num, (num < 0) != (den < 0)),
        den: lowest_den as i128,
    })
}

/// The number of that size, below 0 where `negative` is set.
fn signed(size: u128, negative: bool) -> i128
    requires { size ≤ 2 ^ 62 }
    ensures { result ≡ (if negative then neg_ℤ (pos size) else pos size) }
{
    if negative {
        -(size as i128)
    } else {
        size as i128
    }
}

/// The greatest common divisor, by Euclid's algorithm.
fn greatest_common_divisor(a: u128, b: u128) -> u128
    ensures { IsGcd a b result }
{
    let mut greater = a;
    let mut less = b;
    while less != 0 {
        let rest = greater % less;
        greater = less;
        less = rest;
    }
    greater
}
