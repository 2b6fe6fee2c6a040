//! Exact arithmetic on fractions of pi, and a fraction of pi as parts of a turn.
//!
//! The constant angles of a program are fractions of pi. `PiFraction` holds one in lowest terms, and
//! each call computes as on whole numbers without bound: it gives the exact fraction, number of units
//! or count, or a refusal exactly where its clause says so. No call takes memory.
//!
//! The crate stands on std alone.
//!
//! A contract sees a `PiFraction` as the pair of its two whole numbers, `Fraction` of
//! `specs/Fraction.antt`, where two fractions are the same if their cross products are equal. The layer
//! above uses:
//!
//! - of `angle_add`, `angle_sub`, `angle_mul` and `angle_div`, that an Ok is the exact result (`exact`)
//!   in lowest terms (`lowest`), that `Range` comes exactly where no fraction with numbers of at most
//!   2^62 in size is the result (`range`), `Divide` exactly at the divisor 0 (`divide`), and no other
//!   refusal (`refusals`);
//! - of `angle_neg`, that it is the exact negative (`exact`), which is never out of range;
//! - of `angle_cmp`, that its answer is the order of the two fractions, and of `angle_eq`, that it says whether
//!   they are the same (`same`); fractions in lowest terms are equal exactly where they are the same
//!   (`one_form`, `unique`);
//! - of `to_units` and `to_angle`, that an Ok is the whole number of parts (`units`, `count`), and each
//!   refusal exactly by its cause (`not_dyadic`, `turn_range`, `refusals`);
//! - the law `fractions_have_lowest_terms`: the form in lowest terms as a value that definitions compute with, `in_lowest_terms` of
//!   `specs/Lowest.antt`, is the same fraction and the only one in lowest terms; and that negatives keep lowest terms.
#![tactic(auto)]

mod arithmetic;
mod fraction;
mod laws;
mod parts;
#[cfg(test)]
mod tests;

pub use arithmetic::{angle_add, angle_cmp, angle_div, angle_eq, angle_mul, angle_neg, angle_sub};
pub use fraction::{AngleRefusal, PiFraction};
pub use laws::{fractions_have_lowest_terms, negatives_keep_lowest_terms};
pub use parts::{to_angle, to_units};
