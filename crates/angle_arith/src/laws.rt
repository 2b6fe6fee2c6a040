// Laws of fractions in lowest terms. They have no code: each contract is a law.
ghost use Rattle.angle_arith.specs.Fraction.{Fraction, IsLowestTerms, negative_of};
ghost use Rattle.angle_arith.specs.Lowest.{LowestTerms};

/// Each fraction whose denominator is not 0 has one form in lowest terms, if it is in range.
pub fn fractions_have_lowest_terms()
    ensures { LowestTerms }
{}

/// The negative of a fraction in lowest terms is in lowest terms.
pub fn negatives_keep_lowest_terms()
    ensures { (f : Fraction) → IsLowestTerms f → IsLowestTerms (negative_of f) }
{}
