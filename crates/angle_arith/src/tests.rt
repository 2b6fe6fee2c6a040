//! The expected values were worked out with the class `Fraction` of Python's module `fractions`, by a script that shares nothing
//! with this crate: the sum, difference, product or quotient, refused where its numerator or denominator is over 2^62 in size,
//! and half the fraction times 2^width for the parts of a turn.
use super::*;
use std::cmp::Ordering;
use std::test::Fail;

type Pair = (i128, i128);

type Answer = Result<Pair, AngleRefusal>;

const TOP: i128 = 1 << 62;

// numerator, denominator, the fraction
const MADE: [(i128, i128, Answer); 16] = [
    (1, 1, Ok((1, 1))),
    (6, -4, Ok((-3, 2))),
    (-6, -4, Ok((3, 2))),
    (0, -5, Ok((0, 1))),
    (TOP, 1, Ok((TOP, 1))),
    (TOP + 1, 1, Err(AngleRefusal::Range)),
    (1, TOP, Ok((1, TOP))),
    (-1, TOP + 1, Err(AngleRefusal::Range)),
    (1 << 63, 2, Ok((TOP, 1))),
    (-(1 << 63), 6, Ok((-TOP, 3))),
    (i128::MIN, i128::MIN, Ok((1, 1))),
    (i128::MIN, 1, Err(AngleRefusal::Range)),
    (i128::MIN, 1 << 65, Ok((-TOP, 1))),
    (1, i128::MIN, Err(AngleRefusal::Range)),
    (3, 0, Err(AngleRefusal::Divide)),
    (0, 0, Err(AngleRefusal::Divide)),
];

// two fractions, their sum, their difference and their order
const SUMS: [(Pair, Pair, Answer, Answer, Ordering); 13] = [
    ((1, 2), (1, 3), Ok((5, 6)), Ok((1, 6)), Ordering::Greater),
    ((1, 6), (1, 3), Ok((1, 2)), Ok((-1, 6)), Ordering::Less),
    ((-1, 2), (1, 2), Ok((0, 1)), Ok((-1, 1)), Ordering::Less),
    (
        (TOP, 1),
        (1, 1),
        Err(AngleRefusal::Range),
        Ok((TOP - 1, 1)),
        Ordering::Greater,
    ),
    (
        (TOP, 1),
        (-1, 1),
        Ok((TOP - 1, 1)),
        Err(AngleRefusal::Range),
        Ordering::Greater,
    ),
    (
        (-TOP, 1),
        (1, 1),
        Ok((1 - TOP, 1)),
        Err(AngleRefusal::Range),
        Ordering::Less,
    ),
    (
        (1, TOP),
        (1, TOP),
        Ok((1, 1 << 61)),
        Ok((0, 1)),
        Ordering::Equal,
    ),
    (
        (1, TOP),
        (-1, TOP),
        Ok((0, 1)),
        Ok((1, 1 << 61)),
        Ordering::Greater,
    ),
    (
        (1, TOP),
        (1, TOP - 1),
        Err(AngleRefusal::Range),
        Err(AngleRefusal::Range),
        Ordering::Less,
    ),
    (
        (TOP - 1, TOP),
        (1, TOP),
        Ok((1, 1)),
        Ok(((1 << 61) - 1, 1 << 61)),
        Ordering::Greater,
    ),
    (
        (TOP, TOP - 1),
        (-1, TOP - 1),
        Ok((1, 1)),
        Err(AngleRefusal::Range),
        Ordering::Greater,
    ),
    (
        (3, TOP),
        (1, TOP),
        Ok((1, 1 << 60)),
        Ok((1, 1 << 61)),
        Ordering::Greater,
    ),
    (
        (0, 1),
        (-TOP, 1),
        Ok((-TOP, 1)),
        Ok((TOP, 1)),
        Ordering::Greater,
    ),
];

// a fraction, a whole number, their product and their quotient
const PRODUCTS: [(i128, i128, i128, Answer, Answer); 15] = [
    (1, 3, -6, Ok((-2, 1)), Ok((-1, 18))),
    (1, 1, -2, Ok((-2, 1)), Ok((-1, 2))),
    (3, 4, 6, Ok((9, 2)), Ok((1, 8))),
    (-3, 4, -6, Ok((9, 2)), Ok((1, 8))),
    (5, 7, 0, Ok((0, 1)), Err(AngleRefusal::Divide)),
    (0, 1, 0, Ok((0, 1)), Err(AngleRefusal::Divide)),
    (0, 1, -5, Ok((0, 1)), Ok((0, 1))),
    (TOP, 1, 1 << 64, Err(AngleRefusal::Range), Ok((1, 4))),
    (1, TOP, 1 << 64, Ok((4, 1)), Err(AngleRefusal::Range)),
    (-TOP, 1, -(1 << 64), Err(AngleRefusal::Range), Ok((1, 4))),
    (TOP, 1, 2, Err(AngleRefusal::Range), Ok((1 << 61, 1))),
    (1, TOP, 2, Ok((1, 1 << 61)), Err(AngleRefusal::Range)),
    (TOP - 1, TOP, -1, Ok((1 - TOP, TOP)), Ok((1 - TOP, TOP))),
    (TOP, 3, 3, Ok((TOP, 1)), Ok((TOP, 9))),
    (1, 3, -TOP, Ok((-TOP, 3)), Err(AngleRefusal::Range)),
];

// a fraction and its units
const UNITS: [(i128, i128, Result<i64, AngleRefusal>); 15] = [
    (512, 1, Ok(1 << 40)),
    (-512, 1, Ok(-(1 << 40))),
    (513, 1, Err(AngleRefusal::TurnRange)),
    (-513, 1, Err(AngleRefusal::TurnRange)),
    (1, 3, Err(AngleRefusal::NotDyadic)),
    (1, 1, Ok(1 << 31)),
    (-1, 2, Ok(-1073741824)),
    (1, 1 << 31, Ok(1)),
    (1, TOP, Err(AngleRefusal::NotDyadic)),
    (TOP, 1, Err(AngleRefusal::TurnRange)),
    (TOP, 3, Err(AngleRefusal::NotDyadic)),
    ((1 << 40) + 1, 1 << 31, Err(AngleRefusal::TurnRange)),
    ((1 << 40) - 1, 1 << 31, Ok((1 << 40) - 1)),
    (0, 1, Ok(0)),
    (7, 5, Err(AngleRefusal::NotDyadic)),
];

// a fraction, a width and the count
const COUNTS: [(i128, i128, u32, Result<u64, AngleRefusal>); 16] = [
    (-1, 2, 4, Ok(12)),
    (1, 1, 1, Ok(1)),
    (2, 1, 1, Ok(0)),
    (1, 2, 1, Err(AngleRefusal::NotDyadic)),
    (-1, 1, 1, Ok(1)),
    (-1, 1 << 31, 32, Ok(4294967295)),
    (3, 1 << 31, 32, Ok(3)),
    (1, 1 << 31, 31, Err(AngleRefusal::NotDyadic)),
    (TOP, 1, 32, Ok(0)),
    (-TOP, 1, 2, Ok(0)),
    (-5, 4, 3, Ok(3)),
    (1, 3, 8, Err(AngleRefusal::NotDyadic)),
    (7, 2, 8, Ok(192)),
    (TOP - 1, 1 << 31, 32, Ok(4294967295)),
    (1 - TOP, 1 << 31, 32, Ok(1)),
    (1, TOP, 32, Err(AngleRefusal::NotDyadic)),
];

fn fraction(pair: Pair) -> Result<PiFraction, Fail> {
    Ok(PiFraction::new(pair.0, pair.1)?)
}

fn numbers(outcome: Result<PiFraction, AngleRefusal>) -> Answer {
    let fraction = outcome?;
    Ok((fraction.num(), fraction.den()))
}

#[test]
fn makes(rt: HostRuntime) {
    for (num, den, want) in MADE {
        assert_eq!(rt; numbers(PiFraction::new(num, den)), want, "{num} / {den}");
    }
    assert_eq!(rt; numbers(Ok(PiFraction::pi())), Ok((1, 1)));
    assert_eq!(rt; numbers(Ok(PiFraction::tau())), Ok((2, 1)));
}

#[test]
fn adds_and_compares(rt: HostRuntime) -> Result<(), Fail> {
    for (first, second, sum, difference, order) in SUMS {
        let a = fraction(first)?;
        let b = fraction(second)?;
        assert_eq!(rt; numbers(angle_add(a, b)), sum, "{a:?} + {b:?}");
        assert_eq!(rt; numbers(angle_sub(a, b)), difference, "{a:?} - {b:?}");
        assert_eq!(rt; angle_cmp(a, b), order, "{a:?} and {b:?}");
    }
    Ok(())
}

#[test]
fn multiplies_and_divides(rt: HostRuntime) -> Result<(), Fail> {
    for (num, den, k, product, quotient) in PRODUCTS {
        let a = fraction((num, den))?;
        assert!(rt; k.unsigned_abs() <= 1 << 64);
        assert_eq!(rt; numbers(angle_mul(a, k)), product, "{a:?} * {k}");
        assert_eq!(rt; numbers(angle_div(a, k)), quotient, "{a:?} / {k}");
    }
    Ok(())
}

#[test]
fn counts_parts(rt: HostRuntime) -> Result<(), Fail> {
    for (num, den, want) in UNITS {
        assert_eq!(rt; to_units(fraction((num, den))?), want, "{num} / {den}");
    }
    for (num, den, width, want) in COUNTS {
        assert!(rt; 1 <= width && width <= 32);
        assert_eq!(rt;
            to_angle(fraction((num, den))?, width),
            want,
            "{num} / {den} at {width}"
        );
    }
    Ok(())
}

#[test]
fn turns_round(rt: HostRuntime) -> Result<(), Fail> {
    let quarter = fraction((1, 4))?;
    assert_eq!(rt; numbers(Ok(angle_neg(quarter))), Ok((-1, 4)));
    assert_eq!(rt; numbers(Ok(angle_neg(fraction((-TOP, 3))?))), Ok((TOP, 3)));
    assert!(rt; angle_eq(quarter, fraction((-2, -8))?));
    assert!(rt; !angle_eq(quarter, fraction((9, 4))?));
    Ok(())
}
