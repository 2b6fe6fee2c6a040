// Whole numbers: powers of two by doubling, bits by halving, powers and common divisors by trying.

use qasm_ast::BinaryOp;
use qasm_types::Ty;

/// 2 to a power of at most 100.
pub fn two_to(power: u32) -> i128 {
    let mut number = 1i128;
    for _ in 0..power.min(100) {
        number = number.wrapping_mul(2);
    }
    number
}

/// What is left of a number where a whole multiple is taken away: from 0 below the modulus.
pub fn modulo(number: i128, modulus: i128) -> i128 {
    number.checked_rem_euclid(modulus).unwrap_or(0)
}

/// Half of a number, rounded down.
fn half(number: i128) -> i128 {
    number.div_euclid(2)
}

/// A number of n bits, of which the highest counts below 0 where there is a sign.
pub fn of_bits(number: i128, width: u32, signed: bool) -> i128 {
    let all = two_to(width);
    let rest = modulo(number, all);
    if signed && rest >= half(all) {
        rest.wrapping_sub(all)
    } else {
        rest
    }
}

/// Whether the number is a value of the word.
pub fn is_value(number: i128, word: Ty) -> bool {
    match word {
        Ty::Int(n) => of_bits(number, n, true) == number,
        Ty::Uint(n) => of_bits(number, n, false) == number,
        _ => false,
    }
}

/// The quotient without its fraction.
fn quotient(left: i128, right: i128) -> Option<i128> {
    let size = left.checked_abs()?.checked_div(right.checked_abs()?)?;
    Some(if (left < 0) == (right < 0) {
        size
    } else {
        size.wrapping_neg()
    })
}

/// What the quotient leaves.
pub fn rest(left: i128, right: i128) -> Option<i128> {
    left.checked_sub(quotient(left, right)?.checked_mul(right)?)
}

/// The product of so many factors, where it stays below 2^100 in size.
fn power(base: i128, exponent: i128) -> Option<i128> {
    if exponent < 0 {
        return None;
    }
    let bound = two_to(100);
    let mut product = 1i128;
    for _ in 0..exponent {
        product = product.checked_mul(base)?;
        if product.checked_abs()? >= bound {
            return None;
        }
    }
    Some(product)
}

/// The number moved by so many bits.
fn shifted(op: BinaryOp, number: i128, amount: i128) -> Option<i128> {
    if amount < 0 {
        return None;
    }
    let mut moved = number;
    for _ in 0..amount {
        moved = if op == BinaryOp::ShiftLeft {
            moved.checked_mul(2)?
        } else {
            half(moved)
        };
    }
    Some(moved)
}

fn bit(op: BinaryOp, left: bool, right: bool) -> bool {
    match op {
        BinaryOp::BitAnd => left && right,
        BinaryOp::BitOr => left || right,
        _ => left != right,
    }
}

/// Whether all bits are alike.
fn is_sign_alone(number: i128) -> bool {
    number == 0 || number == -1
}

/// The bits of two numbers below 2^100 in two's complement, one by one, and behind them those of the signs.
fn bits(op: BinaryOp, left: i128, right: i128) -> i128 {
    let mut rests = (left, right);
    let mut value = 1i128;
    let mut sum = 0i128;
    for _ in 0..100 {
        if is_sign_alone(rests.0) && is_sign_alone(rests.1) {
            break;
        }
        if bit(op, modulo(rests.0, 2) == 1, modulo(rests.1, 2) == 1) {
            sum = sum.wrapping_add(value);
        }
        rests = (half(rests.0), half(rests.1));
        value = value.wrapping_mul(2);
    }
    if bit(op, rests.0 < 0, rests.1 < 0) {
        sum = sum.wrapping_sub(value);
    }
    sum
}

/// What an operator gives on two whole numbers. There is none at a divisor 0, and at an amount or an exponent below 0.
pub fn computed(op: BinaryOp, left: i128, right: i128) -> Option<i128> {
    match op {
        BinaryOp::Add => left.checked_add(right),
        BinaryOp::Subtract => left.checked_sub(right),
        BinaryOp::Multiply => left.checked_mul(right),
        BinaryOp::Divide => quotient(left, right),
        BinaryOp::Remainder => rest(left, right),
        BinaryOp::ShiftLeft | BinaryOp::ShiftRight => shifted(op, left, right),
        BinaryOp::BitAnd | BinaryOp::BitOr | BinaryOp::BitXor => Some(bits(op, left, right)),
        BinaryOp::Power => power(left, right),
        _ => None,
    }
}

/// What a comparison says of two whole numbers.
pub fn compared(op: BinaryOp, left: i128, right: i128) -> bool {
    match op {
        BinaryOp::Equal => left == right,
        BinaryOp::NotEqual => left != right,
        BinaryOp::Less => left < right,
        BinaryOp::LessEqual => left < right || left == right,
        BinaryOp::Greater => right < left,
        BinaryOp::GreaterEqual => right < left || left == right,
        _ => false,
    }
}

/// A fraction in lowest terms with a denominator above 0: the greatest common divisor is the last one of all that are tried.
pub fn lowest(number: i128, den: i128) -> Option<(i128, i128)> {
    let (number, den) = if den < 0 {
        (number.checked_neg()?, den.checked_neg()?)
    } else {
        (number, den)
    };
    let mut common = 1;
    for divisor in 2..=den {
        if modulo(number, divisor) == 0 && modulo(den, divisor) == 0 {
            common = divisor;
        }
    }
    Some((number.checked_div(common)?, den.checked_div(common)?))
}
