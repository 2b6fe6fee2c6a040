// Operators on whole constants, exactly.
ghost use Rattle.std.specs.Prelude.{◌≡◌, ℕ, ◌^◌, ◌<◌, ◌≤◌, ◌*ℤ◌, pos, unsigned_abs};
ghost use Rattle.std.specs.Int.{int_div_euclid};
ghost use Rattle.std.specs.Option.{option_and_then};
ghost use Rattle.qasm_types.specs.Types.{IsWholeConstant};
ghost use Rattle.qasm_types.specs.Values.{power as power_of, result_on_numbers, test_on_numbers, where_amount};
ghost use Rattle.const_eval.specs.Numbered.{in_range as in_range_of};

use qasm_ast::BinaryOp;
use word_arith::{whole_and, whole_or, whole_xor};

/// What an operator gives on whole constants, where it has a value and that is in range.
pub(crate) fn whole_result(op: BinaryOp, left: i128, right: i128) -> Option<i128>
    requires left { IsWholeConstant left }
    requires right { IsWholeConstant right }
    ensures { result ≡ option_and_then in_range_of (result_on_numbers op left right) }
{
    match op {
        BinaryOp::Add => in_range(left + right),
        BinaryOp::Subtract => in_range(left - right),
        BinaryOp::Multiply => product(left, right),
        BinaryOp::Divide if right == 0 => None,
        BinaryOp::Divide => in_range(left / right),
        BinaryOp::Remainder if right == 0 => None,
        BinaryOp::Remainder => in_range(left % right),
        BinaryOp::ShiftLeft => shifted_left(left, right),
        BinaryOp::ShiftRight => in_range(shifted_right(left, right)?),
        BinaryOp::BitAnd => in_range(whole_and(left, right)),
        BinaryOp::BitOr => in_range(whole_or(left, right)),
        BinaryOp::BitXor => in_range(whole_xor(left, right)),
        BinaryOp::Power if right < 0 => None,
        BinaryOp::Power => power(left, right as u64),
        _ => None,
    }
}

/// The number, where it is in the range of whole constants.
pub(crate) fn in_range(number: i128) -> Option<i128>
    ensures { result ≡ in_range_of number }
{
    if number < -(1 << 63) || number >= 1 << 64 {
        None
    } else {
        Some(number)
    }
}

// The product, where it is in range.
fn product(left: i128, right: i128) -> Option<i128>
    ensures { result ≡ in_range_of (left *ℤ right) }
{
    in_range(left.checked_mul(right)?)
}

// The number times 2^amount, where the amount is not below 0 and the product is in range. A number other than 0 that is
// shifted by 64 or more is out of range.
fn shifted_left(number: i128, amount: i128) -> Option<i128>
    requires { IsWholeConstant number }
    ensures { result ≡ option_and_then in_range_of (where_amount amount (number *ℤ pos (2 ^ unsigned_abs amount))) }
{
    if amount < 0 {
        None
    } else if number == 0 {
        Some(0)
    } else if amount >= 64 {
        None
    } else {
        product(number, power_of_two(amount as u32))
    }
}

/// The number divided by 2^amount and rounded down, where the amount is not below 0. A shift by 64 or more leaves what one
/// by 64 leaves.
pub(crate) fn shifted_right(number: i128, amount: i128) -> Option<i128>
    requires { IsWholeConstant number }
    ensures { result ≡ where_amount amount (int_div_euclid number (pos (2 ^ unsigned_abs amount))) }
{
    if amount < 0 {
        None
    } else if amount < 64 {
        Some(number.div_euclid(power_of_two(amount as u32)))
    } else {
        Some(number.div_euclid(power_of_two(64)))
    }
}

/// 2^amount.
pub(crate) fn power_of_two(amount: u32) -> i128
    requires { amount ≤ 64 }
    ensures { result ≡ pos (2 ^ amount) }
{
    1i128 << amount
}

// The power, where it is in range: by squaring, and no further than to the first number that is out of range.
fn power(base: i128, exponent: u64) -> Option<i128>
    requires { IsWholeConstant base }
    ensures { result ≡ in_range_of (power_of base exponent) }
{
    if exponent == 0 {
        Some(1)
    } else if exponent % 2 == 0 {
        power(product(base, base)?, exponent / 2)
    } else {
        product(base, power(base, exponent - 1)?)
    }
}

/// What a comparison, `&&` or `||` says of two whole numbers; of truth values the numbers are 0 and 1.
pub(crate) fn test_result(op: BinaryOp, left: i128, right: i128) -> Option<bool>
    ensures { result ≡ test_on_numbers op left right }
{
    match op {
        BinaryOp::Equal => Some(left == right),
        BinaryOp::NotEqual => Some(left != right),
        BinaryOp::Less => Some(left < right),
        BinaryOp::LessEqual => Some(left <= right),
        BinaryOp::Greater => Some(left > right),
        BinaryOp::GreaterEqual => Some(left >= right),
        BinaryOp::And => Some(left == 1 && right == 1),
        BinaryOp::Or => Some(left == 1 || right == 1),
        _ => None,
    }
}
