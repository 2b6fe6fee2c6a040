//! Whole numbers, decimals, versions and hardware qubits.

ghost use Rattle.std.specs.Prelude.{◌≡◌, ℕ, ◌^◌, ◌<◌, ◌≤◌, ◌↔◌, true, false, List, [], ◌∷◌, ◌==◌, Bool, length, count_by, IsTrue, MatchOption, SomeIff};
ghost use Rattle.std.specs.Str.{chars};
ghost use Rattle.qasm_lexer.specs.Characters.{is_digit_in};
ghost use Rattle.qasm_lexer.specs.Scan.{Cuts, StopsAt, SkipsPassing, SkipsSome, SkipsDigits, IsStep, begins_step, BeginsExponent, SkipsExponent, SkipsSign, BaseLetter, NoBaseLetter, SkipsBased, NoBased, Finds};
ghost use Rattle.qasm_lexer.specs.Spelling.{is_numeral, digits_of_numeral, numeral_value};

use crate::scan::{Class, front_of, skip_char, skip_passing, split_first};
use crate::token::TokenKind;
use qq_base::Rule;

/// The most bits of a bit string.
const MOST_BITS: usize = 4096;

/// What stands behind a digit, or behind a `_` and a digit, where the text begins so.
fn skip_step(text: &str, base: u32) -> Option<&str>
    requires low { 2 ≤ base }
    requires high { base ≤ 16 }
    ensures { MatchOption result (begins_step base (chars text.now) ≡ false)
        (λ behind. (front : List ℕ) × Cuts text.now front behind.now × IsStep base front) }
{
    let (first, behind) = split_first(text)?;
    if first.is_digit(base) {
        return Some(behind);
    }
    if first != '_' {
        return None;
    }
    let (second, behind) = split_first(behind)?;
    if second.is_digit(base) {
        Some(behind)
    } else {
        None
    }
}

/// What stands behind the longest front of the text that may stand behind a digit of a number.
fn skip_digits(text: &str, base: u32) -> &str
    requires low { 2 ≤ base }
    requires high { base ≤ 16 }
    ensures { SkipsDigits base text.now result.now }
{
    let mut rest = text;
    while let Some(behind) = skip_step(rest, base) {
        rest = behind;
    }
    rest
}

/// The value of the digits in the text, where it is below 2^64.
fn value_of(text: &str, base: u32) -> Option<u64>
    requires low { 2 ≤ base }
    requires high { base ≤ 16 }
    ensures { let value = numeral_value base (chars text.now) in SomeIff result (value < 2 ^ 64) value }
{
    let mut value: u64 = 0;
    let mut rest = text;
    while let Some((first, behind)) = split_first(rest) {
        if let Some(digit) = first.to_digit(base) {
            value = value.checked_mul(u64::from(base))?;
            value = value.checked_add(u64::from(digit))?;
        }
        rest = behind;
    }
    Some(value)
}

/// The value of the decimal digits in the text, where it is below 2^32.
fn small_value_of(text: &str) -> Option<u32>
    ensures { let value = numeral_value 10 (chars text.now) in SomeIff result (value < 2 ^ 32) value }
{
    let value = value_of(text, 10)?;
    u32::try_from(value).ok()
}

/// Whether the text is a bit string of too many bits, between its quotes.
pub(crate) fn has_too_many_bits(text: &str) -> bool
    ensures { IsTrue result ↔ (IsTrue (is_numeral 2 (chars text.now)) × (4096 < length (digits_of_numeral 2 (chars text.now)))) }
{
    is_bit_string(text) && bit_count(text) > MOST_BITS
}

/// Whether the text is a bit string, between its quotes.
fn is_bit_string(text: &str) -> bool
    ensures { result ≡ is_numeral 2 (chars text.now) }
{
    let Some((first, behind)) = split_first(text) else {
        return false;
    };
    first.is_digit(2) && skip_digits(behind, 2).is_empty()
}

/// How many digits 0 and 1 stand in the text.
fn bit_count(text: &str) -> usize
    ensures { result ≡ count_by (is_digit_in 2) (chars text.now) }
{
    text.chars().filter(|c| c.is_digit(2)).count()
}

/// What stands behind an exponent, where the text begins with one.
fn skip_exponent(text: &str) -> Option<&str>
    ensures { MatchOption result (¬ (BeginsExponent (chars text.now)))
        (λ behind. SkipsExponent text.now behind.now) }
{
    let (letter, behind) = split_first(text)?;
    if letter != 'e' && letter != 'E' {
        return None;
    }
    let digits = skip_sign(behind);
    let end = skip_passing(digits, Class::Digit);
    if end.len() == digits.len() {
        return None;
    }
    Some(end)
}

/// What stands behind a sign, or the text where none does.
fn skip_sign(text: &str) -> &str
    ensures { SkipsSign text.now result.now }
{
    if let Some(behind) = skip_char(text, '+') {
        return behind;
    }
    if let Some(behind) = skip_char(text, '-') {
        return behind;
    }
    text
}

/// The base that is written with this letter behind a 0.
fn base_of(letter: char) -> Option<u32>
    ensures { MatchOption result (NoBaseLetter letter) (BaseLetter letter) }
{
    match letter {
        'b' | 'B' => Some(2),
        'o' => Some(8),
        'x' | 'X' => Some(16),
        _ => None,
    }
}

/// A whole number that names its base: the base, its digits, and what stands behind them.
fn skip_based(text: &str) -> Option<(u32, &str, &str)>
    ensures { MatchOption result (NoBased (chars text.now))
        (λ found. SkipsBased text.now found.0 found.1.now found.2.now) }
{
    let (zero, mark) = split_first(text)?;
    let (letter, digits) = split_first(mark)?;
    let base = base_of(letter)?;
    let (digit, behind) = split_first(digits)?;
    if zero != '0' || !digit.is_digit(base) {
        return None;
    }
    Some((base, digits, skip_digits(behind, base)))
}

/// The token at a digit.
pub(crate) fn number<'a>(
    text: &'a str,
    behind_first: &'a str,
    version: bool,
) -> Result<(TokenKind, &'a str), Rule>
    requires { (digit : ℕ) × IsTrue (is_digit_in 10 digit) × Cuts text.now (digit ∷ []) behind_first.now }
    ensures { Finds version text.now result }
{
    let point = skip_passing(text, Class::Digit);
    if let Some(fraction) = skip_char(point, '.') {
        return pointed(text, point, fraction, version);
    }
    if skip_exponent(point).is_some() {
        return Err(Rule::FloatLiteral);
    }
    whole(text, behind_first, point, version)
}

/// The token at decimal digits, or none, with a point behind them.
pub(crate) fn pointed<'a>(
    text: &'a str,
    point: &'a str,
    fraction: &'a str,
    version: bool,
) -> Result<(TokenKind, &'a str), Rule>
    requires digits { SkipsPassing (is_digit_in 10) text.now point.now }
    requires point { Cuts point.now (46 ∷ []) fraction.now }
    ensures { Finds version text.now result }
{
    let end = skip_passing(fraction, Class::Digit);
    let has_front = point.len() < text.len();
    let has_back = end.len() < fraction.len();
    if !has_front && !has_back {
        return Err(Rule::BadCharacter);
    }
    let scale = skip_exponent(end);
    if version && has_front && has_back && scale.is_none() {
        return pointed_version(text, point, fraction, end);
    }
    Err(Rule::FloatLiteral)
}

/// The version of digits, a point and digits.
fn pointed_version<'a>(
    text: &str,
    point: &str,
    fraction: &str,
    end: &'a str,
) -> Result<(TokenKind, &'a str), Rule>
    requires major { SkipsSome (is_digit_in 10) text.now point.now }
    requires point { Cuts point.now (46 ∷ []) fraction.now }
    requires minor { SkipsSome (is_digit_in 10) fraction.now end.now }
    requires no_exponent { ¬ (BeginsExponent (chars end.now)) }
    ensures { Finds true text.now result }
{
    let Some(major) = small_value_of(front_of(text, point)) else {
        return Err(Rule::LiteralRange);
    };
    let Some(minor) = small_value_of(front_of(fraction, end)) else {
        return Err(Rule::LiteralRange);
    };
    let kind = TokenKind::Version {
        major,
        minor: Some(minor),
    };
    Ok((kind, end))
}

/// The token at a digit where no decimal stands: a whole number, or a version without a point. `point`
/// is what stands behind its decimal digits.
fn whole<'a>(
    text: &'a str,
    behind_first: &'a str,
    point: &'a str,
    version: bool,
) -> Result<(TokenKind, &'a str), Rule>
    requires first { (digit : ℕ) × IsTrue (is_digit_in 10 digit) × Cuts text.now (digit ∷ []) behind_first.now }
    requires digits { SkipsPassing (is_digit_in 10) text.now point.now }
    requires no_point { StopsAt (λ c. c == 46) (chars point.now) }
    requires no_exponent { ¬ (BeginsExponent (chars point.now)) }
    ensures { Finds version text.now result }
{
    if let Some((base, digits, end)) = skip_based(text) {
        let Some(value) = value_of(front_of(digits, end), base) else {
            return Err(Rule::LiteralRange);
        };
        return Ok((TokenKind::Whole(value), end));
    }
    let end = skip_digits(behind_first, 10);
    let digits = front_of(text, end);
    if version && end.len() == point.len() {
        let Some(major) = small_value_of(digits) else {
            return Err(Rule::LiteralRange);
        };
        return Ok((TokenKind::Version { major, minor: None }, end));
    }
    let Some(value) = value_of(digits, 10) else {
        return Err(Rule::LiteralRange);
    };
    Ok((TokenKind::Whole(value), end))
}

/// The token at a `$`, where `digits` stands behind it.
pub(crate) fn hardware<'a>(text: &str, digits: &'a str) -> Result<(TokenKind, &'a str), Rule>
    requires { Cuts text.now (36 ∷ []) digits.now }
    ensures { (version : Bool) → Finds version text.now result }
{
    let end = skip_passing(digits, Class::Digit);
    if end.len() == digits.len() {
        return Err(Rule::BadCharacter);
    }
    let Some(number) = small_value_of(front_of(digits, end)) else {
        return Err(Rule::LiteralRange);
    };
    Ok((TokenKind::Hardware(number), end))
}
