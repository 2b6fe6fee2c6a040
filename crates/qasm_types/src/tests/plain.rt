// A plain reading of the tables' texts, with which the code is compared.
use super::tables::{CAST_ROWS, OPERATOR_ROWS, UNARY_ROWS};
use super::{Types, type_of};
use crate::{Operand, Ty};
use std::alloc::{AllocError, Global};

/// What stands in front of the first such character, and what behind it.
fn in_two(text: &str, by: char) -> (&str, &str) {
    text.split_once(by).unwrap_or((text, ""))
}

/// Whether the text has the word.
fn has_word(text: &str, word: &str) -> bool {
    for other in text.split(' ') {
        if other == word {
            return true;
        }
    }
    false
}

/// Whether an operand is of a kind that the tables name.
fn is_of(kind: &str, operand: Operand) -> bool {
    let ty = operand.ty;
    match kind {
        "truth" => matches!(ty, Ty::Bool | Ty::Bit),
        "bool" => ty == Ty::Bool,
        "bit" => ty == Ty::Bit,
        "bits" => matches!(ty, Ty::Bits(_)),
        "word" => matches!(ty, Ty::Int(_) | Ty::Uint(_)),
        "number" => matches!(ty, Ty::Int(_) | Ty::Uint(_) | Ty::Whole),
        "angle" => matches!(ty, Ty::Angle(_)),
        "turn" => ty == Ty::Turn,
        "whole" => ty == Ty::Whole,
        "pi" => ty == Ty::Pi,
        _ => false,
    }
}

/// The bits that a type has.
fn width(ty: Ty) -> u32 {
    match ty {
        Ty::Bits(n) | Ty::Int(n) | Ty::Uint(n) | Ty::Angle(n) => n,
        Ty::Turn => 64,
        _ => 1,
    }
}

/// Whether the number, from 0 on, has at most so many bits.
fn has_bits(number: i128, bits: u32) -> bool {
    bits < 128 && number >> bits == 0
}

/// Whether the number is a value of the word type.
fn is_value(number: i128, ty: Ty) -> bool {
    match ty {
        Ty::Int(n) if n >= 1 => has_bits(if number < 0 { !number } else { number }, n - 1),
        Ty::Uint(n) => number >= 0 && has_bits(number, n),
        _ => false,
    }
}

/// Whether what a row asks beside the kinds holds of both.
fn holds(conditions: &str, left: Operand, right: Ty) -> bool {
    (!has_word(conditions, "same") || width(left.ty) == width(right))
        && (!has_word(conditions, "one") || width(left.ty) == 1)
        && (!has_word(conditions, "small") || width(left.ty) <= 64 && width(right) <= 64)
        && (!has_word(conditions, "pattern")
            || left.whole >= 0 && has_bits(left.whole, width(right)))
}

/// Whether there is a cast.
pub(super) fn has_cast(from: Operand, to: Operand) -> bool {
    if from.ty == to.ty {
        return true;
    }
    for row in CAST_ROWS.lines() {
        let (kinds, conditions) = in_two(row, ';');
        let (first, second) = in_two(kinds, ' ');
        if is_of(first, from) && is_of(second, to) && holds(conditions, from, to.ty) {
            return true;
        }
    }
    false
}

/// Whether an operand stands where a row names a kind, or a condition.
fn stands(kind: &str, operand: Operand, truth: Operand) -> bool {
    is_of(kind, operand) || kind == "condition" && has_cast(operand, truth)
}

/// The word as which a truth value or a register of bits stands beside a word.
fn as_word(ty: Ty) -> Ty {
    match ty {
        Ty::Bool | Ty::Bit => Ty::Uint(1),
        Ty::Bits(n) => Ty::Uint(if n == 0 { 1 } else { n }),
        _ => ty,
    }
}

/// The word as which a whole constant stands beside a word.
fn beside(word: Ty, number: i128) -> Ty {
    for ty in [word, Ty::Int(64)] {
        if is_value(number, ty) {
            return ty;
        }
    }
    Ty::Uint(64)
}

/// Where two words meet: at the greater width, and without a sign where none of that width has one.
fn meet(left: Operand, right: Operand) -> Ty {
    let (mut a, mut b) = (as_word(left.ty), as_word(right.ty));
    if a == Ty::Whole {
        a = beside(b, left.whole);
    } else if b == Ty::Whole {
        b = beside(a, right.whole);
    }
    let wide = if width(a) < width(b) {
        width(b)
    } else {
        width(a)
    };
    if a == Ty::Uint(wide) || b == Ty::Uint(wide) {
        Ty::Uint(wide)
    } else {
        Ty::Int(wide)
    }
}

/// The type that a row names at its end.
fn named(name: &str, left: Operand, right: Operand) -> Option<Ty> {
    match name {
        "left" => Some(left.ty),
        "right" => Some(right.ty),
        "meet" => Some(meet(left, right)),
        "uint" => Some(as_word(left.ty)),
        "beside" => Some(beside(right.ty, left.whole)),
        _ => type_of(Some(name)),
    }
}

/// The rows of an operator, without its symbols.
pub(super) fn rows_of(alloc: Global, symbol: &str) -> Result<String, AllocError> {
    let mut rows = String::new(alloc);
    for row in OPERATOR_ROWS.lines() {
        let (symbols, rest) = in_two(row, ';');
        if has_word(symbols, symbol) {
            writeln!(rows, "{rest}")?;
        }
    }
    Ok(rows)
}

/// Whether a row, without its symbols, is one for the operands.
fn is_row(row: &str, left: Operand, right: Operand, truth: Operand) -> bool {
    let (kinds, rest) = in_two(row, ';');
    let (first, second) = in_two(kinds, ' ');
    stands(first, left, truth)
        && stands(second, right, truth)
        && holds(in_two(rest, ';').0, left, right.ty)
}

/// The three types that a row names at its end.
fn named_types(row: &str, left: Operand, right: Operand) -> Option<Types> {
    let (first, rest) = in_two(in_two(in_two(row, ';').1, ';').1, ' ');
    let (second, third) = in_two(rest, ' ');
    let first = named(first, left, right)?;
    let second = named(second, left, right)?;
    Some((first, second, named(third, left, right)?))
}

/// The types of the first of the rows that is one for the operands.
pub(super) fn types_of(rows: &str, left: Operand, right: Operand, truth: Operand) -> Option<Types> {
    for row in rows.lines() {
        if is_row(row, left, right, truth) {
            return named_types(row, left, right);
        }
    }
    None
}

/// The type of the result of the first row that a unary operator has for the operand.
pub(super) fn result_of(symbol: &str, arg: Operand, truth: Operand) -> Option<Ty> {
    for row in UNARY_ROWS.lines() {
        let (first, rest) = in_two(row, ';');
        let (kind, name) = in_two(rest, ';');
        if first == symbol && stands(kind, arg, truth) {
            return named(name, arg, arg);
        }
    }
    None
}
