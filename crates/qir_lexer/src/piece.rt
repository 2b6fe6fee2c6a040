//! The first token of a text, by what it begins with.

ghost use Rattle.std.specs.Prelude.{◌≡◌, ◌<◌, ◌≤◌, ◌+◌, ◌^◌, ◌==◌, ℕ, true, false, cond, List, [], ◌∷◌, ◌++◌, take, drop, length, filter, IsTrue, SomeIff, IfSome, Some, None};
ghost use Rattle.std.specs.List.{list_all};
ghost use Rattle.std.specs.Char.{is_ascii_digit};
ghost use Rattle.std.specs.Str.Parse.{digits_value};
ghost use Rattle.qir_module.specs.Tokens.{begins_word, continues_word, leads_with_zero, Outside};
ghost use Rattle.qir_module.specs.Lexer.{Letter, Percent, At, Bang, Fails, run, heads, closed, or_else, number_step, block_step, plus, minus, numbered, lead_of, step_by};
ghost use Rattle.qir_lexer.specs.Scan.{signed, is_number, numbered_kind, is_gap, step_in, some_step_in};
ghost use Rattle.qir_lexer.specs.Seen.{kind_of};

use crate::rule::TextRule;
use crate::scan::{
    Class, Lead, begins_word, closing, count_while, lead_of, leads_with_zero, value_of,
};
use crate::token::QirKind;

/// A token by its kind and its length in bytes.
#[derive(Clone, Copy)]
pub(crate) struct Piece {
    pub(crate) kind: QirKind,
    pub(crate) size: usize,
}

/// A kind of token that has a number below 2^32.
#[derive(Clone, Copy)]
enum Numbered {
    Register,
    Target,
    Block,
    Constant,
    Group,
    Flag,
}

/// The kind of a token of this number.
fn numbered_kind(sort: Numbered, number: u32) -> QirKind
    ensures { (spelling : List ℕ) → kind_of spelling result ≡ numbered_kind sort number }
{
    match sort {
        Numbered::Register => QirKind::Register(number),
        Numbered::Target => QirKind::Target(number),
        Numbered::Block => QirKind::Block(number),
        Numbered::Constant => QirKind::Constant(number),
        Numbered::Group => QirKind::Group(number),
        Numbered::Flag => QirKind::Flag(number),
    }
}

/// The value of the digits, where they have no leading zero and it is below 2^32.
fn small_value(digits: &[u8]) -> Option<u32>
    requires { IsTrue (list_all is_ascii_digit digits.now) }
    ensures { let value = digits_value 10 digits.now in
        SomeIff result ((leads_with_zero digits.now ≡ false) × (value < 2 ^ 32)) value }
{
    if leads_with_zero(digits) {
        return None;
    }
    let value = value_of(digits)?;
    u32::try_from(value).ok()
}

/// The number of the digits behind a minus or none, where it has the right form.
fn word_value(digits: &[u8], negative: bool) -> Option<i64>
    requires { IsTrue (list_all is_ascii_digit digits.now) }
    ensures { SomeIff result (IsTrue (is_number negative digits.now)) (signed negative (digits_value 10 digits.now)) }
{
    if leads_with_zero(digits) {
        return None;
    }
    let value = value_of(digits)?;
    if !negative {
        return i64::try_from(value).ok();
    }
    if value == 0 || value > 9_223_372_036_854_775_808 {
        return None;
    }
    Some(-1 - (value - 1) as i64)
}

/// A number behind so many bytes, where a digit stands there.
fn numbered_token(text: &[u8], skip: usize, sort: Numbered) -> Option<Result<Piece, TextRule>>
    requires few { length text.now ≤ 1073741824 }
    requires inside { skip ≤ length text.now }
    requires front { filter is_ascii_digit (take skip text.now) ≡ [] }
    ensures { some_step_in text.now result ≡ number_step (numbered (numbered_kind sort)) skip text.now }
{
    let digits = &text[skip..];
    let count = count_while(digits, Class::Digit);
    if count == 0 {
        return None;
    }
    let Some(value) = small_value(&digits[..count]) else {
        return Some(Err(TextRule::NumberForm));
    };
    Some(Ok(Piece {
        kind: numbered_kind(sort, value),
        size: skip + count,
    }))
}

/// A number by itself, behind a minus or none.
fn number_token(text: &[u8], negative: bool) -> Result<Piece, TextRule>
    requires few { length text.now ≤ 1073741824 }
    requires front { (text.now ≡ []) → ⊥ }
    requires minus { IsTrue negative → IsTrue (heads (λ c. c == 45) text.now) }
    ensures { step_in text.now result ≡ or_else (number_step (cond negative minus plus) (cond negative 1 0) text.now) (Fails 2) }
{
    let skip = if negative { 1 } else { 0 };
    let digits = &text[skip..];
    let count = count_while(digits, Class::Digit);
    if count == 0 {
        return Err(TextRule::BadCharacter);
    }
    let Some(value) = word_value(&digits[..count], negative) else {
        return Err(TextRule::NumberForm);
    };
    Ok(Piece {
        kind: QirKind::Number(value),
        size: skip + count,
    })
}

/// How many bytes the word at the front of the text has.
fn word_size(text: &[u8]) -> Option<usize>
    ensures count { result ≡ cond (heads begins_word text.now) (Some (run continues_word text.now)) None }
    ensures inside { IfSome result (λ n. n ≤ length text.now) }
{
    let first = text.first()?;
    if begins_word(*first) {
        Some(count_while(text, Class::WordPart))
    } else {
        None
    }
}

/// How many bytes stand between the quotes of the quoted text at the front of the text.
fn quoted_size(text: &[u8]) -> Option<usize>
    ensures count { result ≡ cond (heads (λ c. c == 34) text.now) (closed Outside (drop 1 text.now)) None }
    ensures inside { IfSome result (λ n. n + 2 ≤ length text.now) }
{
    let first = text.first()?;
    if *first == b'"' {
        closing(&text[1..])
    } else {
        None
    }
}

/// A block's name: `b`, digits and `:`.
fn block(text: &[u8]) -> Option<Result<Piece, TextRule>>
    requires few { length text.now ≤ 1073741824 }
    requires first { IsTrue (heads (λ c. c == 98) text.now) }
    ensures { some_step_in text.now result ≡ block_step text.now }
{
    let digits = &text[1..];
    let count = count_while(digits, Class::Digit);
    if count == 0 || count == digits.len() || digits[count] != b':' {
        return None;
    }
    let Some(value) = small_value(&digits[..count]) else {
        return Some(Err(TextRule::NumberForm));
    };
    Some(Ok(Piece {
        kind: QirKind::Block(value),
        size: count + 2,
    }))
}

/// The token at a letter or `_`.
fn at_letter(text: &[u8], first: u8) -> Result<Piece, TextRule>
    requires few { length text.now ≤ 1073741824 }
    requires first { (rest : List ℕ) × (text.now ≡ first ∷ rest) }
    requires letter { begins_word first ≡ true }
    ensures { step_in text.now result ≡ step_by Letter first text.now }
{
    if first == b'b' {
        if let Some(found) = block(text) {
            return found;
        }
    } else if first == b'c' {
        if let Some(size) = quoted_size(&text[1..]) {
            return Ok(Piece {
                kind: QirKind::Bytes,
                size: size + 3,
            });
        }
    }
    Ok(Piece {
        kind: QirKind::Word,
        size: count_while(text, Class::WordPart),
    })
}

/// The token at a `%`.
fn at_percent(text: &[u8]) -> Result<Piece, TextRule>
    requires few { length text.now ≤ 1073741824 }
    requires first { IsTrue (heads (λ c. c == 37) text.now) }
    ensures { step_in text.now result ≡ step_by Percent 37 text.now }
{
    if text.len() < 2 {
        return Err(TextRule::BadCharacter);
    }
    let found = match text[1] {
        b'r' => numbered_token(text, 2, Numbered::Register),
        b'b' => numbered_token(text, 2, Numbered::Target),
        _ => None,
    };
    match found {
        Some(found) => found,
        None => Err(TextRule::BadCharacter),
    }
}

/// The token at a `@`.
fn at_sign(text: &[u8]) -> Result<Piece, TextRule>
    requires few { length text.now ≤ 1073741824 }
    requires first { IsTrue (heads (λ c. c == 64) text.now) }
    ensures { step_in text.now result ≡ step_by At 64 text.now }
{
    if let Some(found) = numbered_token(text, 1, Numbered::Constant) {
        return found;
    }
    match word_size(&text[1..]) {
        Some(size) => Ok(Piece {
            kind: QirKind::Named,
            size: 1 + size,
        }),
        None => Err(TextRule::BadCharacter),
    }
}

/// The token at a `!`.
fn at_bang(text: &[u8]) -> Result<Piece, TextRule>
    requires few { length text.now ≤ 1073741824 }
    requires first { IsTrue (heads (λ c. c == 33) text.now) }
    ensures { step_in text.now result ≡ step_by Bang 33 text.now }
{
    if let Some(found) = numbered_token(text, 1, Numbered::Flag) {
        return found;
    }
    if let Some(size) = word_size(&text[1..]) {
        return Ok(Piece {
            kind: QirKind::FlagName,
            size: 1 + size,
        });
    }
    match quoted_size(&text[1..]) {
        Some(size) => Ok(Piece {
            kind: QirKind::FlagText,
            size: size + 3,
        }),
        None => Ok(Piece {
            kind: QirKind::Mark(b'!'),
            size: 1,
        }),
    }
}

/// The first token of a text that begins with no blank and no comment.
pub(crate) fn first_token(text: &[u8], first: u8) -> Result<Piece, TextRule>
    requires few { length text.now ≤ 1073741824 }
    requires first { (rest : List ℕ) × (text.now ≡ first ∷ rest) }
    requires no_gap { is_gap (lead_of first) ≡ false }
    ensures { step_in text.now result ≡ step_by (lead_of first) first text.now }
{
    match lead_of(first) {
        Lead::Letter => at_letter(text, first),
        Lead::Digit => number_token(text, false),
        Lead::Minus => number_token(text, true),
        Lead::Percent => at_percent(text),
        Lead::At => at_sign(text),
        Lead::Bang => at_bang(text),
        Lead::Hash => match numbered_token(text, 1, Numbered::Group) {
            Some(found) => found,
            None => Err(TextRule::BadCharacter),
        },
        Lead::Quote => match quoted_size(text) {
            Some(size) => Ok(Piece {
                kind: QirKind::Text,
                size: size + 2,
            }),
            None => Err(TextRule::OpenString),
        },
        Lead::OtherMark => Ok(Piece {
            kind: QirKind::Mark(first),
            size: 1,
        }),
        Lead::Blank | Lead::Semicolon | Lead::Nothing => Err(TextRule::BadCharacter),
    }
}
