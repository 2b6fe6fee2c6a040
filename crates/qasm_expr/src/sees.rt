//! Single tokens.

ghost use Rattle.std.specs.Prelude.{◌≡◌, ◌≤◌, ◌<◌, ◌+◌, ◌==◌, ◌||◌, ◌∷◌, [], cond, Some, None, Ok, length, drop, slice_get, is_some, IsSome, OnOk, OnSome, IfOk, IfSome};
ghost use Rattle.std.specs.Bool.{OnTrue};
ghost use Rattle.grammar_parts.specs.Reading.{heads};
ghost use Rattle.grammar_parts.specs.Kinds.{has, among, found_in};
ghost use Rattle.qasm_lexer.specs.Sizes.{bytes_of};
ghost use Rattle.qasm_expr.specs.TokenKinds.{keyword_kind, mark_kind, kind_of, kind, bits_of};
ghost use Rattle.qasm_expr.specs.Grammar.{operators, unary_operators, plain_types, sized_types};
ghost use Rattle.qasm_expr.specs.Seen.{Cut, Passes, head_kind, head_in, head_place, rows_at};
ghost use Rattle.qasm_expr.specs.Reader.{expr_kinds, type_kinds, read_sign, read_opener};
ghost use Rattle.qasm_lexer.specs.declared.token.Keyword.TheVariants.{True, False};

use crate::stop::Stop;
use qasm_ast::{Base, BinaryOp, UnaryOp};
use qasm_lexer::{Keyword, Mark, Token, TokenKind};
use qq_base::Span;

/// The number of the kind of a word, for comparing.
pub fn keyword_number(word: Keyword) -> u8
    ensures value { result ≡ keyword_kind word }
    ensures some { 0 < result }
{
    10 + word as u8
}

/// The number of the kind of a mark, for comparing.
pub fn mark_number(mark: Mark) -> u8
    ensures value { result ≡ mark_kind mark }
    ensures some { 0 < result }
{
    100 + mark as u8
}

/// The number of the kind of the token at a place, or 0 at the end.
pub fn kind_at(text: &[u8], tokens: &[Token], at: usize) -> u8
    requires within { at ≤ length tokens.now }
    requires cut { Cut text.now tokens.now }
    ensures value { result ≡ head_kind text.now (drop at tokens.now) }
    ensures inside { 0 < result → at < length tokens.now }
{
    if at == tokens.len() {
        return 0;
    }
    kind_number(text, &tokens[at])
}

/// The number of the kind of a token.
fn kind_number(text: &[u8], token: &Token) -> u8
    requires order { token.now.start ≤ token.now.end }
    requires within { token.now.end ≤ length text.now }
    ensures { result ≡ kind text.now token.now }
{
    match token.kind {
        TokenKind::Name => 1,
        TokenKind::Word(word) => keyword_number(word),
        TokenKind::Whole(_) => 2,
        TokenKind::Text => {
            if is_bits(&text[token.start as usize..token.end as usize]) {
                4
            } else {
                3
            }
        }
        TokenKind::Version { .. } => 5,
        TokenKind::Hardware(_) => 6,
        TokenKind::Mark(mark) => mark_number(mark),
    }
}

/// Whether the characters of a text are a bit string.
pub fn is_bits(spelling: &[u8]) -> bool
    ensures { result ≡ is_some (bits_of spelling.now) }
{
    if spelling.is_empty() || spelling[0] != b'"' {
        return false;
    }
    let mut digit_next = true;
    let mut at = 1usize;
    while at < spelling.len() {
        let byte = spelling[at];
        if byte == b'0' {
            digit_next = false;
        } else if byte == b'1' {
            digit_next = false;
        } else if digit_next {
            return false;
        } else if byte == b'_' {
            digit_next = true;
        } else {
            return byte == b'"' && at + 1 == spelling.len();
        }
        at += 1;
    }
    false
}

/// Whether this mark stands at a place.
pub fn sees(text: &[u8], tokens: &[Token], at: usize, mark: Mark) -> bool
    requires within { at ≤ length tokens.now }
    requires cut { Cut text.now tokens.now }
    ensures value { result ≡ (head_kind text.now (drop at tokens.now) == mark_kind mark) }
    ensures inside { OnTrue result (at < length tokens.now) }
{
    kind_at(text, tokens, at) == mark_number(mark)
}

/// Whether this word stands at a place.
pub fn sees_word(text: &[u8], tokens: &[Token], at: usize, word: Keyword) -> bool
    requires within { at ≤ length tokens.now }
    requires cut { Cut text.now tokens.now }
    ensures value { result ≡ (head_kind text.now (drop at tokens.now) == keyword_kind word) }
    ensures inside { OnTrue result (at < length tokens.now) }
{
    kind_at(text, tokens, at) == keyword_number(word)
}

/// Takes a mark.
pub fn expect(text: &[u8], tokens: &[Token], at: usize, mark: Mark) -> Result<usize, Stop>
    requires within { at ≤ length tokens.now }
    requires cut { Cut text.now tokens.now }
    ensures { Passes tokens.now at (read_sign text.now (mark_kind mark) (drop at tokens.now)) result }
{
    if sees(text, tokens, at, mark) {
        Ok(at + 1)
    } else {
        Err(Stop::Syntax(at))
    }
}

/// Takes a mark that opens a level, where there is room for one.
pub fn open(text: &[u8], tokens: &[Token], at: usize, room: u32, mark: Mark) -> Result<usize, Stop>
    requires within { at ≤ length tokens.now }
    requires cut { Cut text.now tokens.now }
    ensures passes { Passes tokens.now at (read_opener text.now room (mark_kind mark) (drop at tokens.now)) result }
    ensures has_room { OnOk result (0 < room) }
{
    if room > 0 {
        return expect(text, tokens, at, mark);
    }
    if sees(text, tokens, at, mark) {
        Err(Stop::Deep(at))
    } else {
        Err(Stop::Syntax(at))
    }
}

/// The value, where this mark stands at a place, else the other.
fn operator_or(
    text: &[u8],
    tokens: &[Token],
    at: usize,
    mark: Mark,
    op: BinaryOp,
    other: Option<BinaryOp>,
) -> Option<BinaryOp>
    requires within { at ≤ length tokens.now }
    requires cut { Cut text.now tokens.now }
    requires inside { OnSome other (at < length tokens.now) }
    ensures value { result ≡ cond (head_kind text.now (drop at tokens.now) == mark_kind mark) (Some op) other }
    ensures inside { OnSome result (at < length tokens.now) }
{
    if sees(text, tokens, at, mark) {
        Some(op)
    } else {
        other
    }
}

/// The binary operator at a place, where it is one of this level, counted from the loosest.
pub fn operator_at(text: &[u8], tokens: &[Token], at: usize, rank: usize) -> Option<BinaryOp>
    requires within { at ≤ length tokens.now }
    requires cut { Cut text.now tokens.now }
    requires level { rank < 10 }
    ensures value { result ≡ head_in text.now (rows_at rank) (drop at tokens.now) }
    ensures inside { OnSome result (at < length tokens.now) }
{
    match rank {
        0 => operator_or(text, tokens, at, Mark::OrOr, BinaryOp::Or, None),
        1 => operator_or(text, tokens, at, Mark::AndAnd, BinaryOp::And, None),
        2 => operator_or(text, tokens, at, Mark::Pipe, BinaryOp::BitOr, None),
        3 => operator_or(text, tokens, at, Mark::Caret, BinaryOp::BitXor, None),
        4 => operator_or(text, tokens, at, Mark::Ampersand, BinaryOp::BitAnd, None),
        5 => {
            let not = operator_or(text, tokens, at, Mark::NotEqual, BinaryOp::NotEqual, None);
            operator_or(text, tokens, at, Mark::Equal, BinaryOp::Equal, not)
        }
        6 => comparison_at(text, tokens, at),
        7 => shift_at(text, tokens, at),
        8 => sum_at(text, tokens, at),
        9 => product_at(text, tokens, at),
        _ => unreachable!(),
    }
}

/// The operator of a shift at a place.
fn shift_at(text: &[u8], tokens: &[Token], at: usize) -> Option<BinaryOp>
    requires within { at ≤ length tokens.now }
    requires cut { Cut text.now tokens.now }
    ensures value { result ≡ head_in text.now (rows_at 7) (drop at tokens.now) }
    ensures inside { OnSome result (at < length tokens.now) }
{
    let right = operator_or(
        text,
        tokens,
        at,
        Mark::ShiftRight,
        BinaryOp::ShiftRight,
        None,
    );
    operator_or(
        text,
        tokens,
        at,
        Mark::ShiftLeft,
        BinaryOp::ShiftLeft,
        right,
    )
}

/// The operator of a sum at a place.
fn sum_at(text: &[u8], tokens: &[Token], at: usize) -> Option<BinaryOp>
    requires within { at ≤ length tokens.now }
    requires cut { Cut text.now tokens.now }
    ensures value { result ≡ head_in text.now (rows_at 8) (drop at tokens.now) }
    ensures inside { OnSome result (at < length tokens.now) }
{
    let minus = operator_or(text, tokens, at, Mark::Minus, BinaryOp::Subtract, None);
    operator_or(text, tokens, at, Mark::Plus, BinaryOp::Add, minus)
}

/// The operator of a product at a place.
fn product_at(text: &[u8], tokens: &[Token], at: usize) -> Option<BinaryOp>
    requires within { at ≤ length tokens.now }
    requires cut { Cut text.now tokens.now }
    ensures value { result ≡ head_in text.now (rows_at 9) (drop at tokens.now) }
    ensures inside { OnSome result (at < length tokens.now) }
{
    let rest = operator_or(text, tokens, at, Mark::Percent, BinaryOp::Remainder, None);
    let slash = operator_or(text, tokens, at, Mark::Slash, BinaryOp::Divide, rest);
    operator_or(text, tokens, at, Mark::Star, BinaryOp::Multiply, slash)
}

/// The comparison by order at a place.
fn comparison_at(text: &[u8], tokens: &[Token], at: usize) -> Option<BinaryOp>
    requires within { at ≤ length tokens.now }
    requires cut { Cut text.now tokens.now }
    ensures value { result ≡ head_in text.now (rows_at 6) (drop at tokens.now) }
    ensures inside { OnSome result (at < length tokens.now) }
{
    let last = operator_or(
        text,
        tokens,
        at,
        Mark::GreaterEqual,
        BinaryOp::GreaterEqual,
        None,
    );
    let greater = operator_or(text, tokens, at, Mark::Greater, BinaryOp::Greater, last);
    let equal = operator_or(
        text,
        tokens,
        at,
        Mark::LessEqual,
        BinaryOp::LessEqual,
        greater,
    );
    operator_or(text, tokens, at, Mark::Less, BinaryOp::Less, equal)
}

/// The operator in front of an operand, at a place, and its place in the text.
pub fn sign_at(text: &[u8], tokens: &[Token], at: usize) -> Option<UnaryOp>
    requires within { at ≤ length tokens.now }
    requires cut { Cut text.now tokens.now }
    ensures value { result ≡ head_in text.now unary_operators (drop at tokens.now) }
    ensures inside { OnSome result (at < length tokens.now) }
{
    if sees(text, tokens, at, Mark::Tilde) {
        Some(UnaryOp::Complement)
    } else if sees(text, tokens, at, Mark::Bang) {
        Some(UnaryOp::Not)
    } else if sees(text, tokens, at, Mark::Minus) {
        Some(UnaryOp::Negate)
    } else {
        None
    }
}

/// Whether the type without a width stands at a place.
pub fn plain_type_at(text: &[u8], tokens: &[Token], at: usize) -> Option<Base>
    requires within { at ≤ length tokens.now }
    requires cut { Cut text.now tokens.now }
    ensures value { result ≡ head_in text.now plain_types (drop at tokens.now) }
    ensures inside { OnSome result (at < length tokens.now) }
{
    if sees_word(text, tokens, at, Keyword::Bool) {
        Some(Base::Bool)
    } else {
        None
    }
}

/// The type that may have a width, at a place.
pub fn sized_type_at(text: &[u8], tokens: &[Token], at: usize) -> Option<Base>
    requires within { at ≤ length tokens.now }
    requires cut { Cut text.now tokens.now }
    ensures value { result ≡ head_in text.now sized_types (drop at tokens.now) }
    ensures inside { OnSome result (at < length tokens.now) }
{
    if sees_word(text, tokens, at, Keyword::Bit) {
        Some(Base::Bit)
    } else if sees_word(text, tokens, at, Keyword::Int) {
        Some(Base::Int)
    } else if sees_word(text, tokens, at, Keyword::Uint) {
        Some(Base::Uint)
    } else if sees_word(text, tokens, at, Keyword::Angle) {
        Some(Base::Angle)
    } else {
        None
    }
}

/// Whether a token that begins an expression stands at a place.
pub fn begins_expr(text: &[u8], tokens: &[Token], at: usize) -> bool
    requires within { at ≤ length tokens.now }
    requires cut { Cut text.now tokens.now }
    ensures { result ≡ heads (among (kind text.now) expr_kinds) (drop at tokens.now) }
{
    let kind = kind_at(text, tokens, at);
    is_expr_kind(kind)
}

/// Whether tokens of the kind with this number begin an expression.
pub fn is_expr_kind(kind: u8) -> bool
    ensures { result ≡ has expr_kinds kind }
{
    let sign = kind == mark_number(Mark::Tilde)
        || kind == mark_number(Mark::Bang)
        || kind == mark_number(Mark::Minus);
    let literal = kind == 2 || kind == 4 || kind == 6 || is_truth_kind(kind);
    sign || literal || kind == mark_number(Mark::LeftParen) || is_type_kind(kind) || kind == 1
}

fn is_truth_kind(kind: u8) -> bool
    ensures { result ≡ has (keyword_kind True ∷ keyword_kind False ∷ []) kind }
{
    kind == keyword_number(Keyword::True) || kind == keyword_number(Keyword::False)
}

pub fn is_type_kind(kind: u8) -> bool
    ensures { result ≡ has type_kinds kind }
{
    kind == keyword_number(Keyword::Bool)
        || kind == keyword_number(Keyword::Bit)
        || kind == keyword_number(Keyword::Int)
        || kind == keyword_number(Keyword::Uint)
        || kind == keyword_number(Keyword::Angle)
}

/// Whether the word of a type stands at a place.
pub fn begins_type(text: &[u8], tokens: &[Token], at: usize) -> bool
    requires within { at ≤ length tokens.now }
    requires cut { Cut text.now tokens.now }
    ensures { result ≡ heads (among (kind text.now) type_kinds) (drop at tokens.now) }
{
    let kind = kind_at(text, tokens, at);
    is_type_kind(kind)
}

/// Whether an item is to be taken: the first one has to be, another where it begins.
pub fn may_take(text: &[u8], tokens: &[Token], at: usize, first: bool) -> bool
    requires within { at ≤ length tokens.now }
    requires cut { Cut text.now tokens.now }
    ensures { result ≡ (first || heads (among (kind text.now) expr_kinds) (drop at tokens.now)) }
{
    first || begins_expr(text, tokens, at)
}
