//! What a token is, by its kind.

ghost use Rattle.std.specs.Prelude.{◌≡◌, Some, None};
ghost use Rattle.qasm_parser.specs.Kinds as kinds;

use qasm_ast::{Base, BinaryOp, UnaryOp};
use qasm_lexer::{Keyword, Mark, TokenKind};

/// Whether it is this mark.
pub fn is_mark(kind: TokenKind, mark: Mark) -> bool
    ensures { result ≡ kinds.is_mark kind mark }
{
    match kind {
        TokenKind::Mark(found) => found == mark,
        _ => false,
    }
}

/// Whether it is this word.
pub fn is_word(kind: TokenKind, word: Keyword) -> bool
    ensures { result ≡ kinds.is_word kind word }
{
    match kind {
        TokenKind::Word(found) => found == word,
        _ => false,
    }
}

/// The operator in front of an operand.
pub fn sign_of(kind: TokenKind) -> Option<UnaryOp>
    ensures { result ≡ kinds.sign_of kind }
{
    match kind {
        TokenKind::Mark(Mark::Tilde) => Some(UnaryOp::Complement),
        TokenKind::Mark(Mark::Bang) => Some(UnaryOp::Not),
        TokenKind::Mark(Mark::Minus) => Some(UnaryOp::Negate),
        _ => None,
    }
}

/// The binary operator, with its level, the loosest first.
fn operator_of(kind: TokenKind) -> Option<(usize, BinaryOp)>
    ensures { result ≡ kinds.operator_of kind }
{
    match kind {
        TokenKind::Mark(Mark::OrOr) => Some((0, BinaryOp::Or)),
        TokenKind::Mark(Mark::AndAnd) => Some((1, BinaryOp::And)),
        TokenKind::Mark(Mark::Pipe) => Some((2, BinaryOp::BitOr)),
        TokenKind::Mark(Mark::Caret) => Some((3, BinaryOp::BitXor)),
        TokenKind::Mark(Mark::Ampersand) => Some((4, BinaryOp::BitAnd)),
        TokenKind::Mark(Mark::Equal) => Some((5, BinaryOp::Equal)),
        TokenKind::Mark(Mark::NotEqual) => Some((5, BinaryOp::NotEqual)),
        TokenKind::Mark(Mark::Less) => Some((6, BinaryOp::Less)),
        TokenKind::Mark(Mark::LessEqual) => Some((6, BinaryOp::LessEqual)),
        TokenKind::Mark(Mark::Greater) => Some((6, BinaryOp::Greater)),
        TokenKind::Mark(Mark::GreaterEqual) => Some((6, BinaryOp::GreaterEqual)),
        TokenKind::Mark(Mark::ShiftLeft) => Some((7, BinaryOp::ShiftLeft)),
        TokenKind::Mark(Mark::ShiftRight) => Some((7, BinaryOp::ShiftRight)),
        TokenKind::Mark(Mark::Plus) => Some((8, BinaryOp::Add)),
        TokenKind::Mark(Mark::Minus) => Some((8, BinaryOp::Subtract)),
        TokenKind::Mark(Mark::Star) => Some((9, BinaryOp::Multiply)),
        TokenKind::Mark(Mark::Slash) => Some((9, BinaryOp::Divide)),
        TokenKind::Mark(Mark::Percent) => Some((9, BinaryOp::Remainder)),
        _ => None,
    }
}

/// The binary operator, where it is one of this level.
pub fn operator_at(kind: TokenKind, rank: usize) -> Option<BinaryOp>
    ensures { result ≡ kinds.of_level rank (kinds.operator_of kind) }
{
    match operator_of(kind) {
        Some((level, op)) => { if level == rank { Some(op) } else { None } }
        None => None,
    }
}

/// The type without a width.
pub fn plain_type_of(kind: TokenKind) -> Option<Base>
    ensures { result ≡ kinds.plain_type_of kind }
{
    match kind {
        TokenKind::Word(Keyword::Bool) => Some(Base::Bool),
        _ => None,
    }
}

/// The type that may have a width.
pub fn sized_type_of(kind: TokenKind) -> Option<Base>
    ensures { result ≡ kinds.sized_type_of kind }
{
    match kind {
        TokenKind::Word(Keyword::Bit) => Some(Base::Bit),
        TokenKind::Word(Keyword::Int) => Some(Base::Int),
        TokenKind::Word(Keyword::Uint) => Some(Base::Uint),
        TokenKind::Word(Keyword::Angle) => Some(Base::Angle),
        _ => None,
    }
}

/// Whether it is the word of a type.
pub fn is_type(kind: TokenKind) -> bool
    ensures { result ≡ kinds.is_type kind }
{
    match kind {
        TokenKind::Word(Keyword::Bool) => true,
        TokenKind::Word(Keyword::Bit) => true,
        TokenKind::Word(Keyword::Int) => true,
        TokenKind::Word(Keyword::Uint) => true,
        TokenKind::Word(Keyword::Angle) => true,
        _ => false,
    }
}

/// Whether it is a name.
pub fn is_name(kind: TokenKind) -> bool
    ensures { result ≡ kinds.is_name kind }
{
    match kind {
        TokenKind::Name => true,
        _ => false,
    }
}

/// Whether it is a literal, where a text is one or is not.
pub fn is_literal(bits: bool, kind: TokenKind) -> bool
    ensures { result ≡ kinds.is_literal bits kind }
{
    match kind {
        TokenKind::Whole(_) => true,
        TokenKind::Hardware(_) => true,
        TokenKind::Word(Keyword::True) => true,
        TokenKind::Word(Keyword::False) => true,
        TokenKind::Text => bits,
        _ => false,
    }
}

/// Whether it begins an expression and is no literal.
pub fn begins_operand(kind: TokenKind) -> bool
    ensures { result ≡ kinds.begins_operand kind }
{
    match kind {
        TokenKind::Name => true,
        TokenKind::Mark(Mark::Tilde) => true,
        TokenKind::Mark(Mark::Bang) => true,
        TokenKind::Mark(Mark::Minus) => true,
        TokenKind::Mark(Mark::LeftParen) => true,
        _ => is_type(kind),
    }
}
