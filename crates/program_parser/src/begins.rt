//! Which parts of a statement the next token begins.

ghost use Rattle.std.specs.Prelude.{◌≡◌, ◌||◌};
ghost use Rattle.grammar_parts.specs.Reading.{heads};
ghost use Rattle.qasm_expr.specs.Reader.{begins};
ghost use Rattle.qasm_grammar.specs.Reader.{value_kinds};
ghost use Rattle.program_parser.specs.Begins as kinds;

use qasm_lexer::{Keyword, Mark, TokenKind};
use qasm_parser::Parser;

/// A part of a statement that is told by its first token.
#[derive(Clone, Copy)]
pub enum Part {
    Name,
    Operand,
    Parameter,
    Change,
    Call,
    Member,
    /// An assignment, behind the name of its target.
    Assignment,
    Declaration,
    Action,
    Stmt,
}

fn is_name(kind: TokenKind) -> bool
    ensures { result ≡ kinds.is_name kind }
{
    match kind {
        TokenKind::Name => true,
        _ => false,
    }
}

fn is_hardware(kind: TokenKind) -> bool
    ensures { result ≡ kinds.is_hardware kind }
{
    match kind {
        TokenKind::Hardware(_) => true,
        _ => false,
    }
}

fn is_type(kind: TokenKind) -> bool
    ensures { result ≡ kinds.is_type kind }
{
    match kind {
        TokenKind::Word(
            Keyword::Bool | Keyword::Bit | Keyword::Int | Keyword::Uint | Keyword::Angle,
        ) => true,
        _ => false,
    }
}

fn is_qubit(kind: TokenKind) -> bool
    ensures { result ≡ kinds.is_qubit kind }
{
    match kind {
        TokenKind::Word(Keyword::Qubit) => true,
        _ => false,
    }
}

fn is_change(kind: TokenKind) -> bool
    ensures { result ≡ kinds.is_change kind }
{
    match kind {
        TokenKind::Word(Keyword::Inv | Keyword::Pow | Keyword::Ctrl) => true,
        _ => false,
    }
}

fn is_phase(kind: TokenKind) -> bool
    ensures { result ≡ kinds.is_phase kind }
{
    match kind {
        TokenKind::Word(Keyword::Gphase) => true,
        _ => false,
    }
}

fn is_call(kind: TokenKind) -> bool
    ensures { result ≡ kinds.is_call kind }
{
    is_change(kind) || is_phase(kind) || is_name(kind)
}

fn is_barrier(kind: TokenKind) -> bool
    ensures { result ≡ kinds.is_barrier kind }
{
    match kind {
        TokenKind::Word(Keyword::Barrier) => true,
        _ => false,
    }
}

fn is_assignment(kind: TokenKind) -> bool
    ensures { result ≡ kinds.is_assignment kind }
{
    match kind {
        TokenKind::Mark(
            Mark::LeftBracket
            | Mark::Assign
            | Mark::PlusAssign
            | Mark::MinusAssign
            | Mark::StarAssign
            | Mark::SlashAssign
            | Mark::PercentAssign
            | Mark::AndAssign
            | Mark::OrAssign
            | Mark::CaretAssign
            | Mark::ShiftLeftAssign
            | Mark::ShiftRightAssign,
        ) => true,
        _ => false,
    }
}

fn is_declaration(kind: TokenKind) -> bool
    ensures { result ≡ kinds.is_declaration kind }
{
    match kind {
        TokenKind::Word(
            Keyword::Include
            | Keyword::Qubit
            | Keyword::Qreg
            | Keyword::Creg
            | Keyword::Const
            | Keyword::Output
            | Keyword::Let
            | Keyword::Gate
            | Keyword::Def,
        ) => true,
        _ => is_type(kind),
    }
}

fn is_action(kind: TokenKind) -> bool
    ensures { result ≡ kinds.is_action kind }
{
    match kind {
        TokenKind::Word(
            Keyword::Barrier
            | Keyword::Reset
            | Keyword::Measure
            | Keyword::Break
            | Keyword::Continue
            | Keyword::End
            | Keyword::Return,
        ) => true,
        _ => is_call(kind),
    }
}

fn is_control(kind: TokenKind) -> bool
    ensures { result ≡ kinds.is_control kind }
{
    match kind {
        TokenKind::Word(Keyword::If | Keyword::While | Keyword::For) => true,
        _ => false,
    }
}

/// Whether a token of this kind begins the part.
fn is_begun(part: Part, kind: TokenKind) -> bool
    ensures { result ≡ kinds.is_begun part kind }
{
    match part {
        Part::Name => is_name(kind),
        Part::Operand => is_name(kind) || is_hardware(kind),
        Part::Parameter => is_type(kind) || is_qubit(kind),
        Part::Change => is_change(kind),
        Part::Call => is_call(kind),
        Part::Member => is_call(kind) || is_barrier(kind),
        Part::Assignment => is_assignment(kind),
        Part::Declaration => is_declaration(kind),
        Part::Action => is_action(kind),
        Part::Stmt => is_declaration(kind) || is_action(kind) || is_control(kind),
    }
}

/// Whether the next token begins the part.
pub fn begins(parser: &Parser, part: Part) -> bool
    ensures { result ≡ heads (begins parser.now.text (kinds.kinds_with part)) parser.now.left }
{
    match parser.next() {
        Some(token) => is_begun(part, token.kind),
        None => false,
    }
}

/// Whether the next token begins a value.
pub fn begins_value(parser: &Parser) -> bool
    ensures { result ≡ heads (begins parser.now.text value_kinds) parser.now.left }
{
    parser.begins_expr() || parser.sees_word(Keyword::Measure)
}
