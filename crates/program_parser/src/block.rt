//! Bodies of statements.

ghost use Rattle.std.specs.Prelude.{◌≡◌};
ghost use Rattle.qasm_grammar.specs.Parts.{close_or};

use qasm_ast::StmtId;
use qq_base::Span;

/// Statements in braces, with the place of the closing one.
#[derive(Drop)]
pub struct Block {
    pub statements: Vec<StmtId>,
    pub close: Span,
}

/// The body of a control statement: whether it ends in an `if` that has no `else`, and the place of its
/// closing brace, where it has braces.
#[derive(Drop)]
pub struct Body {
    pub statements: Vec<StmtId>,
    pub is_open: bool,
    pub close: Option<Span>,
}

/// The place of the closing brace, where there is one, else the other.
pub fn close_or(close: Option<Span>, other: Span) -> Span
    ensures { result ≡ close_or close other }
{
    match close {
        Some(place) => place,
        None => other,
    }
}
