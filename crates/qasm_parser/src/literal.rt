//! Bit strings, and literals as nodes.

ghost use Rattle.std.specs.Prelude.{◌≡◌, ◌==◌, ◌||◌, map, filter, IfOk, IfErr};
ghost use Rattle.grammar_parts.specs.Kinds.{is_some};
ghost use Rattle.qasm_expr.specs.TokenKinds.{bits_of};
ghost use Rattle.qasm_expr.specs.Seen as seen;
ghost use Rattle.qasm_parser.specs.declared.stop.Stop.TheVariants.{Memory};

use crate::stop::Stop;
use qasm_ast::{BitText, ExprKind};
use qasm_expr::bits_are_digits;
use qasm_lexer::{Keyword, TokenKind};
use std::alloc::{AllocError, Global};

/// Whether the characters of a text are a bit string.
pub fn is_bits(spelling: &[u8]) -> bool
    ensures { result ≡ is_some (bits_of spelling.now) }
{
    if spelling.is_empty() || spelling[0] != b'"' {
        return false;
    }
    let mut digit_next = true;
    let mut at = 1usize;
    while at < spelling.len() {
        let byte = spelling[at];
        if byte == b'0' {
            digit_next = false;
        } else if byte == b'1' {
            digit_next = false;
        } else if digit_next {
            return false;
        } else if byte == b'_' {
            digit_next = true;
        } else {
            return byte == b'"' && at + 1 == spelling.len();
        }
        at += 1;
    }
    false
}

/// The digits among some characters.
fn digits(alloc: Global, spelling: &[u8]) -> Result<Vec<bool>, AllocError>
    ensures { IfOk result (λ v. v.items ≡ map (λ b. b == 49) (filter (λ b. (b == 48) || (b == 49)) spelling.now)) }
{
    spelling
        .iter()
        .copied()
        .filter(|b| *b == b'0' || *b == b'1')
        .map(|b| b == b'1')
        .collect(alloc)
}

/// The bits of a bit string, from its characters.
pub fn bits(alloc: Global, spelling: &[u8]) -> Result<Option<BitText>, Stop>
    ensures value { IfOk result (λ found. found ≡ bits_of spelling.now) }
    ensures memory { IfErr result (λ e. e ≡ Memory) }
{
    bits_are_digits();
    if is_bits(spelling) {
        return match digits(alloc, spelling) {
            Ok(items) => Ok(Some(BitText { items })),
            Err(_) => Err(Stop::Memory),
        };
    }
    Ok(None)
}

/// The node of a literal that is no text.
pub fn plain_literal(kind: TokenKind) -> Option<ExprKind>
    ensures { result ≡ seen.plain_literal kind }
{
    match kind {
        TokenKind::Whole(n) => Some(ExprKind::Whole(n)),
        TokenKind::Hardware(n) => Some(ExprKind::Hardware(n)),
        TokenKind::Word(Keyword::True) => Some(ExprKind::Truth(true)),
        TokenKind::Word(Keyword::False) => Some(ExprKind::Truth(false)),
        _ => None,
    }
}

/// Whether a token is a text.
pub fn is_text(kind: TokenKind) -> bool
    ensures { result ≡ seen.is_text kind }
{
    match kind {
        TokenKind::Text => true,
        _ => false,
    }
}
