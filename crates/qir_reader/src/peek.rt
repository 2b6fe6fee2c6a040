//! What stands at a place of a list of tokens.

ghost use Rattle.std.specs.Prelude.{◌≡◌, ◌≤◌, length};
ghost use Rattle.qir_reader.specs.Inside.{AreTokens, left_from};
ghost use Rattle.qir_reader.specs.Seen.{Peeks, head_kind};

use crate::class::{self, class_of};
use qir_lexer::{QirKind, QirToken};
use qq_base::Span;

/// What is seen of a token: what it is, its bytes in the text, and the place of its first byte.
#[derive(Clone, Copy)]
pub(crate) struct Next<'a> {
    pub kind: QirKind,
    pub spelling: &'a [u8],
    pub at: Span,
}

/// What is seen of the token at a place of the list, or none at its end.
pub(crate) fn next_at<'a>(text: &'a [u8], tokens: &[QirToken], position: usize) -> Option<Next<'a>>
    requires tokens { AreTokens text.now tokens.now }
    requires within { position ≤ length tokens.now }
    ensures { Peeks (left_from text.now tokens.now position) result }
{
    if position == tokens.len() {
        return None;
    }
    let token = tokens[position];
    Some(Next {
        kind: token.kind,
        spelling: &text[token.start as usize..token.end as usize],
        at: token.at,
    })
}

/// The class of the token at a place of the list, or of its end.
pub(crate) fn class_at(text: &[u8], tokens: &[QirToken], position: usize) -> u16
    requires tokens { AreTokens text.now tokens.now }
    requires within { position ≤ length tokens.now }
    ensures { result ≡ head_kind (left_from text.now tokens.now position) }
{
    match next_at(text, tokens, position) {
        Some(next) => class_of(next.kind, next.spelling),
        None => class::END,
    }
}
