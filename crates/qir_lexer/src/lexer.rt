//! The next token of a text, and all of them.

ghost use Rattle.std.specs.Prelude.{◌≡◌, ◌+◌, ◌^◌, ◌<◌, ◌≤◌, List, Result, length};
ghost use Rattle.qir_module.specs.Tokens.{Token, Breach, place_behind, place_of, end_of, IsNext, Tokens};
ghost use Rattle.qir_lexer.specs.Seen.{found_of, Gives, IsReading};
ghost use Rattle.qir_lexer.specs.Gaps.{SkipsGaps};

use crate::piece::first_token;
use crate::rule::{TextFault, TextRefusal};
use crate::scan::{Class, Lead, count_while, lead_of};
use crate::token::QirToken;
use qq_base::Span;
use std::alloc::Global;

/// The most bytes of a QIR text.
pub const MOST_BYTES: usize = 1_073_741_824;

/// The place behind some bytes that begin at a place.
fn place_behind(at: Span, bytes: &[u8]) -> Span
    requires line { at.line + length bytes.now < 2 ^ 32 }
    requires column { at.column + length bytes.now < 2 ^ 32 }
    ensures { result ≡ place_behind at bytes.now }
{
    let mut at = at;
    for byte in bytes {
        at = if *byte == b'\n' {
            Span {
                line: at.line + 1,
                column: 1,
            }
        } else {
            Span {
                line: at.line,
                column: at.column + 1,
            }
        };
    }
    at
}

/// How many bytes of blanks and comments stand at the front of the text.
fn gap_size(text: &[u8]) -> usize
    ensures { SkipsGaps text.now result }
{
    let mut size = 0;
    while size < text.len() {
        match lead_of(text[size]) {
            Lead::Blank => size += 1,
            Lead::Semicolon => size += 1 + count_while(&text[size + 1..], Class::InLine),
            _ => break,
        }
    }
    size
}

/// The first token of the text at or behind the byte `from`, which stands at the place `at`, or none where
/// only blanks and comments are left. Takes no memory. A text is refused where a byte begins no token, a quote
/// begins no quoted text, or the number of a token has not the right form.
pub fn next_token(text: &[u8], from: usize, at: Span) -> Result<Option<QirToken>, TextRefusal>
    requires length { length text.now ≤ MOST_BYTES }
    requires inside { from ≤ length text.now }
    requires place { at ≡ place_of text.now from }
    ensures { IsNext text.now from (found_of text.now result) }
{
    let size = gap_size(&text[from..]);
    let start = from + size;
    let at = place_behind(at, &text[from..start]);
    if start == text.len() {
        return Ok(None);
    }
    match first_token(&text[start..], text[start]) {
        Ok(piece) => Ok(Some(QirToken {
            kind: piece.kind,
            start: start as u32,
            end: (start + piece.size) as u32,
            at,
        })),
        Err(rule) => Err(TextRefusal { rule, at }),
    }
}

/// The place of the end of a text: behind its last byte.
pub fn end_of(text: &[u8]) -> Span
    requires { length text.now ≤ MOST_BYTES }
    ensures { result ≡ end_of text.now }
{
    place_behind(Span { line: 1, column: 1 }, text)
}

/// All tokens of a text, or its first breach of a rule of tokens: the refusals are those of `next_token`.
pub fn qir_tokens(alloc: Global, text: &[u8]) -> Result<Vec<QirToken>, TextFault>
    requires { length text.now ≤ MOST_BYTES }
    ensures found { Gives text.now result }
    // There is no other reading.
    ensures only { (reading : Result (List Token) Breach) → Tokens text.now reading → IsReading text.now reading result }
{
    read(alloc, text)
}

/// Reads token by token.
fn read(alloc: Global, text: &[u8]) -> Result<Vec<QirToken>, TextFault>
    requires { length text.now ≤ MOST_BYTES }
    ensures { Gives text.now result }
{
    let mut tokens = Vec::new(alloc);
    let mut from = 0;
    let mut at = Span { line: 1, column: 1 };
    loop {
        let token = match next_token(text, from, at) {
            Ok(Some(token)) => token,
            Ok(None) => return Ok(tokens),
            Err(refusal) => return Err(TextFault::Refused(refusal)),
        };
        if tokens.push(token).is_err() {
            return Err(TextFault::Memory);
        }
        from = token.end as usize;
        at = place_behind(token.at, &text[token.start as usize..from]);
    }
}
