//! The next token of a text, and all of them.

ghost use Rattle.std.specs.Prelude.{◌≡◌, ◌+◌, ◌^◌, ◌<◌, ◌≤◌, List, Result, length, take};
ghost use Rattle.std.specs.Str.{chars, IsCharBoundary, IsUtf8};
ghost use Rattle.qq_base.specs.declared.refusal.Refusal.{Refusal};
ghost use Rattle.qasm_lexer.specs.declared.token.Token.{Token};
ghost use Rattle.qasm_lexer.specs.Tokens.{place_behind, place_of, opens_version, IsNext, Tokens, Gives, IsAnswer};

use crate::gaps::skip_gaps;
use crate::pieces::first_token;
use crate::scan::{front_of, split_first};
use crate::token::{Keyword, Token, TokenKind};
use qq_base::{Fault, Refusal, Rule, Span};
use std::alloc::Global;

/// The most bytes of a source text.
pub const MOST_BYTES: usize = 4_194_304;

/// The place behind some text that begins at a place.
fn place_behind(at: Span, text: &str) -> Span
    requires line { at.line + length text.now < 2 ^ 32 }
    requires column { at.column + length text.now < 2 ^ 32 }
    ensures { result ≡ place_behind at (chars text.now) }
{
    let mut at = at;
    let mut rest = text;
    while let Some((first, behind)) = split_first(rest) {
        at = if first == '\n' {
            Span {
                line: at.line + 1,
                column: 1,
            }
        } else {
            Span {
                line: at.line,
                column: at.column + 1,
            }
        };
        rest = behind;
    }
    at
}

/// The first token of the text at or behind the byte `from`, which stands at the place `at`, or none at
/// the end. A version may be its first token where `version` says so.
pub fn next_token(
    text: &str,
    from: usize,
    at: Span,
    version: bool,
) -> Result<Option<Token>, Refusal>
    requires length { length text.now ≤ MOST_BYTES }
    requires boundary { IsCharBoundary text.now from }
    requires place { at ≡ place_of text.now from }
    ensures { IsNext text.now from version result }
{
    let (_, here) = text.split_at(from);
    let (rest, is_open) = skip_gaps(here);
    let at = place_behind(at, front_of(here, rest));
    if is_open {
        return Err(Refusal {
            rule: Rule::OpenComment,
            at,
        });
    }
    let Some((first, behind)) = split_first(rest) else {
        return Ok(None);
    };
    match first_token(rest, first, behind, version) {
        Ok((kind, end)) => Ok(Some(Token {
            kind,
            start: (text.len() - rest.len()) as u32,
            end: (text.len() - end.len()) as u32,
            at,
        })),
        Err(rule) => Err(Refusal { rule, at }),
    }
}

/// Whether a version may stand behind the token.
pub fn opens_version(kind: TokenKind) -> bool
    ensures { result ≡ opens_version kind }
{
    matches!(kind, TokenKind::Word(Keyword::OpenQasm))
}

/// The place behind the first bytes of some bytes, where these are UTF-8.
fn place_behind_bytes(bytes: &[u8], count: usize) -> Span
    requires count { count ≤ length bytes.now }
    requires few { length bytes.now ≤ MOST_BYTES }
    requires utf8 { IsUtf8 (take count bytes.now) }
    ensures { result ≡ place_of bytes.now count }
{
    match str::from_utf8(&bytes[..count]) {
        Ok(front) => place_behind(Span { line: 1, column: 1 }, front),
        Err(_) => unreachable!(),
    }
}

/// The place of the end of a text: behind all its characters, blanks and comments included.
pub fn end_of(text: &[u8]) -> Span
    requires few { length text.now ≤ MOST_BYTES }
    requires utf8 { IsUtf8 text.now }
    ensures { result ≡ place_of text.now (length text.now) }
{
    place_behind_bytes(text, text.len())
}

/// All tokens of a source text, or its first refusal.
pub fn lex(alloc: Global, text: &[u8]) -> Result<Vec<Token>, Fault>
    requires { length text.now ≤ MOST_BYTES }
    ensures found { Gives text.now result }
    // There is no other reading.
    ensures only { (reading : Result (List Token) Refusal) → Tokens text.now reading → IsAnswer reading result }
{
    read(alloc, text)
}

/// Reads token by token.
fn read(alloc: Global, text: &[u8]) -> Result<Vec<Token>, Fault>
    requires { length text.now ≤ MOST_BYTES }
    ensures found { Gives text.now result }
{
    let source = match str::from_utf8(text) {
        Ok(source) => source,
        Err(error) => {
            return Err(Fault::Refused(Refusal {
                rule: Rule::NotUtf8,
                at: place_behind_bytes(text, error.valid_up_to()),
            }));
        }
    };
    let mut tokens = Vec::new(alloc);
    let mut from = 0;
    let mut at = Span { line: 1, column: 1 };
    let mut version = false;
    loop {
        let token = match next_token(source, from, at, version) {
            Ok(Some(token)) => token,
            Ok(None) => return Ok(tokens),
            Err(refusal) => return Err(Fault::Refused(refusal)),
        };
        if tokens.push(token).is_err() {
            return Err(Fault::Memory);
        }
        from = token.end as usize;
        at = place_behind(token.at, &source[token.start as usize..from]);
        version = opens_version(token.kind);
    }
}
