//! Refusals, by where reading stops.

ghost use Rattle.std.specs.Prelude.{◌≡◌, ◌≤◌, Ok, length, drop};
ghost use Rattle.qasm_expr.specs.Answer.{place_at, rule_at, fault_of, IsWithin};

use crate::stop::Stop;
use qasm_lexer::{Keyword, MOST_BYTES, Mark, Token, TokenKind, end_of};
use qq_base::{Fault, Refusal, Rule, Span};

/// Whether the profile leaves the word out.
fn is_left_out_word(word: Keyword) -> bool
    ensures { result ≡ Rattle.qasm_expr.specs.Answer.is_left_out_word word }
{
    matches!(
        word,
        Keyword::Float
            | Keyword::Complex
            | Keyword::Array
            | Keyword::Duration
            | Keyword::Stretch
            | Keyword::Box
            | Keyword::Delay
            | Keyword::DurationOf
            | Keyword::Defcal
            | Keyword::Cal
            | Keyword::DefcalGrammar
            | Keyword::Extern
            | Keyword::Pragma
            | Keyword::Input
            | Keyword::Readonly
            | Keyword::Mutable
            | Keyword::Void
            | Keyword::Switch
            | Keyword::Case
            | Keyword::Default
            | Keyword::Negctrl
            | Keyword::Euler
            | Keyword::EulerSign
    )
}

/// Whether the profile leaves the token out: a word, or the mark `#`.
pub fn is_left_out(kind: TokenKind) -> bool
    ensures { result ≡ Rattle.qasm_expr.specs.Answer.is_left_out kind }
{
    match kind {
        TokenKind::Word(word) => is_left_out_word(word),
        TokenKind::Mark(Mark::Hash) => true,
        _ => false,
    }
}

/// The rule of what stands at a place where no expression goes on.
fn rule_at(tokens: &[Token], at: usize) -> Rule
    requires { at ≤ length tokens.now }
    ensures { result ≡ rule_at (drop at tokens.now) }
{
    if at < tokens.len() && is_left_out(tokens[at].kind) {
        Rule::LeftOut
    } else {
        Rule::Syntax
    }
}

/// The place in the text of the token at a place, or of the end of the text.
pub fn place_at(text: &str, tokens: &[Token], at: usize) -> Span
    requires size { length text.now ≤ MOST_BYTES }
    requires within { at ≤ length tokens.now }
    ensures { result ≡ place_at text.now (drop at tokens.now) }
{
    if at < tokens.len() {
        tokens[at].at
    } else {
        end_of(text.as_bytes())
    }
}

/// The fault of a call, by where reading stopped.
pub fn fault_of(text: &str, tokens: &[Token], stop: Stop) -> Fault
    requires size { length text.now ≤ MOST_BYTES }
    requires within { IsWithin (length tokens.now) stop }
    ensures { result ≡ fault_of text.now tokens.now stop }
{
    match stop {
        Stop::Memory => Fault::Memory,
        Stop::Syntax(at) => Fault::Refused(Refusal {
            rule: rule_at(tokens, at),
            at: place_at(text, tokens, at),
        }),
        Stop::Deep(at) => Fault::Refused(Refusal {
            rule: Rule::NestingDeep,
            at: place_at(text, tokens, at),
        }),
    }
}
