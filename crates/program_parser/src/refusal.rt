//! The rule and the place of a refusal, by where reading stops.

ghost use Rattle.std.specs.Prelude.{◌≡◌, ◌≤◌, ◌<◌, Some, length, take, drop, IfOk};
ghost use Rattle.qasm_expr.specs.Seen.{Cut};
ghost use Rattle.qasm_grammar.specs.Answer.{ends_in, is_include_word, is_version_word, might_begin, rule_of, rule_where};
ghost use Rattle.program_parser.specs.Refusing.{IsFault, is_at};

use crate::whole::whole;
use qasm_expr::parts::{is_left_out, place_at};
use qasm_lexer::{Keyword, MOST_BYTES, Mark, Token, TokenKind};
use qasm_parser::{Parser, Stop};
use qq_base::{Fault, NoMemory, Refusal, Rule, Span};
use std::alloc::Global;

/// A token `barrier`, at no matter what place: of all tokens it begins statements and members of a gate's
/// body, and stands nowhere else.
const BARRIER: Token = Token {
    kind: TokenKind::Word(Keyword::Barrier),
    start: 0,
    end: 0,
    at: Span { line: 1, column: 1 },
};

/// Whether a statement or a member of a gate's body might begin at a place, limits aside.
fn might_begin(alloc: Global, text: &[u8], tokens: &[Token], at: usize) -> Result<bool, NoMemory>
    requires within { at < length tokens.now }
    requires cut { Cut text.now tokens.now }
    ensures { IfOk result (λ b. b ≡ might_begin text.now (Some 64) 64 (take at tokens.now)) }
{
    let mut front = Vec::from_slice(alloc, &tokens[..at])?;
    front.push(BARRIER)?;
    let mut parser = Parser::new(alloc, text, &front);
    let found = whole(&mut parser);
    let is_end = parser.next().is_none();
    match found {
        Ok(_) => Ok(is_end),
        Err(Stop::Syntax) => Ok(is_end),
        Err(Stop::Deep) => Ok(true),
        Err(Stop::Memory) => Err(NoMemory),
    }
}

/// Whether the token is the word that a version stands behind.
fn is_version_word(kind: TokenKind) -> bool
    ensures { result ≡ is_version_word kind }
{
    matches!(kind, TokenKind::Word(Keyword::OpenQasm))
}

/// Whether the token is the word that a file stands behind.
fn is_include_word(kind: TokenKind) -> bool
    ensures { result ≡ is_include_word kind }
{
    matches!(kind, TokenKind::Word(Keyword::Include))
}

/// Whether the token is the mark `@`.
fn is_at(kind: TokenKind) -> bool
    ensures { result ≡ is_at kind }
{
    matches!(kind, TokenKind::Mark(Mark::At))
}

/// Whether the word of a version stands in front of a place.
fn is_behind_version_word(tokens: &[Token], at: usize) -> bool
    requires within { at ≤ length tokens.now }
    ensures { result ≡ ends_in is_version_word (take at tokens.now) }
{
    at > 0 && is_version_word(tokens[at - 1].kind)
}

/// Whether the word of an include stands in front of a place.
fn is_behind_include(tokens: &[Token], at: usize) -> bool
    requires within { at ≤ length tokens.now }
    ensures { result ≡ ends_in is_include_word (take at tokens.now) }
{
    at > 0 && is_include_word(tokens[at - 1].kind)
}

/// The rule where this holds, else `Syntax`.
fn rule_where(holds: bool, special: Rule) -> Rule
    ensures { result ≡ rule_where holds special }
{
    if holds { special } else { Rule::Syntax }
}

/// The rule of what stands at a place where no program goes on.
fn rule_at(alloc: Global, text: &[u8], tokens: &[Token], at: usize) -> Result<Rule, NoMemory>
    requires within { at ≤ length tokens.now }
    requires cut { Cut text.now tokens.now }
    ensures { IfOk result (λ rule. rule ≡ rule_of text.now (Some 64) 64 (take at tokens.now) (drop at tokens.now)) }
{
    if at == tokens.len() {
        return Ok(Rule::Syntax);
    }
    let kind = tokens[at].kind;
    if is_version_word(kind) {
        let holds = might_begin(alloc, text, tokens, at)?;
        return Ok(rule_where(holds, Rule::Version));
    }
    if is_at(kind) {
        let holds = might_begin(alloc, text, tokens, at)?;
        return Ok(rule_where(holds, Rule::LeftOut));
    }
    Ok(match kind {
        TokenKind::Version { .. } => rule_where(is_behind_version_word(tokens, at), Rule::Version),
        TokenKind::Text => rule_where(is_behind_include(tokens, at), Rule::Include),
        _ => rule_where(is_left_out(kind), Rule::LeftOut),
    })
}

/// The fault of a program, by where and why reading stopped.
pub fn fault_of(alloc: Global, text: &str, tokens: &[Token], at: usize, stop: Stop) -> Fault
    requires size { length text.now ≤ MOST_BYTES }
    requires within { at ≤ length tokens.now }
    requires cut { Cut text.now tokens.now }
    ensures { IsFault text.now tokens.now at stop result }
{
    match stop {
        Stop::Memory => Fault::Memory,
        Stop::Syntax => match rule_at(alloc, text.as_bytes(), tokens, at) {
            Ok(rule) => Fault::Refused(Refusal {
                rule,
                at: place_at(text, tokens, at),
            }),
            Err(NoMemory) => Fault::Memory,
        },
        Stop::Deep => Fault::Refused(Refusal {
            rule: Rule::NestingDeep,
            at: place_at(text, tokens, at),
        }),
    }
}
