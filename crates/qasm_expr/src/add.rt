//! New nodes and names.

ghost use Rattle.std.specs.Prelude.{◌≡◌, ◌⊎◌, ◌≤◌, ◌<◌, ◌+◌, ◌^◌, ◌++◌, ◌∷◌, ◌==◌, ◌||◌, map, filter, false, [], Some, None, Ok, Err, length, drop, slice_get, slice_range, IfOk, IfErr, OnOk, MatchOption};
ghost use Rattle.grammar_parts.specs.Reading.{heads, take_one};
ghost use Rattle.grammar_parts.specs.Kinds.{among};
ghost use Rattle.qasm_ast.specs.Whole.{ExprFits};
ghost use Rattle.qasm_lexer.specs.Sizes.{bytes_of};
ghost use Rattle.qasm_expr.specs.TokenKinds.{kind, bits_of};
ghost use Rattle.qasm_expr.specs.Grammar.{literal_of, name_of};
ghost use Rattle.qasm_expr.specs.Reader.{literal_kinds};
ghost use Rattle.qasm_expr.specs.Seen.{Cut, Literal, Gives, Joins};
ghost use Rattle.qasm_expr.specs.declared.stop.Stop.TheVariants.{Memory, Syntax};

use crate::sees::is_bits;
use crate::stop::Stop;
use indexmap::IndexSet;
use qasm_ast::{BinaryOp, BitText, Expr, ExprId, ExprKind, Word};
use qasm_lexer::{Keyword, Token, TokenKind};
use qq_base::Span;
use std::alloc::{AllocError, Global};

/// Adds a node, and gives its number.
pub fn add(nodes: &mut Vec<Expr>, kind: ExprKind, at: Span) -> Result<ExprId, Stop>
    requires room { length nodes.old.items < 2 ^ 32 }
    ensures id { IfOk result (λ id. id.0 ≡ length nodes.old.items) }
    ensures items { OnOk result (nodes.new.items ≡ nodes.old.items ++ record { kind = kind; at = at } ∷ []) }
    ensures memory { IfErr result (λ e. e ≡ Memory) }
    ensures err { IfErr result (λ e. nodes.new.items ≡ nodes.old.items) }
{
    let id = ExprId(nodes.len() as u32);
    match nodes.push(Expr { kind, at }) {
        Ok(()) => Ok(id),
        Err(_) => Err(Stop::Memory),
    }
}

/// Gives the number of the name that is spelled by these bytes, a new one where it is new.
pub fn intern(alloc: Global, names: &mut IndexSet<Word>, spelling: &[u8]) -> Result<u32, Stop>
    requires room { length names.old.keys < 2 ^ 32 }
    ensures found { IfOk result (λ k. slice_get names.new.keys k ≡ Some spelling.now) }
    ensures kept { IfOk result (λ k. (names.new.keys ≡ names.old.keys) ⊎ (names.new.keys ≡ names.old.keys ++ spelling.now ∷ [])) }
    ensures memory { IfErr result (λ e. e ≡ Memory) }
    ensures err { IfErr result (λ e. names.new.keys ≡ names.old.keys) }
{
    let word = match Vec::from_slice(alloc, spelling) {
        Ok(items) => Word { items },
        Err(_) => return Err(Stop::Memory),
    };
    match names.insert_full(word) {
        Ok((place, _)) => Ok(place as u32),
        Err(_) => Err(Stop::Memory),
    }
}

/// The node of a literal that is no text.
fn plain_literal(kind: TokenKind) -> Option<ExprKind>
    ensures { result ≡ Rattle.qasm_expr.specs.Seen.plain_literal kind }
{
    match kind {
        TokenKind::Whole(n) => Some(ExprKind::Whole(n)),
        TokenKind::Hardware(n) => Some(ExprKind::Hardware(n)),
        TokenKind::Word(Keyword::True) => Some(ExprKind::Truth(true)),
        TokenKind::Word(Keyword::False) => Some(ExprKind::Truth(false)),
        _ => None,
    }
}

fn is_text(kind: TokenKind) -> bool
    ensures { result ≡ Rattle.qasm_expr.specs.Seen.is_text kind }
{
    match kind {
        TokenKind::Text => true,
        _ => false,
    }
}

fn is_name(kind: TokenKind) -> bool
    ensures { result ≡ Rattle.qasm_expr.specs.Seen.is_name kind }
{
    match kind {
        TokenKind::Name => true,
        _ => false,
    }
}

/// The digits among some characters.
fn digits(alloc: Global, spelling: &[u8]) -> Result<Vec<bool>, AllocError>
    ensures { IfOk result (λ v. v.items ≡ map (λ b. b == 49) (filter (λ b. (b == 48) || (b == 49)) spelling.now)) }
{
    spelling
        .iter()
        .copied()
        .filter(|b| *b == b'0' || *b == b'1')
        .map(|b| b == b'1')
        .collect(alloc)
}

/// The bits of a bit string, from its characters.
fn bits(alloc: Global, spelling: &[u8]) -> Result<Option<BitText>, Stop>
    ensures value { IfOk result (λ found. found ≡ bits_of spelling.now) }
    ensures memory { IfErr result (λ e. e ≡ Memory) }
{
    if is_bits(spelling) {
        return match digits(alloc, spelling) {
            Ok(items) => Ok(Some(BitText { items })),
            Err(_) => Err(Stop::Memory),
        };
    }
    Ok(None)
}

/// The literal at a place, with its node, where one stands there.
pub fn literal(
    alloc: Global,
    text: &[u8],
    tokens: &[Token],
    at: usize,
) -> Result<Option<(ExprKind, Span)>, Stop>
    requires within { at ≤ length tokens.now }
    requires cut { Cut text.now tokens.now }
    ensures found { IfOk result (λ found. MatchOption found
        (heads (among (kind text.now) literal_kinds) (drop at tokens.now) ≡ false)
        (λ p. Literal text.now tokens.now at p.0 p.1)) }
    ensures memory { IfErr result (λ e. e ≡ Memory) }
{
    if at == tokens.len() {
        return Ok(None);
    }
    let token = tokens[at];
    if is_text(token.kind) {
        return match bits(alloc, &text[token.start as usize..token.end as usize])? {
            None => Ok(None),
            Some(found) => Ok(Some((ExprKind::Bits(found), token.at))),
        };
    }
    match plain_literal(token.kind) {
        None => Ok(None),
        Some(kind) => Ok(Some((kind, token.at))),
    }
}

/// The name at a place.
pub fn name(text: &[u8], tokens: &[Token], at: usize) -> Result<(Token, usize), Stop>
    requires within { at ≤ length tokens.now }
    requires cut { Cut text.now tokens.now }
    ensures gives { Gives (λ x a. (a ≡ (bytes_of text.now x, x.at)) × (x.start ≤ x.end) × (x.end ≤ length text.now) × (length (bytes_of text.now x) ≤ 4096)) tokens.now at (take_one (name_of text.now) (drop at tokens.now)) result }
    ensures memory { IfErr result (λ e. e ≡ Syntax at) }
    ensures next { IfOk result (λ r. r.1 ≡ at + 1) }
{
    if at < tokens.len() && is_name(tokens[at].kind) {
        return Ok((tokens[at], at + 1));
    }
    Err(Stop::Syntax(at))
}

/// Adds the node of a binary operator, at the place of its first operand.
pub fn join(
    nodes: &mut Vec<Expr>,
    op: BinaryOp,
    left: ExprId,
    right: ExprId,
) -> Result<ExprId, Stop>
    requires room { length nodes.old.items < 2 ^ 32 }
    requires left { left.0 < length nodes.old.items }
    ensures id { IfOk result (λ id. id.0 ≡ length nodes.old.items) }
    ensures items { OnOk result (Joins nodes.old.items nodes.new.items op left right) }
    ensures memory { IfErr result (λ e. e ≡ Memory) }
    ensures err { IfErr result (λ e. nodes.new.items ≡ nodes.old.items) }
{
    let at = nodes[left.0 as usize].at;
    add(nodes, ExprKind::Binary(op, left, right), at)
}
