//! Expressions, by recursive descent. Every recursion passes a level, of which there are 64 at most, or a
//! level of operators; chains, lists and indexes are loops.

#![tactic(auto, using(crate::proofs::Growing::grows_same))]

ghost use Rattle.std.specs.Prelude.{◌≡◌, ℕ, ◌≤◌, ◌<◌, ◌+◌, ◌^◌, ◌++◌, ◌∷◌, [], Some, None, Ok, length, drop, slice_get, IfOk, OnOk};
ghost use Rattle.qasm_ast.specs.Tree.{Maybe, trees, brackets};
ghost use Rattle.qasm_ast.specs.Whole.{AllOf, IfThere, IsExpr, IndexFits};
ghost use Rattle.qasm_lexer.specs.Sizes.{bytes_of};
ghost use Rattle.qasm_expr.specs.TokenKinds.{mark_kind};
ghost use Rattle.qasm_expr.specs.Reader.{read_expr, read_unary, read_binary, read_type, read_prim, read_cast, read_between, read_behind_name, read_indexes, read_content, read_behind_colon, read_stop, read_list};
ghost use Rattle.qasm_expr.specs.Seen.{Cut, Gives, Sees, SeesAll, SeesMaybe, SeesBracket, SeesBrackets, SeesCounted, SeesScalar, deeper_expr, deeper_content, tighter};
ghost use Rattle.qasm_expr.specs.Answer.{Grows, Added};

use crate::add::{add, intern, join, literal, name};
use crate::sees::{
    begins_expr, begins_type, expect, may_take, open, operator_at, plain_type_at, sees, sign_at,
    sized_type_at,
};
use crate::stop::Stop;
use indexmap::IndexSet;
use qasm_ast::{
    BinaryOp, Expr, ExprId, ExprKind, IndexRef, Items, OperandName, OperandRef, TypeRef, Word,
};
use qasm_lexer::{Mark, Token};
use qq_base::Span;
use std::alloc::Global;

/// The operators that a chain may have.
const CHAIN: u32 = 64;

/// The levels of binary operators.
const RANKS: usize = 10;

/// A node, and how many operators its chain has up to its end.
type Counted = (ExprId, u32);

/// An expression.
#[cycle(expr)]
pub fn expr(
    alloc: Global,
    text: &[u8],
    tokens: &[Token],
    from: usize,
    room: u32,
    nodes: &mut Vec<Expr>,
    names: &mut IndexSet<Word>,
) -> Result<(ExprId, usize), Stop>
    requires within { from ≤ length tokens.now }
    requires cut { Cut text.now tokens.now }
    requires nodes { length nodes.old.items + length tokens.now < 2 ^ 32 + from }
    requires names { length names.old.keys + length tokens.now < 2 ^ 32 + from }
    ensures gives { Gives (λ x a. Sees names.new.keys nodes.new.items x.0 a) tokens.now from (read_expr text.now (Some 64) room (drop from tokens.now)) result }
    ensures grows { Grows names.old.keys names.new.keys nodes.old.items nodes.new.items }
    ensures added { IfOk result (λ r. Added (length names.old.keys) (length names.new.keys) (length nodes.old.items) (length nodes.new.items) from r.1) }
{
    let ((found, _), at) = binary(alloc, text, tokens, from, room, 0, 0, nodes, names)?;
    Ok((found, at))
}

/// The operators of one level and of the tighter ones, where the chain has `used` before.
#[cycle(expr)]
fn binary(
    alloc: Global,
    text: &[u8],
    tokens: &[Token],
    from: usize,
    room: u32,
    rank: usize,
    used: u32,
    nodes: &mut Vec<Expr>,
    names: &mut IndexSet<Word>,
) -> Result<(Counted, usize), Stop>
    requires within { from ≤ length tokens.now }
    requires cut { Cut text.now tokens.now }
    requires nodes { length nodes.old.items + length tokens.now < 2 ^ 32 + from }
    requires names { length names.old.keys + length tokens.now < 2 ^ 32 + from }
    requires level { rank ≤ 10 }
    requires chain { used ≤ 64 }
    ensures gives { Gives (SeesCounted names.new.keys nodes.new.items) tokens.now from (read_binary text.now (Some 64) (tighter rank) (read_unary text.now (Some 64) room) used (drop from tokens.now)) result }
    ensures grows { Grows names.old.keys names.new.keys nodes.old.items nodes.new.items }
    ensures added { IfOk result (λ r. Added (length names.old.keys) (length names.new.keys) (length nodes.old.items) (length nodes.new.items) from r.1) }
{
    if rank == RANKS {
        return unary(alloc, text, tokens, from, room, used, nodes, names);
    }
    let ((mut left, mut count), mut at) = binary(
        alloc,
        text,
        tokens,
        from,
        room,
        rank + 1,
        used,
        nodes,
        names,
    )?;
    while let Some(op) = operator_at(text, tokens, at, rank) {
        if count >= CHAIN {
            return Err(Stop::Deep(at));
        }
        let ((right, more), next) = binary(
            alloc,
            text,
            tokens,
            at + 1,
            room,
            rank + 1,
            count + 1,
            nodes,
            names,
        )?;
        left = join(nodes, op, left, right)?;
        count = more;
        at = next;
    }
    Ok(((left, count), at))
}

/// An operand with the operators in front of it, and its power.
#[cycle(expr)]
fn unary(
    alloc: Global,
    text: &[u8],
    tokens: &[Token],
    from: usize,
    room: u32,
    used: u32,
    nodes: &mut Vec<Expr>,
    names: &mut IndexSet<Word>,
) -> Result<(Counted, usize), Stop>
    requires within { from ≤ length tokens.now }
    requires cut { Cut text.now tokens.now }
    requires nodes { length nodes.old.items + length tokens.now < 2 ^ 32 + from }
    requires names { length names.old.keys + length tokens.now < 2 ^ 32 + from }
    requires chain { used ≤ 64 }
    ensures gives { Gives (SeesCounted names.new.keys nodes.new.items) tokens.now from (read_unary text.now (Some 64) room used (drop from tokens.now)) result }
    ensures grows { Grows names.old.keys names.new.keys nodes.old.items nodes.new.items }
    ensures added { IfOk result (λ r. Added (length names.old.keys) (length names.new.keys) (length nodes.old.items) (length nodes.new.items) from r.1) }
{
    if let Some(op) = sign_at(text, tokens, from) {
        if room == 0 {
            return Err(Stop::Deep(from));
        }
        let place = tokens[from].at;
        let ((operand, used), at) = unary(
            alloc,
            text,
            tokens,
            from + 1,
            room - 1,
            used,
            nodes,
            names,
        )?;
        let node = add(nodes, ExprKind::Unary(op, operand), place)?;
        return Ok(((node, used), at));
    }
    let (base, at) = prim(alloc, text, tokens, from, room, nodes, names)?;
    if !sees(text, tokens, at, Mark::StarStar) {
        return Ok(((base, used), at));
    }
    if used >= CHAIN {
        return Err(Stop::Deep(at));
    }
    let inside = open(text, tokens, at, room, Mark::StarStar)?;
    let ((right, used), at) = unary(
        alloc,
        text,
        tokens,
        inside,
        room - 1,
        used + 1,
        nodes,
        names,
    )?;
    let node = join(nodes, BinaryOp::Power, base, right)?;
    Ok(((node, used), at))
}

/// An operand.
#[cycle(expr)]
fn prim(
    alloc: Global,
    text: &[u8],
    tokens: &[Token],
    from: usize,
    room: u32,
    nodes: &mut Vec<Expr>,
    names: &mut IndexSet<Word>,
) -> Result<(ExprId, usize), Stop>
    requires within { from ≤ length tokens.now }
    requires cut { Cut text.now tokens.now }
    requires nodes { length nodes.old.items + length tokens.now < 2 ^ 32 + from }
    requires names { length names.old.keys + length tokens.now < 2 ^ 32 + from }
    ensures gives { Gives (λ x a. Sees names.new.keys nodes.new.items x.0 a) tokens.now from (read_prim text.now room (deeper_expr text.now room) (deeper_content text.now room) (drop from tokens.now)) result }
    ensures grows { Grows names.old.keys names.new.keys nodes.old.items nodes.new.items }
    ensures added { IfOk result (λ r. Added (length names.old.keys) (length names.new.keys) (length nodes.old.items) (length nodes.new.items) from r.1) }
{
    if let Some((kind, place)) = literal(alloc, text, tokens, from)? {
        let node = add(nodes, kind, place)?;
        return Ok((node, from + 1));
    }
    if sees(text, tokens, from, Mark::LeftParen) {
        let close = Mark::RightParen;
        return between(
            alloc,
            text,
            tokens,
            from,
            room,
            Mark::LeftParen,
            close,
            nodes,
            names,
        );
    }
    if begins_type(text, tokens, from) {
        return cast(alloc, text, tokens, from, room, nodes, names);
    }
    let (token, at) = name(text, tokens, from)?;
    behind_name(alloc, text, tokens, at, room, token, nodes, names)
}

/// An expression between two marks, of which the first opens a level.
#[cycle(expr)]
pub fn between(
    alloc: Global,
    text: &[u8],
    tokens: &[Token],
    from: usize,
    room: u32,
    left: Mark,
    right: Mark,
    nodes: &mut Vec<Expr>,
    names: &mut IndexSet<Word>,
) -> Result<(ExprId, usize), Stop>
    requires within { from ≤ length tokens.now }
    requires cut { Cut text.now tokens.now }
    requires nodes { length nodes.old.items + length tokens.now < 2 ^ 32 + from }
    requires names { length names.old.keys + length tokens.now < 2 ^ 32 + from }
    ensures gives { Gives (λ x a. Sees names.new.keys nodes.new.items x.0 a) tokens.now from (read_between text.now room (mark_kind left) (mark_kind right) (deeper_expr text.now room) (drop from tokens.now)) result }
    ensures grows { Grows names.old.keys names.new.keys nodes.old.items nodes.new.items }
    ensures added { IfOk result (λ r. Added (length names.old.keys) (length names.new.keys) (length nodes.old.items) (length nodes.new.items) (from + 2) r.1) }
{
    let inside = open(text, tokens, from, room, left)?;
    let (found, at) = expr(alloc, text, tokens, inside, room - 1, nodes, names)?;
    let at = expect(text, tokens, at, right)?;
    Ok((found, at))
}

/// A type, and in round brackets what is cast to it.
#[cycle(expr)]
fn cast(
    alloc: Global,
    text: &[u8],
    tokens: &[Token],
    from: usize,
    room: u32,
    nodes: &mut Vec<Expr>,
    names: &mut IndexSet<Word>,
) -> Result<(ExprId, usize), Stop>
    requires within { from ≤ length tokens.now }
    requires cut { Cut text.now tokens.now }
    requires nodes { length nodes.old.items + length tokens.now < 2 ^ 32 + from }
    requires names { length names.old.keys + length tokens.now < 2 ^ 32 + from }
    ensures gives { Gives (λ x a. Sees names.new.keys nodes.new.items x.0 a) tokens.now from (read_cast text.now room (deeper_expr text.now room) (drop from tokens.now)) result }
    ensures grows { Grows names.old.keys names.new.keys nodes.old.items nodes.new.items }
    ensures added { IfOk result (λ r. Added (length names.old.keys) (length names.new.keys) (length nodes.old.items) (length nodes.new.items) from r.1) }
{
    let (ty, at) = scalar(alloc, text, tokens, from, room, nodes, names)?;
    let close = Mark::RightParen;
    let (operand, at) = between(
        alloc,
        text,
        tokens,
        at,
        room,
        Mark::LeftParen,
        close,
        nodes,
        names,
    )?;
    let node = add(nodes, ExprKind::Cast(ty, operand), ty.at)?;
    Ok((node, at))
}

/// A type with its width.
#[cycle(expr)]
pub fn scalar(
    alloc: Global,
    text: &[u8],
    tokens: &[Token],
    from: usize,
    room: u32,
    nodes: &mut Vec<Expr>,
    names: &mut IndexSet<Word>,
) -> Result<(TypeRef, usize), Stop>
    requires within { from ≤ length tokens.now }
    requires cut { Cut text.now tokens.now }
    requires nodes { length nodes.old.items + length tokens.now < 2 ^ 32 + from }
    requires names { length names.old.keys + length tokens.now < 2 ^ 32 + from }
    ensures gives { Gives (SeesScalar names.new.keys nodes.new.items) tokens.now from (read_type text.now room (deeper_expr text.now room) (drop from tokens.now)) result }
    ensures grows { Grows names.old.keys names.new.keys nodes.old.items nodes.new.items }
    ensures added { IfOk result (λ r. Added (length names.old.keys) (length names.new.keys) (length nodes.old.items) (length nodes.new.items) (from + 1) r.1) }
{
    if let Some(base) = plain_type_at(text, tokens, from) {
        let at = tokens[from].at;
        return Ok((
            TypeRef {
                base,
                width: None,
                at,
            },
            from + 1,
        ));
    }
    let Some(base) = sized_type_at(text, tokens, from) else {
        return Err(Stop::Syntax(from));
    };
    let at = tokens[from].at;
    if !sees(text, tokens, from + 1, Mark::LeftBracket) {
        return Ok((
            TypeRef {
                base,
                width: None,
                at,
            },
            from + 1,
        ));
    }
    let close = Mark::RightBracket;
    let (width, next) = between(
        alloc,
        text,
        tokens,
        from + 1,
        room,
        Mark::LeftBracket,
        close,
        nodes,
        names,
    )?;
    Ok((
        TypeRef {
            base,
            width: Some(width),
            at,
        },
        next,
    ))
}

/// A call of a name, or a name with its index brackets, behind the name.
#[cycle(expr)]
fn behind_name(
    alloc: Global,
    text: &[u8],
    tokens: &[Token],
    from: usize,
    room: u32,
    token: Token,
    nodes: &mut Vec<Expr>,
    names: &mut IndexSet<Word>,
) -> Result<(ExprId, usize), Stop>
    requires within { from ≤ length tokens.now }
    requires cut { Cut text.now tokens.now }
    requires nodes { length nodes.old.items + length tokens.now < 2 ^ 32 + from }
    requires names { length names.old.keys + length tokens.now < 2 ^ 32 + from }
    requires order { token.start ≤ token.end }
    requires inside { token.end ≤ length text.now }
    requires size { length (bytes_of text.now token) ≤ 4096 }
    requires more { length nodes.old.items + length tokens.now + 1 < 2 ^ 32 + from }
    requires more_names { length names.old.keys + length tokens.now + 1 < 2 ^ 32 + from }
    ensures gives { Gives (λ x a. Sees names.new.keys nodes.new.items x.0 a) tokens.now from (read_behind_name text.now room (deeper_expr text.now room) (deeper_content text.now room) (bytes_of text.now token, token.at) (drop from tokens.now)) result }
    ensures grows { Grows names.old.keys names.new.keys nodes.old.items nodes.new.items }
    ensures added { IfOk result (λ r. Added (length names.old.keys) (length names.new.keys) (length nodes.old.items) (length nodes.new.items) from (r.1 + 1)) }
{
    let spelling = &text[token.start as usize..token.end as usize];
    let called = intern(alloc, names, spelling)?;
    if sees(text, tokens, from, Mark::LeftParen) {
        let inside = open(text, tokens, from, room, Mark::LeftParen)?;
        let (args, at) = list(alloc, text, tokens, inside, room - 1, false, nodes, names)?;
        let at = expect(text, tokens, at, Mark::RightParen)?;
        let kind = ExprKind::Call(called, Items { items: args });
        let node = add(nodes, kind, token.at)?;
        return Ok((node, at));
    }
    let (index, at) = indexes(alloc, text, tokens, from, room, nodes, names)?;
    let operand = OperandRef {
        name: OperandName::Name(called),
        index: Items { items: index },
        at: token.at,
    };
    let node = add(nodes, ExprKind::Name(operand), token.at)?;
    Ok((node, at))
}

/// Index brackets, as many as there are.
#[cycle(expr)]
pub fn indexes(
    alloc: Global,
    text: &[u8],
    tokens: &[Token],
    from: usize,
    room: u32,
    nodes: &mut Vec<Expr>,
    names: &mut IndexSet<Word>,
) -> Result<(Vec<IndexRef>, usize), Stop>
    requires within { from ≤ length tokens.now }
    requires cut { Cut text.now tokens.now }
    requires nodes { length nodes.old.items + length tokens.now < 2 ^ 32 + from }
    requires names { length names.old.keys + length tokens.now < 2 ^ 32 + from }
    ensures gives { Gives (λ v bs. SeesBrackets names.new.keys nodes.new.items (length nodes.new.items) v.items (brackets bs)) tokens.now from (read_indexes text.now room (deeper_content text.now room) (drop from tokens.now)) result }
    ensures fits { IfOk result (λ r. AllOf (IndexFits (length nodes.new.items)) r.0.items) }
    ensures grows { Grows names.old.keys names.new.keys nodes.old.items nodes.new.items }
    ensures added { IfOk result (λ r. Added (length names.old.keys) (length names.new.keys) (length nodes.old.items) (length nodes.new.items) from r.1) }
{
    let mut found = Vec::new(alloc);
    let mut at = from;
    'brackets: while sees(text, tokens, at, Mark::LeftBracket) {
        let inside = open(text, tokens, at, room, Mark::LeftBracket)?;
        let (index, next) = content(alloc, text, tokens, inside, room - 1, nodes, names)?;
        let next = expect(text, tokens, next, Mark::RightBracket)?;
        if found.push(index).is_err() {
            return Err(Stop::Memory);
        }
        at = next;
    }
    Ok((found, at))
}

/// What stands between the brackets of an index.
#[cycle(expr)]
fn content(
    alloc: Global,
    text: &[u8],
    tokens: &[Token],
    from: usize,
    room: u32,
    nodes: &mut Vec<Expr>,
    names: &mut IndexSet<Word>,
) -> Result<(IndexRef, usize), Stop>
    requires within { from ≤ length tokens.now }
    requires cut { Cut text.now tokens.now }
    requires nodes { length nodes.old.items + length tokens.now < 2 ^ 32 + from }
    requires names { length names.old.keys + length tokens.now < 2 ^ 32 + from }
    ensures gives { Gives (SeesBracket names.new.keys nodes.new.items (length nodes.new.items)) tokens.now from (read_content text.now room (read_expr text.now (Some 64) room) (deeper_expr text.now room) (drop from tokens.now)) result }
    ensures fits { IfOk result (λ r. IndexFits (length nodes.new.items) r.0) }
    ensures grows { Grows names.old.keys names.new.keys nodes.old.items nodes.new.items }
    ensures added { IfOk result (λ r. Added (length names.old.keys) (length names.new.keys) (length nodes.old.items) (length nodes.new.items) from r.1) }
{
    if sees(text, tokens, from, Mark::LeftBrace) {
        let inside = open(text, tokens, from, room, Mark::LeftBrace)?;
        let (members, at) = list(alloc, text, tokens, inside, room - 1, true, nodes, names)?;
        let at = expect(text, tokens, at, Mark::RightBrace)?;
        return Ok((IndexRef::Set(Items { items: members }), at));
    }
    if sees(text, tokens, from, Mark::Colon) {
        let place = tokens[from].at;
        return behind_colon(
            alloc,
            text,
            tokens,
            from + 1,
            room,
            None,
            place,
            nodes,
            names,
        );
    }
    let (start, at) = expr(alloc, text, tokens, from, room, nodes, names)?;
    if !sees(text, tokens, at, Mark::Colon) {
        return Ok((IndexRef::At(start), at));
    }
    let place = nodes[start.0 as usize].at;
    let start = Some(start);
    behind_colon(
        alloc,
        text,
        tokens,
        at + 1,
        room,
        start,
        place,
        nodes,
        names,
    )
}

/// A range behind its start and the first colon.
#[cycle(expr)]
fn behind_colon(
    alloc: Global,
    text: &[u8],
    tokens: &[Token],
    from: usize,
    room: u32,
    start: Option<ExprId>,
    place: Span,
    nodes: &mut Vec<Expr>,
    names: &mut IndexSet<Word>,
) -> Result<(IndexRef, usize), Stop>
    requires within { from ≤ length tokens.now }
    requires cut { Cut text.now tokens.now }
    requires nodes { length nodes.old.items + length tokens.now < 2 ^ 32 + from }
    requires names { length names.old.keys + length tokens.now < 2 ^ 32 + from }
    requires start { IfThere (IsExpr (length nodes.old.items)) start }
    ensures gives { (first : Maybe) → SeesMaybe names.old.keys nodes.old.items (length nodes.old.items) start first →
        Gives (SeesBracket names.new.keys nodes.new.items (length nodes.new.items)) tokens.now from (read_behind_colon text.now (read_expr text.now (Some 64) room) first place (drop from tokens.now)) result }
    ensures fits { IfOk result (λ r. IndexFits (length nodes.new.items) r.0) }
    ensures grows { Grows names.old.keys names.new.keys nodes.old.items nodes.new.items }
    ensures added { IfOk result (λ r. Added (length names.old.keys) (length names.new.keys) (length nodes.old.items) (length nodes.new.items) from r.1) }
{
    if sees(text, tokens, from, Mark::Colon) {
        return range_end(
            alloc, text, tokens, from, room, start, None, place, nodes, names,
        );
    }
    if !begins_expr(text, tokens, from) {
        let range = IndexRef::Range {
            start,
            step: None,
            stop: None,
            at: place,
        };
        return Ok((range, from));
    }
    let (middle, at) = expr(alloc, text, tokens, from, room, nodes, names)?;
    let second = Some(middle);
    if sees(text, tokens, at, Mark::Colon) {
        return range_end(
            alloc, text, tokens, at, room, start, second, place, nodes, names,
        );
    }
    let range = IndexRef::Range {
        start,
        step: None,
        stop: second,
        at: place,
    };
    Ok((range, at))
}

/// The last of the three parts of a range, with the colon in front of it.
#[cycle(expr)]
fn range_end(
    alloc: Global,
    text: &[u8],
    tokens: &[Token],
    from: usize,
    room: u32,
    start: Option<ExprId>,
    step: Option<ExprId>,
    place: Span,
    nodes: &mut Vec<Expr>,
    names: &mut IndexSet<Word>,
) -> Result<(IndexRef, usize), Stop>
    requires within { from ≤ length tokens.now }
    requires cut { Cut text.now tokens.now }
    requires nodes { length nodes.old.items + length tokens.now < 2 ^ 32 + from }
    requires names { length names.old.keys + length tokens.now < 2 ^ 32 + from }
    requires start { IfThere (IsExpr (length nodes.old.items)) start }
    requires step { IfThere (IsExpr (length nodes.old.items)) step }
    ensures gives { (first second : Maybe) →
        SeesMaybe names.old.keys nodes.old.items (length nodes.old.items) start first →
        SeesMaybe names.old.keys nodes.old.items (length nodes.old.items) step second →
        Gives (SeesBracket names.new.keys nodes.new.items (length nodes.new.items)) tokens.now from (read_stop text.now (read_expr text.now (Some 64) room) first second place (drop from tokens.now)) result }
    ensures fits { IfOk result (λ r. IndexFits (length nodes.new.items) r.0) }
    ensures grows { Grows names.old.keys names.new.keys nodes.old.items nodes.new.items }
    ensures added { IfOk result (λ r. Added (length names.old.keys) (length names.new.keys) (length nodes.old.items) (length nodes.new.items) from r.1) }
{
    let at = expect(text, tokens, from, Mark::Colon)?;
    let (last, next) = expr(alloc, text, tokens, at, room, nodes, names)?;
    let range = IndexRef::Range {
        start,
        step,
        stop: Some(last),
        at: place,
    };
    Ok((range, next))
}

/// Expressions with commas between them, and maybe one behind them; one at least where it is filled.
#[cycle(expr)]
pub fn list(
    alloc: Global,
    text: &[u8],
    tokens: &[Token],
    from: usize,
    room: u32,
    filled: bool,
    nodes: &mut Vec<Expr>,
    names: &mut IndexSet<Word>,
) -> Result<(Vec<ExprId>, usize), Stop>
    requires within { from ≤ length tokens.now }
    requires cut { Cut text.now tokens.now }
    requires nodes { length nodes.old.items + length tokens.now < 2 ^ 32 + from }
    requires names { length names.old.keys + length tokens.now < 2 ^ 32 + from }
    ensures gives { Gives (λ v ts. SeesAll names.new.keys nodes.new.items (length nodes.new.items) v.items (trees ts)) tokens.now from (read_list text.now filled (read_expr text.now (Some 64) room) (drop from tokens.now)) result }
    ensures fits { IfOk result (λ r. AllOf (IsExpr (length nodes.new.items)) r.0.items) }
    ensures grows { Grows names.old.keys names.new.keys nodes.old.items nodes.new.items }
    ensures added { IfOk result (λ r. Added (length names.old.keys) (length names.new.keys) (length nodes.old.items) (length nodes.new.items) from r.1) }
{
    let mut found = Vec::new(alloc);
    let mut at = from;
    let mut first = filled;
    'items: while may_take(text, tokens, at, first) {
        let (item, next) = expr(alloc, text, tokens, at, room, nodes, names)?;
        if found.push(item).is_err() {
            return Err(Stop::Memory);
        }
        first = false;
        if !sees(text, tokens, next, Mark::Comma) {
            return Ok((found, next));
        }
        at = next + 1;
    }
    Ok((found, at))
}
