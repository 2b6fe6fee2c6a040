//! Statements, by recursive descent. Every recursion passes a level, of which there are 64 at most; lists of
//! statements are loops.

ghost use Rattle.std.specs.Prelude.{◌≡◌, ◌≤◌, ◌<◌, Some, Ok, length, drop, IfOk, OnOk};
ghost use Rattle.qasm_expr.specs.Seen.{Cut, Gives};
ghost use Rattle.qasm_grammar.specs.Reader.{read_stmt, read_all_stmts, read_declaration, read_control, read_conditional, read_while_loop, read_for_loop, read_subroutine_definition};
ghost use Rattle.qasm_grammar.specs.Parts.{opened_statements};
ghost use Rattle.qasm_stmt.specs.Seen.{Sound, Few, Grown, Paid, Spare, IsStatements, IsOpened, IsBlock, IsBody, IsLine, IsOpenLine, deeper_block, deeper_body};

use crate::actions::action;
use crate::arena::{Arena, push};
use crate::begins::{begins_action, begins_declaration, begins_stmt};
use crate::block::{Block, Body, close_or};
use crate::declarations::{
    alias_line, constant_line, creg_line, inclusion, output_line, qreg_line, qubit_line,
    variable_line,
};
use crate::expressions::{any_type, condition};
use crate::gates::gate_definition;
use crate::names::declared;
use crate::parameters::{parameters, result};
use crate::turns::{LoopOver, turns};
use crate::words::{symbol, word};
use qasm_ast::{Items, Stmt, StmtId, StmtKind};
use qasm_expr::parts::{Stop, begins_type, open, sees, sees_word};
use qasm_lexer::{Keyword, Mark, Token};
use std::alloc::Global;

/// A statement that is not yet in its list, and whether it ends in an `if` that has no `else`.
type Opened = (Stmt, bool);

/// A statement, added to its list, and whether it ends in an `if` that has no `else`.
#[cycle(stmt)]
fn stmt(
    alloc: Global,
    text: &[u8],
    tokens: &[Token],
    from: usize,
    room: u32,
    arena: &mut Arena,
) -> Result<((StmtId, bool), usize), Stop>
    requires within { from ≤ length tokens.now }
    requires cut { Cut text.now tokens.now }
    requires few { Few arena.old from }
    requires sound { Sound arena.old }
    ensures gives { Gives (IsOpened arena.new) tokens.now from (read_stmt text.now (Some 64) room (drop from tokens.now)) result }
    ensures grown { OnOk result (Grown arena.old arena.new) }
    ensures paid { IfOk result (λ r. Paid arena.old arena.new from r.1) }
    ensures few { IfOk result (λ r. Few arena.new r.1) }
    ensures sound { OnOk result (Sound arena.new) }
{
    let ((found, is_open), next) = unlisted(alloc, text, tokens, from, room, arena)?;
    let id = push(arena, found)?;
    Ok(((id, is_open), next))
}

/// A statement that is not yet in its list.
#[cycle(stmt)]
fn unlisted(
    alloc: Global,
    text: &[u8],
    tokens: &[Token],
    from: usize,
    room: u32,
    arena: &mut Arena,
) -> Result<(Opened, usize), Stop>
    requires within { from ≤ length tokens.now }
    requires cut { Cut text.now tokens.now }
    requires few { Few arena.old from }
    requires sound { Sound arena.old }
    ensures gives { Gives (IsOpenLine arena.new) tokens.now from (read_stmt text.now (Some 64) room (drop from tokens.now)) result }
    ensures grown { OnOk result (Grown arena.old arena.new) }
    ensures spare { IfOk result (λ r. Spare arena.old arena.new from r.1) }
    ensures few { IfOk result (λ r. Few arena.new r.1) }
    ensures sound { OnOk result (Sound arena.new) }
{
    if begins_declaration(text, tokens, from) {
        let (found, next) = declaration(alloc, text, tokens, from, room, arena)?;
        return Ok(((found, false), next));
    }
    if begins_action(text, tokens, from) {
        let (found, next) = action(alloc, text, tokens, from, room, arena)?;
        return Ok(((found, false), next));
    }
    control(alloc, text, tokens, from, room, arena)
}

/// A declaration.
#[cycle(stmt)]
fn declaration(
    alloc: Global,
    text: &[u8],
    tokens: &[Token],
    from: usize,
    room: u32,
    arena: &mut Arena,
) -> Result<(Stmt, usize), Stop>
    requires within { from ≤ length tokens.now }
    requires cut { Cut text.now tokens.now }
    requires few { Few arena.old from }
    requires sound { Sound arena.old }
    ensures gives { Gives (IsLine arena.new) tokens.now from (read_declaration text.now (Some 64) room (deeper_block text.now room) (drop from tokens.now)) result }
    ensures grown { OnOk result (Grown arena.old arena.new) }
    ensures spare { IfOk result (λ r. from < r.1 → Spare arena.old arena.new from r.1) }
    ensures few { IfOk result (λ r. Few arena.new r.1) }
    ensures sound { OnOk result (Sound arena.new) }
{
    if sees_word(text, tokens, from, Keyword::Include) {
        return inclusion(text, tokens, from, arena);
    }
    if sees_word(text, tokens, from, Keyword::Qubit) {
        return qubit_line(alloc, text, tokens, from, room, arena);
    }
    if sees_word(text, tokens, from, Keyword::Qreg) {
        return qreg_line(alloc, text, tokens, from, room, arena);
    }
    if sees_word(text, tokens, from, Keyword::Creg) {
        return creg_line(alloc, text, tokens, from, room, arena);
    }
    if begins_type(text, tokens, from) {
        return variable_line(alloc, text, tokens, from, room, arena);
    }
    if sees_word(text, tokens, from, Keyword::Const) {
        return constant_line(alloc, text, tokens, from, room, arena);
    }
    if sees_word(text, tokens, from, Keyword::Output) {
        return output_line(alloc, text, tokens, from, room, arena);
    }
    if sees_word(text, tokens, from, Keyword::Let) {
        return alias_line(alloc, text, tokens, from, room, arena);
    }
    if sees_word(text, tokens, from, Keyword::Gate) {
        return gate_definition(alloc, text, tokens, from, room, arena);
    }
    subroutine_definition(alloc, text, tokens, from, room, arena)
}

/// The definition of a subroutine.
#[cycle(stmt)]
fn subroutine_definition(
    alloc: Global,
    text: &[u8],
    tokens: &[Token],
    from: usize,
    room: u32,
    arena: &mut Arena,
) -> Result<(Stmt, usize), Stop>
    requires within { from ≤ length tokens.now }
    requires cut { Cut text.now tokens.now }
    requires few { Few arena.old from }
    requires sound { Sound arena.old }
    ensures gives { Gives (IsLine arena.new) tokens.now from (read_subroutine_definition text.now (Some 64) room (deeper_block text.now room) (drop from tokens.now)) result }
    ensures grown { OnOk result (Grown arena.old arena.new) }
    ensures spare { IfOk result (λ r. Spare arena.old arena.new from r.1) }
    ensures few { IfOk result (λ r. Few arena.new r.1) }
    ensures sound { OnOk result (Sound arena.new) }
{
    let (at, next) = word(text, tokens, from, Keyword::Def)?;
    let (name, next) = declared(alloc, text, tokens, next, arena)?;
    let (params, next) = parameters(alloc, text, tokens, next, room, arena)?;
    let (result, next) = result(alloc, text, tokens, next, room, arena)?;
    let (body, next) = block(alloc, text, tokens, next, room, arena)?;
    let kind = StmtKind::Def {
        name,
        params: Items { items: params },
        result,
        body: Items {
            items: body.statements,
        },
    };
    let close = body.close;
    Ok((Stmt { kind, at, close }, next))
}

/// Statements in braces, one level deeper.
#[cycle(stmt)]
fn block(
    alloc: Global,
    text: &[u8],
    tokens: &[Token],
    from: usize,
    room: u32,
    arena: &mut Arena,
) -> Result<(Block, usize), Stop>
    requires within { from ≤ length tokens.now }
    requires cut { Cut text.now tokens.now }
    requires few { Few arena.old from }
    requires sound { Sound arena.old }
    ensures gives { Gives (IsBlock arena.new) tokens.now from (deeper_block text.now room (drop from tokens.now)) result }
    ensures grown { OnOk result (Grown arena.old arena.new) }
    ensures spare { IfOk result (λ r. Spare arena.old arena.new from r.1) }
    ensures few { IfOk result (λ r. Few arena.new r.1) }
    ensures sound { OnOk result (Sound arena.new) }
{
    let inside = open(text, tokens, from, room, Mark::LeftBrace)?;
    let (statements, next) = stmts(alloc, text, tokens, inside, room - 1, arena)?;
    let (close, next) = symbol(text, tokens, next, Mark::RightBrace)?;
    Ok((Block { statements, close }, next))
}

/// Statements, as many as there are.
#[cycle(stmt)]
pub fn stmts(
    alloc: Global,
    text: &[u8],
    tokens: &[Token],
    from: usize,
    room: u32,
    arena: &mut Arena,
) -> Result<(Vec<StmtId>, usize), Stop>
    requires within { from ≤ length tokens.now }
    requires cut { Cut text.now tokens.now }
    requires few { Few arena.old from }
    requires sound { Sound arena.old }
    ensures gives { Gives (λ v os. IsStatements arena.new v.items (opened_statements os)) tokens.now from (read_all_stmts text.now (Some 64) room (drop from tokens.now)) result }
    ensures grown { OnOk result (Grown arena.old arena.new) }
    ensures paid { IfOk result (λ r. Paid arena.old arena.new from r.1) }
    ensures few { IfOk result (λ r. Few arena.new r.1) }
    ensures sound { OnOk result (Sound arena.new) }
{
    let mut found = Vec::new(alloc);
    let mut at = from;
    'stmts: while begins_stmt(text, tokens, at) {
        let ((id, _), next) = stmt(alloc, text, tokens, at, room, arena)?;
        if found.push(id).is_err() {
            return Err(Stop::Memory);
        }
        at = next;
    }
    Ok((found, at))
}

/// The body of a control statement, one level deeper: statements in braces, or one statement.
#[cycle(stmt)]
fn body(
    alloc: Global,
    text: &[u8],
    tokens: &[Token],
    from: usize,
    room: u32,
    arena: &mut Arena,
) -> Result<(Body, usize), Stop>
    requires within { from ≤ length tokens.now }
    requires cut { Cut text.now tokens.now }
    requires few { Few arena.old from }
    requires sound { Sound arena.old }
    ensures gives { Gives (IsBody arena.new) tokens.now from (deeper_body text.now room (drop from tokens.now)) result }
    ensures grown { OnOk result (Grown arena.old arena.new) }
    ensures paid { IfOk result (λ r. Paid arena.old arena.new from r.1) }
    ensures few { IfOk result (λ r. Few arena.new r.1) }
    ensures sound { OnOk result (Sound arena.new) }
{
    if sees(text, tokens, from, Mark::LeftBrace) {
        let (found, next) = block(alloc, text, tokens, from, room, arena)?;
        let body = Body {
            statements: found.statements,
            is_open: false,
            close: Some(found.close),
        };
        return Ok((body, next));
    }
    if room == 0 {
        return if begins_stmt(text, tokens, from) {
            Err(Stop::Deep(from))
        } else {
            Err(Stop::Syntax(from))
        };
    }
    let ((id, is_open), next) = stmt(alloc, text, tokens, from, room - 1, arena)?;
    let mut statements = Vec::new(alloc);
    if statements.push(id).is_err() {
        return Err(Stop::Memory);
    }
    let body = Body {
        statements,
        is_open,
        close: None,
    };
    Ok((body, next))
}

/// A control statement.
#[cycle(stmt)]
fn control(
    alloc: Global,
    text: &[u8],
    tokens: &[Token],
    from: usize,
    room: u32,
    arena: &mut Arena,
) -> Result<(Opened, usize), Stop>
    requires within { from ≤ length tokens.now }
    requires cut { Cut text.now tokens.now }
    requires few { Few arena.old from }
    requires sound { Sound arena.old }
    ensures gives { Gives (IsOpenLine arena.new) tokens.now from (read_control text.now (Some 64) room (deeper_body text.now room) (drop from tokens.now)) result }
    ensures grown { OnOk result (Grown arena.old arena.new) }
    ensures spare { IfOk result (λ r. Spare arena.old arena.new from r.1) }
    ensures few { IfOk result (λ r. Few arena.new r.1) }
    ensures sound { OnOk result (Sound arena.new) }
{
    if sees_word(text, tokens, from, Keyword::If) {
        return conditional(alloc, text, tokens, from, room, arena);
    }
    if sees_word(text, tokens, from, Keyword::While) {
        return while_loop(alloc, text, tokens, from, room, arena);
    }
    for_loop(alloc, text, tokens, from, room, arena)
}

/// An `if`, with the nearest `else` behind it.
#[cycle(stmt)]
fn conditional(
    alloc: Global,
    text: &[u8],
    tokens: &[Token],
    from: usize,
    room: u32,
    arena: &mut Arena,
) -> Result<(Opened, usize), Stop>
    requires within { from ≤ length tokens.now }
    requires cut { Cut text.now tokens.now }
    requires few { Few arena.old from }
    requires sound { Sound arena.old }
    ensures gives { Gives (IsOpenLine arena.new) tokens.now from (read_conditional text.now (Some 64) room (deeper_body text.now room) (drop from tokens.now)) result }
    ensures grown { OnOk result (Grown arena.old arena.new) }
    ensures spare { IfOk result (λ r. Spare arena.old arena.new from r.1) }
    ensures few { IfOk result (λ r. Few arena.new r.1) }
    ensures sound { OnOk result (Sound arena.new) }
{
    let (at, next) = word(text, tokens, from, Keyword::If)?;
    let (test, next) = condition(alloc, text, tokens, next, room, arena)?;
    let (taken, next) = body(alloc, text, tokens, next, room, arena)?;
    let close = close_or(taken.close, at);
    let yes = Items {
        items: taken.statements,
    };
    if taken.is_open || !sees_word(text, tokens, next, Keyword::Else) {
        let no = Items {
            items: Vec::new(alloc),
        };
        let kind = StmtKind::If(test, yes, no);
        return Ok(((Stmt { kind, at, close }, true), next));
    }
    let (other, next) = body(alloc, text, tokens, next + 1, room, arena)?;
    let close = close_or(other.close, close);
    let no = Items {
        items: other.statements,
    };
    let kind = StmtKind::If(test, yes, no);
    Ok(((Stmt { kind, at, close }, other.is_open), next))
}

/// A `while`.
#[cycle(stmt)]
fn while_loop(
    alloc: Global,
    text: &[u8],
    tokens: &[Token],
    from: usize,
    room: u32,
    arena: &mut Arena,
) -> Result<(Opened, usize), Stop>
    requires within { from ≤ length tokens.now }
    requires cut { Cut text.now tokens.now }
    requires few { Few arena.old from }
    requires sound { Sound arena.old }
    ensures gives { Gives (IsOpenLine arena.new) tokens.now from (read_while_loop text.now (Some 64) room (deeper_body text.now room) (drop from tokens.now)) result }
    ensures grown { OnOk result (Grown arena.old arena.new) }
    ensures spare { IfOk result (λ r. Spare arena.old arena.new from r.1) }
    ensures few { IfOk result (λ r. Few arena.new r.1) }
    ensures sound { OnOk result (Sound arena.new) }
{
    let (at, next) = word(text, tokens, from, Keyword::While)?;
    let (test, next) = condition(alloc, text, tokens, next, room, arena)?;
    let (turn, next) = body(alloc, text, tokens, next, room, arena)?;
    let close = close_or(turn.close, at);
    let kind = StmtKind::While(
        test,
        Items {
            items: turn.statements,
        },
    );
    Ok(((Stmt { kind, at, close }, turn.is_open), next))
}

/// A `for`.
#[cycle(stmt)]
fn for_loop(
    alloc: Global,
    text: &[u8],
    tokens: &[Token],
    from: usize,
    room: u32,
    arena: &mut Arena,
) -> Result<(Opened, usize), Stop>
    requires within { from ≤ length tokens.now }
    requires cut { Cut text.now tokens.now }
    requires few { Few arena.old from }
    requires sound { Sound arena.old }
    ensures gives { Gives (IsOpenLine arena.new) tokens.now from (read_for_loop text.now (Some 64) room (deeper_body text.now room) (drop from tokens.now)) result }
    ensures grown { OnOk result (Grown arena.old arena.new) }
    ensures spare { IfOk result (λ r. Spare arena.old arena.new from r.1) }
    ensures few { IfOk result (λ r. Few arena.new r.1) }
    ensures sound { OnOk result (Sound arena.new) }
{
    let (at, next) = word(text, tokens, from, Keyword::For)?;
    let (ty, next) = any_type(alloc, text, tokens, next, room, arena)?;
    let (name, next) = declared(alloc, text, tokens, next, arena)?;
    let (_, next) = word(text, tokens, next, Keyword::In)?;
    let (over, next) = turns(alloc, text, tokens, next, room, arena)?;
    let (turn, next) = body(alloc, text, tokens, next, room, arena)?;
    let close = close_or(turn.close, at);
    let body = Items {
        items: turn.statements,
    };
    let kind = match over {
        LoopOver::Range(start, step, stop) => StmtKind::ForRange {
            ty,
            name,
            start,
            step,
            stop,
            body,
        },
        LoopOver::Set(members) => StmtKind::ForSet {
            ty,
            name,
            members,
            body,
        },
    };
    Ok(((Stmt { kind, at, close }, turn.is_open), next))
}
