//! What a `for` goes over.

ghost use Rattle.std.specs.Prelude.{◌≡◌, ◌≤◌, Some, Ok, length, drop, IfOk, OnOk};
ghost use Rattle.qasm_expr.specs.Seen.{Cut, Gives};
ghost use Rattle.qasm_ast.specs.Tree.{Tree};
ghost use Rattle.qasm_grammar.specs.Reader.{read_behind_second, read_span, read_chosen, read_turns};
ghost use Rattle.qasm_stmt.specs.Seen.{Sound, Few, Grown, IsTree, IsTurns};

use crate::arena::Arena;
use crate::expressions::{expression, members};
use qasm_ast::{ExprId, Items};
use qasm_expr::parts::{Stop, expect, open, sees};
use qasm_lexer::{Mark, Token};
use std::alloc::Global;

/// What a `for` goes over: a range, or the members of a set.
#[derive(Drop)]
pub enum LoopOver {
    Range(ExprId, Option<ExprId>, ExprId),
    Set(Items<ExprId>),
}

/// A range: of three parts the middle one is the step.
fn span(
    alloc: Global,
    text: &[u8],
    tokens: &[Token],
    from: usize,
    room: u32,
    arena: &mut Arena,
) -> Result<(LoopOver, usize), Stop>
    requires within { from ≤ length tokens.now }
    requires cut { Cut text.now tokens.now }
    requires few { Few arena.old from }
    requires sound { Sound arena.old }
    ensures gives { Gives (IsTurns arena.new) tokens.now from (read_span text.now (Some 64) room (drop from tokens.now)) result }
    ensures grown { OnOk result (Grown arena.old arena.new) }
    ensures kept { OnOk result (arena.new.stmts.items ≡ arena.old.stmts.items) }
    ensures few { IfOk result (λ r. Few arena.new r.1) }
    ensures sound { OnOk result (Sound arena.new) }
{
    let inside = open(text, tokens, from, room, Mark::LeftBracket)?;
    let (start, at) = expression(alloc, text, tokens, inside, room - 1, arena)?;
    let at = expect(text, tokens, at, Mark::Colon)?;
    let (second, at) = expression(alloc, text, tokens, at, room - 1, arena)?;
    if !sees(text, tokens, at, Mark::Colon) {
        let at = expect(text, tokens, at, Mark::RightBracket)?;
        return Ok((LoopOver::Range(start, None, second), at));
    }
    let (third, at) = expression(alloc, text, tokens, at + 1, room - 1, arena)?;
    let at = expect(text, tokens, at, Mark::RightBracket)?;
    Ok((LoopOver::Range(start, Some(second), third), at))
}

/// The members of a set.
fn chosen(
    alloc: Global,
    text: &[u8],
    tokens: &[Token],
    from: usize,
    room: u32,
    arena: &mut Arena,
) -> Result<(LoopOver, usize), Stop>
    requires within { from ≤ length tokens.now }
    requires cut { Cut text.now tokens.now }
    requires few { Few arena.old from }
    requires sound { Sound arena.old }
    ensures gives { Gives (IsTurns arena.new) tokens.now from (read_chosen text.now (Some 64) room (drop from tokens.now)) result }
    ensures grown { OnOk result (Grown arena.old arena.new) }
    ensures kept { OnOk result (arena.new.stmts.items ≡ arena.old.stmts.items) }
    ensures few { IfOk result (λ r. Few arena.new r.1) }
    ensures sound { OnOk result (Sound arena.new) }
{
    let inside = open(text, tokens, from, room, Mark::LeftBrace)?;
    let (found, at) = members(alloc, text, tokens, inside, room - 1, arena)?;
    let at = expect(text, tokens, at, Mark::RightBrace)?;
    Ok((LoopOver::Set(Items { items: found }), at))
}

/// What a `for` goes over.
pub fn turns(
    alloc: Global,
    text: &[u8],
    tokens: &[Token],
    from: usize,
    room: u32,
    arena: &mut Arena,
) -> Result<(LoopOver, usize), Stop>
    requires within { from ≤ length tokens.now }
    requires cut { Cut text.now tokens.now }
    requires few { Few arena.old from }
    requires sound { Sound arena.old }
    ensures gives { Gives (IsTurns arena.new) tokens.now from (read_turns text.now (Some 64) room (drop from tokens.now)) result }
    ensures grown { OnOk result (Grown arena.old arena.new) }
    ensures kept { OnOk result (arena.new.stmts.items ≡ arena.old.stmts.items) }
    ensures few { IfOk result (λ r. Few arena.new r.1) }
    ensures sound { OnOk result (Sound arena.new) }
{
    if sees(text, tokens, from, Mark::LeftBracket) {
        return span(alloc, text, tokens, from, room, arena);
    }
    chosen(alloc, text, tokens, from, room, arena)
}
