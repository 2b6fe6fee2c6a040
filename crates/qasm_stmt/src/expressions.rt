//! Expressions and types of a statement, read into its lists.

ghost use Rattle.std.specs.Prelude.{◌≡◌, ◌≤◌, true, Some, Ok, length, drop, IfOk, OnOk};
ghost use Rattle.qasm_expr.specs.Seen.{Cut, Gives};
ghost use Rattle.qasm_expr.specs.Reader.{read_expr, read_indexes, read_arguments, read_list};
ghost use Rattle.qasm_grammar.specs.Reader.{read_inner, read_inside, read_condition, read_any_width, read_any_type};
ghost use Rattle.qasm_stmt.specs.Seen.{Sound, Few, Grown, IsList, IfBoth, IsTree, IsTrees, IsType, IsBrackets};

use crate::arena::Arena;
use qasm_ast::{ExprId, IndexRef, TypeRef};
use qasm_expr::parts::{Stop, between, expect, expr, indexes, list, open, scalar, sees};
use qasm_lexer::{Mark, Token};
use std::alloc::Global;

/// An expression.
pub fn expression(
    alloc: Global,
    text: &[u8],
    tokens: &[Token],
    from: usize,
    room: u32,
    arena: &mut Arena,
) -> Result<(ExprId, usize), Stop>
    requires within { from ≤ length tokens.now }
    requires cut { Cut text.now tokens.now }
    requires few { Few arena.old from }
    requires sound { Sound arena.old }
    ensures gives { Gives (IsTree arena.new) tokens.now from (read_expr text.now (Some 64) room (drop from tokens.now)) result }
    ensures grown { OnOk result (Grown arena.old arena.new) }
    ensures kept { OnOk result (arena.new.stmts.items ≡ arena.old.stmts.items) }
    ensures few { IfOk result (λ r. Few arena.new r.1) }
    ensures sound { OnOk result (Sound arena.new) }
{
    expr(
        alloc,
        text,
        tokens,
        from,
        room,
        &mut arena.exprs,
        &mut arena.names,
    )
}

/// An expression in round brackets.
pub fn condition(
    alloc: Global,
    text: &[u8],
    tokens: &[Token],
    from: usize,
    room: u32,
    arena: &mut Arena,
) -> Result<(ExprId, usize), Stop>
    requires within { from ≤ length tokens.now }
    requires cut { Cut text.now tokens.now }
    requires few { Few arena.old from }
    requires sound { Sound arena.old }
    ensures gives { Gives (IsTree arena.new) tokens.now from (read_condition text.now (Some 64) room (drop from tokens.now)) result }
    ensures grown { OnOk result (Grown arena.old arena.new) }
    ensures kept { OnOk result (arena.new.stmts.items ≡ arena.old.stmts.items) }
    ensures few { IfOk result (λ r. Few arena.new r.1) }
    ensures sound { OnOk result (Sound arena.new) }
{
    let (left, right) = (Mark::LeftParen, Mark::RightParen);
    between(
        alloc,
        text,
        tokens,
        from,
        room,
        left,
        right,
        &mut arena.exprs,
        &mut arena.names,
    )
}

/// A width in square brackets, or none.
pub fn any_width(
    alloc: Global,
    text: &[u8],
    tokens: &[Token],
    from: usize,
    room: u32,
    arena: &mut Arena,
) -> Result<(Option<ExprId>, usize), Stop>
    requires within { from ≤ length tokens.now }
    requires cut { Cut text.now tokens.now }
    requires few { Few arena.old from }
    requires sound { Sound arena.old }
    ensures gives { Gives (IfBoth (IsTree arena.new)) tokens.now from (read_any_width text.now (Some 64) room (drop from tokens.now)) result }
    ensures grown { OnOk result (Grown arena.old arena.new) }
    ensures kept { OnOk result (arena.new.stmts.items ≡ arena.old.stmts.items) }
    ensures few { IfOk result (λ r. Few arena.new r.1) }
    ensures sound { OnOk result (Sound arena.new) }
{
    if !sees(text, tokens, from, Mark::LeftBracket) {
        return Ok((None, from));
    }
    let (left, right) = (Mark::LeftBracket, Mark::RightBracket);
    let (found, at) = between(
        alloc,
        text,
        tokens,
        from,
        room,
        left,
        right,
        &mut arena.exprs,
        &mut arena.names,
    )?;
    Ok((Some(found), at))
}

/// A type of classical values.
pub fn any_type(
    alloc: Global,
    text: &[u8],
    tokens: &[Token],
    from: usize,
    room: u32,
    arena: &mut Arena,
) -> Result<(TypeRef, usize), Stop>
    requires within { from ≤ length tokens.now }
    requires cut { Cut text.now tokens.now }
    requires few { Few arena.old from }
    requires sound { Sound arena.old }
    ensures gives { Gives (IsType arena.new) tokens.now from (read_any_type text.now (Some 64) room (drop from tokens.now)) result }
    ensures grown { OnOk result (Grown arena.old arena.new) }
    ensures kept { OnOk result (arena.new.stmts.items ≡ arena.old.stmts.items) }
    ensures few { IfOk result (λ r. Few arena.new r.1) }
    ensures sound { OnOk result (Sound arena.new) }
{
    scalar(
        alloc,
        text,
        tokens,
        from,
        room,
        &mut arena.exprs,
        &mut arena.names,
    )
}

/// Index brackets, as many as there are.
pub fn brackets(
    alloc: Global,
    text: &[u8],
    tokens: &[Token],
    from: usize,
    room: u32,
    arena: &mut Arena,
) -> Result<(Vec<IndexRef>, usize), Stop>
    requires within { from ≤ length tokens.now }
    requires cut { Cut text.now tokens.now }
    requires few { Few arena.old from }
    requires sound { Sound arena.old }
    ensures gives { Gives (λ v bs. IsBrackets arena.new v.items bs) tokens.now from (read_indexes text.now room (read_inside text.now (Some 64) room) (drop from tokens.now)) result }
    ensures grown { OnOk result (Grown arena.old arena.new) }
    ensures kept { OnOk result (arena.new.stmts.items ≡ arena.old.stmts.items) }
    ensures few { IfOk result (λ r. Few arena.new r.1) }
    ensures sound { OnOk result (Sound arena.new) }
{
    indexes(
        alloc,
        text,
        tokens,
        from,
        room,
        &mut arena.exprs,
        &mut arena.names,
    )
}

/// Arguments in round brackets.
pub fn arguments(
    alloc: Global,
    text: &[u8],
    tokens: &[Token],
    from: usize,
    room: u32,
    arena: &mut Arena,
) -> Result<(Vec<ExprId>, usize), Stop>
    requires within { from ≤ length tokens.now }
    requires cut { Cut text.now tokens.now }
    requires few { Few arena.old from }
    requires sound { Sound arena.old }
    ensures gives { Gives (λ v ts. IsList (IsTree arena.new) v.items ts) tokens.now from (read_arguments text.now room (read_inner text.now (Some 64) room) (drop from tokens.now)) result }
    ensures grown { OnOk result (Grown arena.old arena.new) }
    ensures kept { OnOk result (arena.new.stmts.items ≡ arena.old.stmts.items) }
    ensures few { IfOk result (λ r. Few arena.new r.1) }
    ensures sound { OnOk result (Sound arena.new) }
{
    let inside = open(text, tokens, from, room, Mark::LeftParen)?;
    let (found, at) = list(
        alloc,
        text,
        tokens,
        inside,
        room - 1,
        false,
        &mut arena.exprs,
        &mut arena.names,
    )?;
    let at = expect(text, tokens, at, Mark::RightParen)?;
    Ok((found, at))
}

/// One expression at least, with commas between them, and maybe one behind them.
pub fn members(
    alloc: Global,
    text: &[u8],
    tokens: &[Token],
    from: usize,
    room: u32,
    arena: &mut Arena,
) -> Result<(Vec<ExprId>, usize), Stop>
    requires within { from ≤ length tokens.now }
    requires cut { Cut text.now tokens.now }
    requires few { Few arena.old from }
    requires sound { Sound arena.old }
    ensures gives { Gives (λ v ts. IsList (IsTree arena.new) v.items ts) tokens.now from (read_list text.now true (read_expr text.now (Some 64) room) (drop from tokens.now)) result }
    ensures grown { OnOk result (Grown arena.old arena.new) }
    ensures kept { OnOk result (arena.new.stmts.items ≡ arena.old.stmts.items) }
    ensures few { IfOk result (λ r. Few arena.new r.1) }
    ensures sound { OnOk result (Sound arena.new) }
{
    list(
        alloc,
        text,
        tokens,
        from,
        room,
        true,
        &mut arena.exprs,
        &mut arena.names,
    )
}
