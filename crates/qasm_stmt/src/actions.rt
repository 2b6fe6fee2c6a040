//! Actions: calls of gates and subroutines, assignments, measurements and single words.

ghost use Rattle.std.specs.Prelude.{◌≡◌, ◌≢◌, ◌≤◌, ◌<◌, ℕ, List, Some, Ok, length, drop, IfOk, IfErr, OnOk, OnSome};
ghost use Rattle.qq_base.specs.declared.refusal.Span.{Span};
ghost use Rattle.qasm_ast.specs.Tree.{Operand, break, continue, end};
ghost use Rattle.qasm_lexer.specs.declared.token.Keyword.TheVariants.{Break, Continue, End};
ghost use Rattle.qasm_grammar.specs.Grammar.{assign_operators};
ghost use Rattle.qasm_grammar.specs.Parts.{declared as named};
ghost use Rattle.qasm_expr.specs.Seen.{Cut, Gives, head_in};
ghost use Rattle.qasm_expr.specs.declared.stop.Stop.TheVariants.{Memory};
ghost use Rattle.qasm_grammar.specs.Reader.{read_word_line, read_barrier_line, read_reset_line, read_measure_line, read_return_line, read_assigned, read_behind_name, read_action, read_aim, read_returned};
ghost use Rattle.qasm_stmt.specs.Seen.{Sound, Few, Grown, IfBoth, IsOperand, IsValue, IsName, IsLine};

use crate::arena::Arena;
use crate::begins::{begins_assignment, begins_change, begins_value};
use crate::calls::{applied, call_line, statement};
use crate::declarations::line;
use crate::expressions::{arguments, brackets, expression};
use crate::names::declared;
use crate::operands::{operand, operands, target, value};
use crate::words::word;
use qasm_ast::{
    BinaryOp, Declared, ExprKind, Items, OperandName, OperandRef, Stmt, StmtKind, ValueRef,
};
use qasm_expr::parts::{Stop, add, expect, sees, sees_word};
use qasm_lexer::{Keyword, Mark, Token, TokenKind};
use std::alloc::Global;

/// A barrier on operands, or on all qubits.
pub fn barrier_line(
    alloc: Global,
    text: &[u8],
    tokens: &[Token],
    from: usize,
    room: u32,
    arena: &mut Arena,
) -> Result<(Stmt, usize), Stop>
    requires within { from ≤ length tokens.now }
    requires cut { Cut text.now tokens.now }
    requires few { Few arena.old from }
    requires sound { Sound arena.old }
    ensures gives { Gives (IsLine arena.new) tokens.now from (read_barrier_line text.now (Some 64) room (drop from tokens.now)) result }
    ensures grown { OnOk result (Grown arena.old arena.new) }
    ensures kept { OnOk result (arena.new.stmts.items ≡ arena.old.stmts.items) }
    ensures few { IfOk result (λ r. Few arena.new r.1) }
    ensures sound { OnOk result (Sound arena.new) }
{
    let (at, next) = word(text, tokens, from, Keyword::Barrier)?;
    let (found, next) = operands(alloc, text, tokens, next, room, false, arena)?;
    let next = expect(text, tokens, next, Mark::Semicolon)?;
    Ok((line(StmtKind::Barrier(Items { items: found }), at), next))
}

/// A reset.
fn reset_line(
    alloc: Global,
    text: &[u8],
    tokens: &[Token],
    from: usize,
    room: u32,
    arena: &mut Arena,
) -> Result<(Stmt, usize), Stop>
    requires within { from ≤ length tokens.now }
    requires cut { Cut text.now tokens.now }
    requires few { Few arena.old from }
    requires sound { Sound arena.old }
    ensures gives { Gives (IsLine arena.new) tokens.now from (read_reset_line text.now (Some 64) room (drop from tokens.now)) result }
    ensures grown { OnOk result (Grown arena.old arena.new) }
    ensures kept { OnOk result (arena.new.stmts.items ≡ arena.old.stmts.items) }
    ensures few { IfOk result (λ r. Few arena.new r.1) }
    ensures sound { OnOk result (Sound arena.new) }
{
    let (at, next) = word(text, tokens, from, Keyword::Reset)?;
    let (found, next) = operand(alloc, text, tokens, next, room, arena)?;
    let next = expect(text, tokens, next, Mark::Semicolon)?;
    Ok((line(StmtKind::Reset(found), at), next))
}

/// The target of a measurement behind its arrow, or none.
fn aim(
    alloc: Global,
    text: &[u8],
    tokens: &[Token],
    from: usize,
    room: u32,
    arena: &mut Arena,
) -> Result<(Option<OperandRef>, usize), Stop>
    requires within { from ≤ length tokens.now }
    requires cut { Cut text.now tokens.now }
    requires few { Few arena.old from }
    requires sound { Sound arena.old }
    ensures gives { Gives (IfBoth (IsOperand arena.new)) tokens.now from (read_aim text.now (Some 64) room (drop from tokens.now)) result }
    ensures grown { OnOk result (Grown arena.old arena.new) }
    ensures kept { OnOk result (arena.new.stmts.items ≡ arena.old.stmts.items) }
    ensures few { IfOk result (λ r. Few arena.new r.1) }
    ensures sound { OnOk result (Sound arena.new) }
{
    if !sees(text, tokens, from, Mark::Arrow) {
        return Ok((None, from));
    }
    let (found, next) = target(alloc, text, tokens, from + 1, room, arena)?;
    Ok((Some(found), next))
}

/// A measurement.
fn measure_line(
    alloc: Global,
    text: &[u8],
    tokens: &[Token],
    from: usize,
    room: u32,
    arena: &mut Arena,
) -> Result<(Stmt, usize), Stop>
    requires within { from ≤ length tokens.now }
    requires cut { Cut text.now tokens.now }
    requires few { Few arena.old from }
    requires sound { Sound arena.old }
    ensures gives { Gives (IsLine arena.new) tokens.now from (read_measure_line text.now (Some 64) room (drop from tokens.now)) result }
    ensures grown { OnOk result (Grown arena.old arena.new) }
    ensures kept { OnOk result (arena.new.stmts.items ≡ arena.old.stmts.items) }
    ensures few { IfOk result (λ r. Few arena.new r.1) }
    ensures sound { OnOk result (Sound arena.new) }
{
    let (at, next) = word(text, tokens, from, Keyword::Measure)?;
    let (found, next) = operand(alloc, text, tokens, next, room, arena)?;
    let (aim, next) = aim(alloc, text, tokens, next, room, arena)?;
    let next = expect(text, tokens, next, Mark::Semicolon)?;
    Ok((line(StmtKind::Measure(found, aim), at), next))
}

/// A value that is returned, or none.
fn returned(
    alloc: Global,
    text: &[u8],
    tokens: &[Token],
    from: usize,
    room: u32,
    arena: &mut Arena,
) -> Result<(Option<ValueRef>, usize), Stop>
    requires within { from ≤ length tokens.now }
    requires cut { Cut text.now tokens.now }
    requires few { Few arena.old from }
    requires sound { Sound arena.old }
    ensures gives { Gives (IfBoth (IsValue arena.new)) tokens.now from (read_returned text.now (Some 64) room (drop from tokens.now)) result }
    ensures grown { OnOk result (Grown arena.old arena.new) }
    ensures kept { OnOk result (arena.new.stmts.items ≡ arena.old.stmts.items) }
    ensures few { IfOk result (λ r. Few arena.new r.1) }
    ensures sound { OnOk result (Sound arena.new) }
{
    if !begins_value(text, tokens, from) {
        return Ok((None, from));
    }
    let (found, next) = value(alloc, text, tokens, from, room, arena)?;
    Ok((Some(found), next))
}

/// A return.
fn return_line(
    alloc: Global,
    text: &[u8],
    tokens: &[Token],
    from: usize,
    room: u32,
    arena: &mut Arena,
) -> Result<(Stmt, usize), Stop>
    requires within { from ≤ length tokens.now }
    requires cut { Cut text.now tokens.now }
    requires few { Few arena.old from }
    requires sound { Sound arena.old }
    ensures gives { Gives (IsLine arena.new) tokens.now from (read_return_line text.now (Some 64) room (drop from tokens.now)) result }
    ensures grown { OnOk result (Grown arena.old arena.new) }
    ensures kept { OnOk result (arena.new.stmts.items ≡ arena.old.stmts.items) }
    ensures few { IfOk result (λ r. Few arena.new r.1) }
    ensures sound { OnOk result (Sound arena.new) }
{
    let (at, next) = word(text, tokens, from, Keyword::Return)?;
    let (found, next) = returned(alloc, text, tokens, next, room, arena)?;
    let next = expect(text, tokens, next, Mark::Semicolon)?;
    Ok((line(StmtKind::Return(found), at), next))
}

/// The end of a loop.
fn break_line(
    text: &[u8],
    tokens: &[Token],
    from: usize,
    arena: &Arena,
) -> Result<(Stmt, usize), Stop>
    requires within { from ≤ length tokens.now }
    requires cut { Cut text.now tokens.now }
    requires few { Few arena.now from }
    requires sound { Sound arena.now }
    ensures gives { Gives (IsLine arena.now) tokens.now from (read_word_line text.now Break break (drop from tokens.now)) result }
    ensures grown { OnOk result (Grown arena.now arena.now) }
    ensures few { IfOk result (λ r. Few arena.now r.1) }
    ensures sound { OnOk result (Sound arena.now) }
    ensures memory { IfErr result (λ e. e ≢ Memory) }
{
    let (at, next) = word(text, tokens, from, Keyword::Break)?;
    let next = expect(text, tokens, next, Mark::Semicolon)?;
    Ok((line(StmtKind::Break, at), next))
}

/// The end of a turn of a loop.
fn continue_line(
    text: &[u8],
    tokens: &[Token],
    from: usize,
    arena: &Arena,
) -> Result<(Stmt, usize), Stop>
    requires within { from ≤ length tokens.now }
    requires cut { Cut text.now tokens.now }
    requires few { Few arena.now from }
    requires sound { Sound arena.now }
    ensures gives { Gives (IsLine arena.now) tokens.now from (read_word_line text.now Continue continue (drop from tokens.now)) result }
    ensures grown { OnOk result (Grown arena.now arena.now) }
    ensures few { IfOk result (λ r. Few arena.now r.1) }
    ensures sound { OnOk result (Sound arena.now) }
    ensures memory { IfErr result (λ e. e ≢ Memory) }
{
    let (at, next) = word(text, tokens, from, Keyword::Continue)?;
    let next = expect(text, tokens, next, Mark::Semicolon)?;
    Ok((line(StmtKind::Continue, at), next))
}

/// The end of the program.
fn end_line(
    text: &[u8],
    tokens: &[Token],
    from: usize,
    arena: &Arena,
) -> Result<(Stmt, usize), Stop>
    requires within { from ≤ length tokens.now }
    requires cut { Cut text.now tokens.now }
    requires few { Few arena.now from }
    requires sound { Sound arena.now }
    ensures gives { Gives (IsLine arena.now) tokens.now from (read_word_line text.now End end (drop from tokens.now)) result }
    ensures grown { OnOk result (Grown arena.now arena.now) }
    ensures few { IfOk result (λ r. Few arena.now r.1) }
    ensures sound { OnOk result (Sound arena.now) }
    ensures memory { IfErr result (λ e. e ≢ Memory) }
{
    let (at, next) = word(text, tokens, from, Keyword::End)?;
    let next = expect(text, tokens, next, Mark::Semicolon)?;
    Ok((line(StmtKind::End, at), next))
}

/// The operator of a mark that assigns its value.
fn assigning_operator(text: &[u8], tokens: &[Token], at: usize) -> Option<BinaryOp>
    requires within { at ≤ length tokens.now }
    requires cut { Cut text.now tokens.now }
    ensures value { result ≡ head_in text.now assign_operators (drop at tokens.now) }
    ensures inside { OnSome result (at < length tokens.now) }
{
    if at == tokens.len() {
        return None;
    }
    match tokens[at].kind {
        TokenKind::Mark(Mark::PlusAssign) => Some(BinaryOp::Add),
        TokenKind::Mark(Mark::MinusAssign) => Some(BinaryOp::Subtract),
        TokenKind::Mark(Mark::StarAssign) => Some(BinaryOp::Multiply),
        TokenKind::Mark(Mark::SlashAssign) => Some(BinaryOp::Divide),
        TokenKind::Mark(Mark::PercentAssign) => Some(BinaryOp::Remainder),
        TokenKind::Mark(Mark::AndAssign) => Some(BinaryOp::BitAnd),
        TokenKind::Mark(Mark::OrAssign) => Some(BinaryOp::BitOr),
        TokenKind::Mark(Mark::CaretAssign) => Some(BinaryOp::BitXor),
        TokenKind::Mark(Mark::ShiftLeftAssign) => Some(BinaryOp::ShiftLeft),
        TokenKind::Mark(Mark::ShiftRightAssign) => Some(BinaryOp::ShiftRight),
        _ => None,
    }
}

/// An assignment behind its target.
fn assigned(
    alloc: Global,
    text: &[u8],
    tokens: &[Token],
    from: usize,
    room: u32,
    target: OperandRef,
    arena: &mut Arena,
) -> Result<(Stmt, usize), Stop>
    requires within { from ≤ length tokens.now }
    requires cut { Cut text.now tokens.now }
    requires few { Few arena.old from }
    requires sound { Sound arena.old }
    ensures gives { (o : Operand) → IsOperand arena.old target o →
        Gives (IsLine arena.new) tokens.now from (read_assigned text.now (Some 64) room o (drop from tokens.now)) result }
    ensures grown { OnOk result (Grown arena.old arena.new) }
    ensures kept { OnOk result (arena.new.stmts.items ≡ arena.old.stmts.items) }
    ensures few { IfOk result (λ r. Few arena.new r.1) }
    ensures sound { OnOk result (Sound arena.new) }
{
    let at = target.at;
    if sees(text, tokens, from, Mark::Assign) {
        let (found, next) = value(alloc, text, tokens, from + 1, room, arena)?;
        let next = expect(text, tokens, next, Mark::Semicolon)?;
        return Ok((line(StmtKind::Assign(target, None, found), at), next));
    }
    let Some(op) = assigning_operator(text, tokens, from) else {
        return Err(Stop::Syntax(from));
    };
    let (found, next) = expression(alloc, text, tokens, from + 1, room, arena)?;
    let next = expect(text, tokens, next, Mark::Semicolon)?;
    let kind = StmtKind::Assign(target, Some(op), ValueRef::Expr(found));
    Ok((line(kind, at), next))
}

/// A call or an assignment behind the name that it begins with.
fn behind_name(
    alloc: Global,
    text: &[u8],
    tokens: &[Token],
    from: usize,
    room: u32,
    name: Declared,
    arena: &mut Arena,
) -> Result<(Stmt, usize), Stop>
    requires within { from ≤ length tokens.now }
    requires cut { Cut text.now tokens.now }
    requires few { Few arena.old from }
    requires sound { Sound arena.old }
    requires known { name.name < length arena.old.names.keys }
    ensures gives { (x : List ℕ × Span) → IsName arena.old name (named x) →
        Gives (IsLine arena.new) tokens.now from (read_behind_name text.now (Some 64) room x (drop from tokens.now)) result }
    ensures grown { OnOk result (Grown arena.old arena.new) }
    ensures kept { OnOk result (arena.new.stmts.items ≡ arena.old.stmts.items) }
    ensures few { IfOk result (λ r. Few arena.new r.1) }
    ensures sound { OnOk result (Sound arena.new) }
{
    if begins_assignment(text, tokens, from) {
        let (index, next) = brackets(alloc, text, tokens, from, room, arena)?;
        let target = OperandRef {
            name: OperandName::Name(name.name),
            index: Items { items: index },
            at: name.at,
        };
        return assigned(alloc, text, tokens, next, room, target, arena);
    }
    if !sees(text, tokens, from, Mark::LeftParen) {
        let (found, next) = applied(
            alloc,
            text,
            tokens,
            from,
            room,
            name,
            Vec::new(alloc),
            arena,
        )?;
        return Ok((statement(found), next));
    }
    let (args, next) = arguments(alloc, text, tokens, from, room, arena)?;
    if sees(text, tokens, next, Mark::Semicolon) {
        let kind = ExprKind::Call(name.name, Items { items: args });
        let call = add(&mut arena.exprs, kind, name.at)?;
        return Ok((line(StmtKind::Call(call), name.at), next + 1));
    }
    let (found, next) = applied(alloc, text, tokens, next, room, name, args, arena)?;
    Ok((statement(found), next))
}

/// An action.
pub fn action(
    alloc: Global,
    text: &[u8],
    tokens: &[Token],
    from: usize,
    room: u32,
    arena: &mut Arena,
) -> Result<(Stmt, usize), Stop>
    requires within { from ≤ length tokens.now }
    requires cut { Cut text.now tokens.now }
    requires few { Few arena.old from }
    requires sound { Sound arena.old }
    ensures gives { Gives (IsLine arena.new) tokens.now from (read_action text.now (Some 64) room (drop from tokens.now)) result }
    ensures grown { OnOk result (Grown arena.old arena.new) }
    ensures kept { OnOk result (arena.new.stmts.items ≡ arena.old.stmts.items) }
    ensures few { IfOk result (λ r. Few arena.new r.1) }
    ensures sound { OnOk result (Sound arena.new) }
{
    if sees_word(text, tokens, from, Keyword::Barrier) {
        return barrier_line(alloc, text, tokens, from, room, arena);
    }
    if sees_word(text, tokens, from, Keyword::Reset) {
        return reset_line(alloc, text, tokens, from, room, arena);
    }
    if sees_word(text, tokens, from, Keyword::Measure) {
        return measure_line(alloc, text, tokens, from, room, arena);
    }
    if sees_word(text, tokens, from, Keyword::Break) {
        return break_line(text, tokens, from, arena);
    }
    if sees_word(text, tokens, from, Keyword::Continue) {
        return continue_line(text, tokens, from, arena);
    }
    if sees_word(text, tokens, from, Keyword::End) {
        return end_line(text, tokens, from, arena);
    }
    if sees_word(text, tokens, from, Keyword::Return) {
        return return_line(alloc, text, tokens, from, room, arena);
    }
    if begins_change(text, tokens, from) || sees_word(text, tokens, from, Keyword::Gphase) {
        return call_line(alloc, text, tokens, from, room, arena);
    }
    let (name, next) = declared(alloc, text, tokens, from, arena)?;
    behind_name(alloc, text, tokens, next, room, name, arena)
}
