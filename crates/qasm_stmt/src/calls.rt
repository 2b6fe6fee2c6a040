//! Calls of gates, with their modifiers.

ghost use Rattle.std.specs.Prelude.{◌≡◌, ◌≤◌, List, Some, Ok, length, drop, IfOk, OnOk};
ghost use Rattle.qasm_ast.specs.Tree.{Name, Tree};
ghost use Rattle.qasm_expr.specs.Seen.{Cut, Gives};
ghost use Rattle.qasm_grammar.specs.Reader.{read_applied, read_named_call, read_phase, read_plain_call, read_modifier, read_call, read_call_line};
ghost use Rattle.qasm_stmt.specs.Seen.{Sound, Few, Grown, IsList, IsName, IsTree, IsChange, IsCall, IsLine, at_modifier, statement_of_call};

use crate::arena::Arena;
use crate::begins::begins_change;
use crate::expressions::{arguments, condition};
use crate::names::declared;
use crate::operands::operands;
use crate::words::word;
use qasm_ast::{Declared, ExprId, Items, Modifier, OperandRef, Stmt, StmtKind};
use qasm_expr::parts::{Stop, expect, intern, sees, sees_word};
use qasm_lexer::{Keyword, Mark, Token};
use qq_base::Span;
use std::alloc::Global;

/// A gate call, with the modifiers in front of it.
#[derive(Drop)]
pub struct GateCall {
    pub mods: Vec<Modifier>,
    pub gate: Declared,
    pub args: Vec<ExprId>,
    pub operands: Vec<OperandRef>,
}

/// The operands and the end of a call of this gate with these arguments.
pub fn applied(
    alloc: Global,
    text: &[u8],
    tokens: &[Token],
    from: usize,
    room: u32,
    gate: Declared,
    args: Vec<ExprId>,
    arena: &mut Arena,
) -> Result<(GateCall, usize), Stop>
    requires within { from ≤ length tokens.now }
    requires cut { Cut text.now tokens.now }
    requires few { Few arena.old from }
    requires sound { Sound arena.old }
    ensures gives { (x : Name) (es : List Tree) → IsName arena.old gate x → IsList (IsTree arena.old) args.items es →
        Gives (IsCall arena.new) tokens.now from (read_applied text.now (Some 64) room x es (drop from tokens.now)) result }
    ensures grown { OnOk result (Grown arena.old arena.new) }
    ensures kept { OnOk result (arena.new.stmts.items ≡ arena.old.stmts.items) }
    ensures few { IfOk result (λ r. Few arena.new r.1) }
    ensures sound { OnOk result (Sound arena.new) }
{
    let (operands, at) = operands(alloc, text, tokens, from, room, true, arena)?;
    let at = expect(text, tokens, at, Mark::Semicolon)?;
    Ok((
        GateCall {
            mods: Vec::new(alloc),
            gate,
            args,
            operands,
        },
        at,
    ))
}

/// A call by the name of a gate.
fn named_call(
    alloc: Global,
    text: &[u8],
    tokens: &[Token],
    from: usize,
    room: u32,
    arena: &mut Arena,
) -> Result<(GateCall, usize), Stop>
    requires within { from ≤ length tokens.now }
    requires cut { Cut text.now tokens.now }
    requires few { Few arena.old from }
    requires sound { Sound arena.old }
    ensures gives { Gives (IsCall arena.new) tokens.now from (read_named_call text.now (Some 64) room (drop from tokens.now)) result }
    ensures grown { OnOk result (Grown arena.old arena.new) }
    ensures kept { OnOk result (arena.new.stmts.items ≡ arena.old.stmts.items) }
    ensures few { IfOk result (λ r. Few arena.new r.1) }
    ensures sound { OnOk result (Sound arena.new) }
{
    let (gate, at) = declared(alloc, text, tokens, from, arena)?;
    if !sees(text, tokens, at, Mark::LeftParen) {
        let none = Vec::new(alloc);
        return applied(alloc, text, tokens, at, room, gate, none, arena);
    }
    let (args, at) = arguments(alloc, text, tokens, at, room, arena)?;
    applied(alloc, text, tokens, at, room, gate, args, arena)
}

/// A global phase. Its gate is the name `gphase`.
fn phase(
    alloc: Global,
    text: &[u8],
    tokens: &[Token],
    from: usize,
    room: u32,
    arena: &mut Arena,
) -> Result<(GateCall, usize), Stop>
    requires within { from ≤ length tokens.now }
    requires cut { Cut text.now tokens.now }
    requires few { Few arena.old from }
    requires sound { Sound arena.old }
    ensures gives { Gives (IsCall arena.new) tokens.now from (read_phase text.now (Some 64) room (drop from tokens.now)) result }
    ensures grown { OnOk result (Grown arena.old arena.new) }
    ensures kept { OnOk result (arena.new.stmts.items ≡ arena.old.stmts.items) }
    ensures few { IfOk result (λ r. Few arena.new r.1) }
    ensures sound { OnOk result (Sound arena.new) }
{
    let (place, at) = word(text, tokens, from, Keyword::Gphase)?;
    let name = intern(alloc, &mut arena.names, b"gphase")?;
    let (angle, at) = condition(alloc, text, tokens, at, room, arena)?;
    let (operands, at) = operands(alloc, text, tokens, at, room, false, arena)?;
    let at = expect(text, tokens, at, Mark::Semicolon)?;
    let mut args = Vec::new(alloc);
    if args.push(angle).is_err() {
        return Err(Stop::Memory);
    }
    let gate = Declared { name, at: place };
    Ok((
        GateCall {
            mods: Vec::new(alloc),
            gate,
            args,
            operands,
        },
        at,
    ))
}

/// A call without modifiers.
fn plain_call(
    alloc: Global,
    text: &[u8],
    tokens: &[Token],
    from: usize,
    room: u32,
    arena: &mut Arena,
) -> Result<(GateCall, usize), Stop>
    requires within { from ≤ length tokens.now }
    requires cut { Cut text.now tokens.now }
    requires few { Few arena.old from }
    requires sound { Sound arena.old }
    ensures gives { Gives (IsCall arena.new) tokens.now from (read_plain_call text.now (Some 64) room (drop from tokens.now)) result }
    ensures grown { OnOk result (Grown arena.old arena.new) }
    ensures kept { OnOk result (arena.new.stmts.items ≡ arena.old.stmts.items) }
    ensures few { IfOk result (λ r. Few arena.new r.1) }
    ensures sound { OnOk result (Sound arena.new) }
{
    if sees_word(text, tokens, from, Keyword::Gphase) {
        return phase(alloc, text, tokens, from, room, arena);
    }
    named_call(alloc, text, tokens, from, room, arena)
}

/// A modifier, where there is this room behind its word.
fn modifier(
    alloc: Global,
    text: &[u8],
    tokens: &[Token],
    from: usize,
    room: u32,
    arena: &mut Arena,
) -> Result<(Modifier, usize), Stop>
    requires within { from ≤ length tokens.now }
    requires cut { Cut text.now tokens.now }
    requires few { Few arena.old from }
    requires sound { Sound arena.old }
    ensures gives { Gives (IsChange arena.new) tokens.now from (read_modifier text.now (Some 64) room (drop from tokens.now)) result }
    ensures grown { OnOk result (Grown arena.old arena.new) }
    ensures kept { OnOk result (arena.new.stmts.items ≡ arena.old.stmts.items) }
    ensures few { IfOk result (λ r. Few arena.new r.1) }
    ensures sound { OnOk result (Sound arena.new) }
{
    if sees_word(text, tokens, from, Keyword::Inv) {
        let (place, at) = word(text, tokens, from, Keyword::Inv)?;
        return Ok((Modifier::Inv(place), at));
    }
    if sees_word(text, tokens, from, Keyword::Pow) {
        let (place, at) = word(text, tokens, from, Keyword::Pow)?;
        let (exponent, at) = condition(alloc, text, tokens, at, room, arena)?;
        return Ok((Modifier::Pow(exponent, place), at));
    }
    let (place, at) = word(text, tokens, from, Keyword::Ctrl)?;
    if !sees(text, tokens, at, Mark::LeftParen) {
        return Ok((Modifier::Ctrl(None, place), at));
    }
    let (count, at) = condition(alloc, text, tokens, at, room, arena)?;
    Ok((Modifier::Ctrl(Some(count), place), at))
}

/// A gate call. Each modifier opens a level, which stays open to the end of the call.
fn call(
    alloc: Global,
    text: &[u8],
    tokens: &[Token],
    from: usize,
    room: u32,
    arena: &mut Arena,
) -> Result<(GateCall, usize), Stop>
    requires within { from ≤ length tokens.now }
    requires cut { Cut text.now tokens.now }
    requires few { Few arena.old from }
    requires sound { Sound arena.old }
    ensures gives { Gives (IsCall arena.new) tokens.now from (read_call text.now (Some 64) room (drop from tokens.now)) result }
    ensures grown { OnOk result (Grown arena.old arena.new) }
    ensures kept { OnOk result (arena.new.stmts.items ≡ arena.old.stmts.items) }
    ensures few { IfOk result (λ r. Few arena.new r.1) }
    ensures sound { OnOk result (Sound arena.new) }
{
    let mut mods = Vec::new(alloc);
    let mut at = from;
    let mut left = room;
    'mods: while begins_change(text, tokens, at) {
        if left == 0 {
            return Err(Stop::Deep(at));
        }
        left -= 1;
        let (change, next) = modifier(alloc, text, tokens, at, left, arena)?;
        let next = expect(text, tokens, next, Mark::At)?;
        if mods.push(change).is_err() {
            return Err(Stop::Memory);
        }
        at = next;
    }
    let (plain, at) = plain_call(alloc, text, tokens, at, left, arena)?;
    let found = GateCall {
        mods,
        gate: plain.gate,
        args: plain.args,
        operands: plain.operands,
    };
    Ok((found, at))
}

/// The place of a modifier.
fn place_of(change: &Modifier) -> Span
    ensures { result ≡ at_modifier change.now }
{
    match *change {
        Modifier::Inv(at) => at,
        Modifier::Pow(_, at) => at,
        Modifier::Ctrl(_, at) => at,
    }
}

/// The statement of a call, at its first modifier or its name.
pub fn statement(call: GateCall) -> Stmt
    ensures { result ≡ statement_of_call call }
{
    let at = match call.mods.first() {
        None => call.gate.at,
        Some(change) => place_of(change),
    };
    let kind = StmtKind::GateCall {
        mods: Items { items: call.mods },
        gate: call.gate,
        args: Items { items: call.args },
        operands: Items {
            items: call.operands,
        },
    };
    Stmt {
        kind,
        at,
        close: at,
    }
}

/// The statement of a gate call.
pub fn call_line(
    alloc: Global,
    text: &[u8],
    tokens: &[Token],
    from: usize,
    room: u32,
    arena: &mut Arena,
) -> Result<(Stmt, usize), Stop>
    requires within { from ≤ length tokens.now }
    requires cut { Cut text.now tokens.now }
    requires few { Few arena.old from }
    requires sound { Sound arena.old }
    ensures gives { Gives (IsLine arena.new) tokens.now from (read_call_line text.now (Some 64) room (drop from tokens.now)) result }
    ensures grown { OnOk result (Grown arena.old arena.new) }
    ensures kept { OnOk result (arena.new.stmts.items ≡ arena.old.stmts.items) }
    ensures few { IfOk result (λ r. Few arena.new r.1) }
    ensures sound { OnOk result (Sound arena.new) }
{
    let (found, at) = call(alloc, text, tokens, from, room, arena)?;
    Ok((statement(found), at))
}
