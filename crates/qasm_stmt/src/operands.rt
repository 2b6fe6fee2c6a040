//! Operands, targets and values.

ghost use Rattle.std.specs.Prelude.{◌≡◌, ◌≤◌, Some, Ok, length, drop, IfOk, OnOk, ◌+◌};
ghost use Rattle.qasm_expr.specs.Seen.{Cut, Gives};
ghost use Rattle.grammar_parts.specs.Reading.{take_one};
ghost use Rattle.qasm_grammar.specs.Parts.{hardware_of};
ghost use Rattle.qasm_grammar.specs.Reader.{read_target, read_operand, read_value, operand_kinds};
ghost use Rattle.qasm_expr.specs.Reader.{read_listed};
ghost use Rattle.qasm_stmt.specs.Seen.{Sound, Few, Grown, IsList, IsOperand, IsValue, IsWire};

use crate::arena::Arena;
use crate::begins::{begins_name, begins_operand};
use crate::expressions::{brackets, expression};
use crate::names::declared;
use crate::words::word;
use qasm_ast::{Items, OperandName, OperandRef, ValueRef};
use qasm_expr::parts::{Stop, begins_expr, sees};
use qasm_lexer::{Keyword, Mark, Token, TokenKind};
use std::alloc::Global;

/// A name with its index brackets.
pub fn target(
    alloc: Global,
    text: &[u8],
    tokens: &[Token],
    from: usize,
    room: u32,
    arena: &mut Arena,
) -> Result<(OperandRef, usize), Stop>
    requires within { from ≤ length tokens.now }
    requires cut { Cut text.now tokens.now }
    requires few { Few arena.old from }
    requires sound { Sound arena.old }
    ensures gives { Gives (IsOperand arena.new) tokens.now from (read_target text.now (Some 64) room (drop from tokens.now)) result }
    ensures grown { OnOk result (Grown arena.old arena.new) }
    ensures kept { OnOk result (arena.new.stmts.items ≡ arena.old.stmts.items) }
    ensures few { IfOk result (λ r. Few arena.new r.1) }
    ensures sound { OnOk result (Sound arena.new) }
{
    let (name, at) = declared(alloc, text, tokens, from, arena)?;
    let (index, at) = brackets(alloc, text, tokens, at, room, arena)?;
    let target = OperandRef {
        name: OperandName::Name(name.name),
        index: Items { items: index },
        at: name.at,
    };
    Ok((target, at))
}

/// A hardware qubit.
fn hardware(alloc: Global, tokens: &[Token], from: usize) -> Result<(OperandRef, usize), Stop>
    requires within { from ≤ length tokens.now }
    ensures gives { Gives IsWire tokens.now from (take_one hardware_of (drop from tokens.now)) result }
    ensures next { IfOk result (λ r. r.1 ≡ from + 1) }
{
    if from == tokens.len() {
        return Err(Stop::Syntax(from));
    }
    let token = tokens[from];
    match token.kind {
        TokenKind::Hardware(n) => Ok((
            OperandRef {
                name: OperandName::Hardware(n),
                index: Items {
                    items: Vec::new(alloc),
                },
                at: token.at,
            },
            from + 1,
        )),
        _ => Err(Stop::Syntax(from)),
    }
}

/// A name with its index brackets, or a hardware qubit.
pub fn operand(
    alloc: Global,
    text: &[u8],
    tokens: &[Token],
    from: usize,
    room: u32,
    arena: &mut Arena,
) -> Result<(OperandRef, usize), Stop>
    requires within { from ≤ length tokens.now }
    requires cut { Cut text.now tokens.now }
    requires few { Few arena.old from }
    requires sound { Sound arena.old }
    ensures gives { Gives (IsOperand arena.new) tokens.now from (read_operand text.now (Some 64) room (drop from tokens.now)) result }
    ensures grown { OnOk result (Grown arena.old arena.new) }
    ensures kept { OnOk result (arena.new.stmts.items ≡ arena.old.stmts.items) }
    ensures few { IfOk result (λ r. Few arena.new r.1) }
    ensures sound { OnOk result (Sound arena.new) }
{
    if begins_name(text, tokens, from) {
        return target(alloc, text, tokens, from, room, arena);
    }
    hardware(alloc, tokens, from)
}

/// Operands with commas between them, and maybe one behind them; one at least where it is filled.
pub fn operands(
    alloc: Global,
    text: &[u8],
    tokens: &[Token],
    from: usize,
    room: u32,
    filled: bool,
    arena: &mut Arena,
) -> Result<(Vec<OperandRef>, usize), Stop>
    requires within { from ≤ length tokens.now }
    requires cut { Cut text.now tokens.now }
    requires few { Few arena.old from }
    requires sound { Sound arena.old }
    ensures gives { Gives (λ v os. IsList (IsOperand arena.new) v.items os) tokens.now from (read_listed text.now operand_kinds filled (read_operand text.now (Some 64) room) (drop from tokens.now)) result }
    ensures grown { OnOk result (Grown arena.old arena.new) }
    ensures kept { OnOk result (arena.new.stmts.items ≡ arena.old.stmts.items) }
    ensures few { IfOk result (λ r. Few arena.new r.1) }
    ensures sound { OnOk result (Sound arena.new) }
{
    let mut found = Vec::new(alloc);
    let mut at = from;
    let mut first = filled;
    'items: while first || begins_operand(text, tokens, at) {
        let (item, next) = operand(alloc, text, tokens, at, room, arena)?;
        if found.push(item).is_err() {
            return Err(Stop::Memory);
        }
        first = false;
        if !sees(text, tokens, next, Mark::Comma) {
            return Ok((found, next));
        }
        at = next + 1;
    }
    Ok((found, at))
}

/// An expression, or a measurement.
pub fn value(
    alloc: Global,
    text: &[u8],
    tokens: &[Token],
    from: usize,
    room: u32,
    arena: &mut Arena,
) -> Result<(ValueRef, usize), Stop>
    requires within { from ≤ length tokens.now }
    requires cut { Cut text.now tokens.now }
    requires few { Few arena.old from }
    requires sound { Sound arena.old }
    ensures gives { Gives (IsValue arena.new) tokens.now from (read_value text.now (Some 64) room (drop from tokens.now)) result }
    ensures grown { OnOk result (Grown arena.old arena.new) }
    ensures kept { OnOk result (arena.new.stmts.items ≡ arena.old.stmts.items) }
    ensures few { IfOk result (λ r. Few arena.new r.1) }
    ensures sound { OnOk result (Sound arena.new) }
{
    if begins_expr(text, tokens, from) {
        let (found, next) = expression(alloc, text, tokens, from, room, arena)?;
        return Ok((ValueRef::Expr(found), next));
    }
    let (_, at) = word(text, tokens, from, Keyword::Measure)?;
    let (measured, next) = operand(alloc, text, tokens, at, room, arena)?;
    Ok((ValueRef::Measure(measured), next))
}
