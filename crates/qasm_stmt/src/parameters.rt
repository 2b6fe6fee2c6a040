//! Parameters of gates and of subroutines.

ghost use Rattle.std.specs.Prelude.{◌≡◌, ◌≤◌, false, Some, Ok, length, drop, IfOk, OnOk};
ghost use Rattle.qasm_expr.specs.Seen.{Cut, Gives};
ghost use Rattle.qasm_grammar.specs.Reader.{read_parameter, read_parameters, read_any_gate_parameters, read_result, parameter_kinds};
ghost use Rattle.qasm_expr.specs.Reader.{read_listed};
ghost use Rattle.qasm_stmt.specs.Seen.{Sound, Few, Grown, IsList, IfBoth, IsName, IsType, IsParameter};

use crate::arena::Arena;
use crate::begins::begins_parameter;
use crate::expressions::{any_type, any_width};
use crate::names::{declared, names};
use crate::words::word;
use qasm_ast::{Base, Declared, TypeRef};
use qasm_expr::parts::{Stop, begins_type, expect, open, sees};
use qasm_lexer::{Keyword, Mark, Token};
use std::alloc::Global;

/// A parameter of a subroutine.
pub fn parameter(
    alloc: Global,
    text: &[u8],
    tokens: &[Token],
    from: usize,
    room: u32,
    arena: &mut Arena,
) -> Result<((TypeRef, Declared), usize), Stop>
    requires within { from ≤ length tokens.now }
    requires cut { Cut text.now tokens.now }
    requires few { Few arena.old from }
    requires sound { Sound arena.old }
    ensures gives { Gives (IsParameter arena.new) tokens.now from (read_parameter text.now (Some 64) room (drop from tokens.now)) result }
    ensures grown { OnOk result (Grown arena.old arena.new) }
    ensures kept { OnOk result (arena.new.stmts.items ≡ arena.old.stmts.items) }
    ensures few { IfOk result (λ r. Few arena.new r.1) }
    ensures sound { OnOk result (Sound arena.new) }
{
    if begins_type(text, tokens, from) {
        let (ty, at) = any_type(alloc, text, tokens, from, room, arena)?;
        let (name, at) = declared(alloc, text, tokens, at, arena)?;
        return Ok(((ty, name), at));
    }
    let (place, at) = word(text, tokens, from, Keyword::Qubit)?;
    let (width, at) = any_width(alloc, text, tokens, at, room, arena)?;
    let (name, at) = declared(alloc, text, tokens, at, arena)?;
    let ty = TypeRef {
        base: Base::Qubit,
        width,
        at: place,
    };
    Ok(((ty, name), at))
}

/// Parameters with commas between them, and maybe one behind them.
fn parameter_list(
    alloc: Global,
    text: &[u8],
    tokens: &[Token],
    from: usize,
    room: u32,
    arena: &mut Arena,
) -> Result<(Vec<(TypeRef, Declared)>, usize), Stop>
    requires within { from ≤ length tokens.now }
    requires cut { Cut text.now tokens.now }
    requires few { Few arena.old from }
    requires sound { Sound arena.old }
    ensures gives { Gives (λ v ps. IsList (IsParameter arena.new) v.items ps) tokens.now from (read_listed text.now parameter_kinds false (read_parameter text.now (Some 64) room) (drop from tokens.now)) result }
    ensures grown { OnOk result (Grown arena.old arena.new) }
    ensures kept { OnOk result (arena.new.stmts.items ≡ arena.old.stmts.items) }
    ensures few { IfOk result (λ r. Few arena.new r.1) }
    ensures sound { OnOk result (Sound arena.new) }
{
    let mut found = Vec::new(alloc);
    let mut at = from;
    'items: while begins_parameter(text, tokens, at) {
        let (item, next) = parameter(alloc, text, tokens, at, room, arena)?;
        if found.push(item).is_err() {
            return Err(Stop::Memory);
        }
        if !sees(text, tokens, next, Mark::Comma) {
            return Ok((found, next));
        }
        at = next + 1;
    }
    Ok((found, at))
}

/// The parameters of a subroutine, in round brackets.
pub fn parameters(
    alloc: Global,
    text: &[u8],
    tokens: &[Token],
    from: usize,
    room: u32,
    arena: &mut Arena,
) -> Result<(Vec<(TypeRef, Declared)>, usize), Stop>
    requires within { from ≤ length tokens.now }
    requires cut { Cut text.now tokens.now }
    requires few { Few arena.old from }
    requires sound { Sound arena.old }
    ensures gives { Gives (λ v ps. IsList (IsParameter arena.new) v.items ps) tokens.now from (read_parameters text.now (Some 64) room (drop from tokens.now)) result }
    ensures grown { OnOk result (Grown arena.old arena.new) }
    ensures kept { OnOk result (arena.new.stmts.items ≡ arena.old.stmts.items) }
    ensures few { IfOk result (λ r. Few arena.new r.1) }
    ensures sound { OnOk result (Sound arena.new) }
{
    let inside = open(text, tokens, from, room, Mark::LeftParen)?;
    let (found, at) = parameter_list(alloc, text, tokens, inside, room - 1, arena)?;
    let at = expect(text, tokens, at, Mark::RightParen)?;
    Ok((found, at))
}

/// The parameters of a gate, in round brackets where there are some.
pub fn any_gate_parameters(
    alloc: Global,
    text: &[u8],
    tokens: &[Token],
    from: usize,
    room: u32,
    arena: &mut Arena,
) -> Result<(Vec<Declared>, usize), Stop>
    requires within { from ≤ length tokens.now }
    requires cut { Cut text.now tokens.now }
    requires few { Few arena.old from }
    requires sound { Sound arena.old }
    ensures gives { Gives (λ v xs. IsList (IsName arena.new) v.items xs) tokens.now from (read_any_gate_parameters text.now room (drop from tokens.now)) result }
    ensures grown { OnOk result (Grown arena.old arena.new) }
    ensures kept { OnOk result (arena.new.stmts.items ≡ arena.old.stmts.items) }
    ensures few { IfOk result (λ r. Few arena.new r.1) }
    ensures sound { OnOk result (Sound arena.new) }
{
    if !sees(text, tokens, from, Mark::LeftParen) {
        return Ok((Vec::new(alloc), from));
    }
    let inside = open(text, tokens, from, room, Mark::LeftParen)?;
    let (found, at) = names(alloc, text, tokens, inside, false, arena)?;
    let at = expect(text, tokens, at, Mark::RightParen)?;
    Ok((found, at))
}

/// The result type of a subroutine behind its arrow, or none.
pub fn result(
    alloc: Global,
    text: &[u8],
    tokens: &[Token],
    from: usize,
    room: u32,
    arena: &mut Arena,
) -> Result<(Option<TypeRef>, usize), Stop>
    requires within { from ≤ length tokens.now }
    requires cut { Cut text.now tokens.now }
    requires few { Few arena.old from }
    requires sound { Sound arena.old }
    ensures gives { Gives (IfBoth (IsType arena.new)) tokens.now from (read_result text.now (Some 64) room (drop from tokens.now)) result }
    ensures grown { OnOk result (Grown arena.old arena.new) }
    ensures kept { OnOk result (arena.new.stmts.items ≡ arena.old.stmts.items) }
    ensures few { IfOk result (λ r. Few arena.new r.1) }
    ensures sound { OnOk result (Sound arena.new) }
{
    if !sees(text, tokens, from, Mark::Arrow) {
        return Ok((None, from));
    }
    let (ty, at) = any_type(alloc, text, tokens, from + 1, room, arena)?;
    Ok((Some(ty), at))
}
