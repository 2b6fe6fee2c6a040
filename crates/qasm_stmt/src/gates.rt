//! Definitions of gates.

ghost use Rattle.std.specs.Prelude.{◌≡◌, ◌≤◌, Some, Ok, length, drop, IfOk, OnOk};
ghost use Rattle.qasm_expr.specs.Seen.{Cut, Gives};
ghost use Rattle.qasm_grammar.specs.Reader.{read_member, read_gate_body, read_gate_definition, member_kinds};
ghost use Rattle.qasm_stmt.specs.Seen.{Sound, Few, Grown, Paid, Spare, IsMember, IsGateBody, IsLine};

use crate::actions::barrier_line;
use crate::arena::{Arena, push};
use crate::begins::{begins_call, begins_member};
use crate::block::Block;
use crate::calls::call_line;
use crate::names::{declared, names};
use crate::parameters::any_gate_parameters;
use crate::words::{symbol, word};
use qasm_ast::{Items, Stmt, StmtId, StmtKind};
use qasm_expr::parts::{Stop, open};
use qasm_lexer::{Keyword, Mark, Token};
use std::alloc::Global;

/// A member of a gate's body, added to its list.
fn member(
    alloc: Global,
    text: &[u8],
    tokens: &[Token],
    from: usize,
    room: u32,
    arena: &mut Arena,
) -> Result<(StmtId, usize), Stop>
    requires within { from ≤ length tokens.now }
    requires cut { Cut text.now tokens.now }
    requires few { Few arena.old from }
    requires sound { Sound arena.old }
    ensures gives { Gives (IsMember arena.new) tokens.now from (read_member text.now (Some 64) room (drop from tokens.now)) result }
    ensures grown { OnOk result (Grown arena.old arena.new) }
    ensures paid { IfOk result (λ r. Paid arena.old arena.new from r.1) }
    ensures few { IfOk result (λ r. Few arena.new r.1) }
    ensures sound { OnOk result (Sound arena.new) }
{
    let (found, next) = if begins_call(text, tokens, from) {
        call_line(alloc, text, tokens, from, room, arena)?
    } else {
        barrier_line(alloc, text, tokens, from, room, arena)?
    };
    let id = push(arena, found)?;
    Ok((id, next))
}

/// The body of a gate.
fn gate_body(
    alloc: Global,
    text: &[u8],
    tokens: &[Token],
    from: usize,
    room: u32,
    arena: &mut Arena,
) -> Result<(Block, usize), Stop>
    requires within { from ≤ length tokens.now }
    requires cut { Cut text.now tokens.now }
    requires few { Few arena.old from }
    requires sound { Sound arena.old }
    ensures gives { Gives (IsGateBody arena.new) tokens.now from (read_gate_body text.now (Some 64) room (drop from tokens.now)) result }
    ensures grown { OnOk result (Grown arena.old arena.new) }
    ensures spare { IfOk result (λ r. Spare arena.old arena.new from r.1) }
    ensures few { IfOk result (λ r. Few arena.new r.1) }
    ensures sound { OnOk result (Sound arena.new) }
{
    let inside = open(text, tokens, from, room, Mark::LeftBrace)?;
    let mut statements = Vec::new(alloc);
    let mut at = inside;
    'members: while begins_member(text, tokens, at) {
        let (id, next) = member(alloc, text, tokens, at, room - 1, arena)?;
        if statements.push(id).is_err() {
            return Err(Stop::Memory);
        }
        at = next;
    }
    let (close, next) = symbol(text, tokens, at, Mark::RightBrace)?;
    Ok((Block { statements, close }, next))
}

/// The definition of a gate.
pub fn gate_definition(
    alloc: Global,
    text: &[u8],
    tokens: &[Token],
    from: usize,
    room: u32,
    arena: &mut Arena,
) -> Result<(Stmt, usize), Stop>
    requires within { from ≤ length tokens.now }
    requires cut { Cut text.now tokens.now }
    requires few { Few arena.old from }
    requires sound { Sound arena.old }
    ensures gives { Gives (IsLine arena.new) tokens.now from (read_gate_definition text.now (Some 64) room (drop from tokens.now)) result }
    ensures grown { OnOk result (Grown arena.old arena.new) }
    ensures spare { IfOk result (λ r. Spare arena.old arena.new from r.1) }
    ensures few { IfOk result (λ r. Few arena.new r.1) }
    ensures sound { OnOk result (Sound arena.new) }
{
    let (at, next) = word(text, tokens, from, Keyword::Gate)?;
    let (name, next) = declared(alloc, text, tokens, next, arena)?;
    let (params, next) = any_gate_parameters(alloc, text, tokens, next, room, arena)?;
    let (qubits, next) = names(alloc, text, tokens, next, true, arena)?;
    let (body, next) = gate_body(alloc, text, tokens, next, room, arena)?;
    let kind = StmtKind::Gate {
        name,
        params: Items { items: params },
        qubits: Items { items: qubits },
        body: Items {
            items: body.statements,
        },
    };
    let close = body.close;
    Ok((Stmt { kind, at, close }, next))
}
