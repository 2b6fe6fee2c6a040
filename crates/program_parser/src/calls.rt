//! Calls of gates, with their modifiers.

ghost use Rattle.std.specs.Prelude.{◌≡◌, List, Some};
ghost use Rattle.qasm_ast.specs.Tree.{Name, Tree};
ghost use Rattle.qasm_grammar.specs.Reader.{read_applied, read_named_call, read_phase, read_plain_call, read_modifier, read_call, read_call_line};
ghost use Rattle.program_parser.specs.World.{Stands};
ghost use Rattle.program_parser.specs.Parses.{Parses, Takes};
ghost use Rattle.program_parser.specs.Shows.{NameIn, TreesIn, ChangeIn, CallIn, PlainIn, at_modifier, statement_of_call};
ghost use Rattle.program_parser.specs.Nesting.{GateLineIn};

use crate::begins::{Part, begins};
use crate::lists::list;
use crate::operands::declared;
use crate::parts::{arguments, condition};
use qasm_ast::{Declared, ExprId, Items, Modifier, OperandRef, Stmt, StmtKind};
use qasm_lexer::{Keyword, Mark};
use qasm_parser::{Parser, Stop};
use qq_base::Span;

/// A gate call, with the modifiers in front of it.
#[derive(Drop)]
pub struct GateCall {
    pub mods: Vec<Modifier>,
    pub gate: Declared,
    pub args: Vec<ExprId>,
    pub operands: Vec<OperandRef>,
}

/// The operands and the end of a call of this gate with these arguments.
#[tactic(auto, unfolding(qasm_grammar::specs::Reader::read_applied))]
pub fn applied(
    parser: &mut Parser,
    room: u32,
    gate: Declared,
    args: Vec<ExprId>,
) -> Result<GateCall, Stop>
    ensures { (x : Name) (es : List Tree) → Stands NameIn parser.old gate x → Stands TreesIn parser.old args es →
        Takes PlainIn (read_applied parser.old.text (Some 64) room x es) parser.old result parser.new }
{
    let operands = list(parser, room, true)?;
    parser.mark(Mark::Semicolon)?;
    Ok(GateCall {
        mods: Vec::new(parser.alloc()),
        gate,
        args,
        operands,
    })
}

/// A call by the name of a gate.
#[tactic(auto, unfolding(qasm_grammar::specs::Reader::read_named_call))]
fn named_call(parser: &mut Parser, room: u32) -> Result<GateCall, Stop>
    ensures { Takes PlainIn (read_named_call parser.old.text (Some 64) room) parser.old result parser.new }
{
    let gate = declared(parser)?;
    if !parser.sees(Mark::LeftParen) {
        let none = Vec::new(parser.alloc());
        return applied(parser, room, gate, none);
    }
    let args = arguments(parser, room)?;
    applied(parser, room, gate, args)
}

/// A global phase. Its gate is the name `gphase`.
#[tactic(auto, unfolding(qasm_grammar::specs::Reader::read_phase, qasm_grammar::specs::Reader::read_any_operands))]
fn phase(parser: &mut Parser, room: u32) -> Result<GateCall, Stop>
    ensures { Takes PlainIn (read_phase parser.old.text (Some 64) room) parser.old result parser.new }
{
    let gate = parser.word_as(Keyword::Gphase, b"gphase")?;
    let angle = condition(parser, room)?;
    let operands = list(parser, room, false)?;
    parser.mark(Mark::Semicolon)?;
    let mut args = Vec::new(parser.alloc());
    if args.push(angle).is_err() {
        return Err(Stop::Memory);
    }
    Ok(GateCall {
        mods: Vec::new(parser.alloc()),
        gate,
        args,
        operands,
    })
}

/// A call without modifiers.
fn plain_call(parser: &mut Parser, room: u32) -> Result<GateCall, Stop>
    ensures { Takes PlainIn (read_plain_call parser.old.text (Some 64) room) parser.old result parser.new }
{
    if parser.sees_word(Keyword::Gphase) {
        return phase(parser, room);
    }
    named_call(parser, room)
}

/// A modifier, where there is this room behind its word.
#[tactic(auto, unfolding(qasm_grammar::specs::Reader::read_modifier))]
fn modifier(parser: &mut Parser, room: u32) -> Result<Modifier, Stop>
    ensures { Takes ChangeIn (read_modifier parser.old.text (Some 64) room) parser.old result parser.new }
{
    if parser.sees_word(Keyword::Inv) {
        let at = parser.word(Keyword::Inv)?.at;
        return Ok(Modifier::Inv(at));
    }
    if parser.sees_word(Keyword::Pow) {
        let at = parser.word(Keyword::Pow)?.at;
        let exponent = condition(parser, room)?;
        return Ok(Modifier::Pow(exponent, at));
    }
    let at = parser.word(Keyword::Ctrl)?.at;
    if !parser.sees(Mark::LeftParen) {
        return Ok(Modifier::Ctrl(None, at));
    }
    let count = condition(parser, room)?;
    Ok(Modifier::Ctrl(Some(count), at))
}

/// A gate call. Each modifier opens a level, which stays open to the end of the call.
fn call(parser: &mut Parser, room: u32) -> Result<GateCall, Stop>
    ensures { Takes CallIn (read_call parser.old.text (Some 64) room) parser.old result parser.new }
{
    let mut mods = Vec::new(parser.alloc());
    let mut left = room;
    'mods: while begins(parser, Part::Change) {
        if left == 0 {
            return Err(Stop::Deep);
        }
        left -= 1;
        let change = modifier(parser, left)?;
        parser.mark(Mark::At)?;
        if mods.push(change).is_err() {
            return Err(Stop::Memory);
        }
    }
    let plain = plain_call(parser, left)?;
    Ok(GateCall {
        mods,
        gate: plain.gate,
        args: plain.args,
        operands: plain.operands,
    })
}

/// The place of a modifier.
fn place_of(change: &Modifier) -> Span
    ensures { result ≡ at_modifier change.now }
{
    match *change {
        Modifier::Inv(at) => at,
        Modifier::Pow(_, at) => at,
        Modifier::Ctrl(_, at) => at,
    }
}

/// The statement of a call, at its first modifier or its name.
pub fn statement(call: GateCall) -> Stmt
    ensures { result ≡ statement_of_call call }
{
    let at = match call.mods.first() {
        None => call.gate.at,
        Some(change) => place_of(change),
    };
    let kind = StmtKind::GateCall {
        mods: Items { items: call.mods },
        gate: call.gate,
        args: Items { items: call.args },
        operands: Items {
            items: call.operands,
        },
    };
    Stmt {
        kind,
        at,
        close: at,
    }
}

/// The statement of a gate call.
pub fn call_line(parser: &mut Parser, room: u32) -> Result<Stmt, Stop>
    ensures { Takes GateLineIn (read_call_line parser.old.text (Some 64) room) parser.old result parser.new }
{
    let found = call(parser, room)?;
    Ok(statement(found))
}
