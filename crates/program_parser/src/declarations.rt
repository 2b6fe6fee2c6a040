//! Declarations that need no statements in them.

ghost use Rattle.std.specs.Prelude.{◌≡◌, Some};
ghost use Rattle.qasm_grammar.specs.Reader.{read_qubit_line, read_qreg_line, read_creg_line, read_initial, read_variable_line, read_constant_line, read_output_line, read_alias_line};
ghost use Rattle.program_parser.specs.Parses.{Parses, Takes};
ghost use Rattle.program_parser.specs.Shows.{LineIn, ListIn, MaybeIn, OperandIn, ValueIn, line_of, read_joined_operands};

use crate::operands::{declared, operand, value};
use crate::parts::{any_type, any_width};
use qasm_ast::{Base, Items, OperandRef, Stmt, StmtKind, TypeRef, ValueRef};
use qasm_lexer::{Keyword, Mark};
use qasm_parser::{Parser, Stop};
use qq_base::Span;

/// A statement that has no other closing brace.
pub fn line(kind: StmtKind, at: Span) -> Stmt
    ensures { result ≡ line_of kind at }
{
    Stmt {
        kind,
        at,
        close: at,
    }
}

/// Qubits.
#[tactic(auto, unfolding(qasm_grammar::specs::Reader::read_qubit_line))]
pub fn qubit_line(parser: &mut Parser, room: u32) -> Result<Stmt, Stop>
    ensures { Takes LineIn (read_qubit_line parser.old.text (Some 64) room) parser.old result parser.new }
{
    let at = parser.word(Keyword::Qubit)?.at;
    let width = any_width(parser, room)?;
    let name = declared(parser)?;
    parser.mark(Mark::Semicolon)?;
    let base = Base::Qubit;
    Ok(line(StmtKind::Qubit(TypeRef { base, width, at }, name), at))
}

/// Qubits, in the old form.
#[tactic(auto, unfolding(qasm_grammar::specs::Reader::read_qreg_line))]
pub fn qreg_line(parser: &mut Parser, room: u32) -> Result<Stmt, Stop>
    ensures { Takes LineIn (read_qreg_line parser.old.text (Some 64) room) parser.old result parser.new }
{
    let at = parser.word(Keyword::Qreg)?.at;
    let name = declared(parser)?;
    let width = any_width(parser, room)?;
    parser.mark(Mark::Semicolon)?;
    let base = Base::Qubit;
    Ok(line(StmtKind::Qubit(TypeRef { base, width, at }, name), at))
}

/// Bits, in the old form.
#[tactic(auto, unfolding(qasm_grammar::specs::Reader::read_creg_line))]
pub fn creg_line(parser: &mut Parser, room: u32) -> Result<Stmt, Stop>
    ensures { Takes LineIn (read_creg_line parser.old.text (Some 64) room) parser.old result parser.new }
{
    let at = parser.word(Keyword::Creg)?.at;
    let name = declared(parser)?;
    let width = any_width(parser, room)?;
    parser.mark(Mark::Semicolon)?;
    let base = Base::Bit;
    let ty = TypeRef { base, width, at };
    Ok(line(StmtKind::Variable(ty, name, None), at))
}

/// The initial value of a variable, or none.
fn initial(parser: &mut Parser, room: u32) -> Result<Option<ValueRef>, Stop>
    ensures { Parses (MaybeIn ValueIn) (read_initial parser.old.text (Some 64) room) parser.old result parser.new }
{
    if !parser.eat(Mark::Assign) {
        return Ok(None);
    }
    let found = value(parser, room)?;
    Ok(Some(found))
}

/// A variable.
#[tactic(auto, unfolding(qasm_grammar::specs::Reader::read_variable_line))]
pub fn variable_line(parser: &mut Parser, room: u32) -> Result<Stmt, Stop>
    ensures { Takes LineIn (read_variable_line parser.old.text (Some 64) room) parser.old result parser.new }
{
    let ty = any_type(parser, room)?;
    let name = declared(parser)?;
    let initial = initial(parser, room)?;
    parser.mark(Mark::Semicolon)?;
    let at = ty.at;
    Ok(line(StmtKind::Variable(ty, name, initial), at))
}

/// A constant.
#[tactic(auto, unfolding(qasm_grammar::specs::Reader::read_constant_line))]
pub fn constant_line(parser: &mut Parser, room: u32) -> Result<Stmt, Stop>
    ensures { Takes LineIn (read_constant_line parser.old.text (Some 64) room) parser.old result parser.new }
{
    let at = parser.word(Keyword::Const)?.at;
    let ty = any_type(parser, room)?;
    let name = declared(parser)?;
    parser.mark(Mark::Assign)?;
    let value = parser.expr(room)?;
    parser.mark(Mark::Semicolon)?;
    Ok(line(StmtKind::Constant(ty, name, value), at))
}

/// An output.
#[tactic(auto, unfolding(qasm_grammar::specs::Reader::read_output_line))]
pub fn output_line(parser: &mut Parser, room: u32) -> Result<Stmt, Stop>
    ensures { Takes LineIn (read_output_line parser.old.text (Some 64) room) parser.old result parser.new }
{
    let at = parser.word(Keyword::Output)?.at;
    let ty = any_type(parser, room)?;
    let name = declared(parser)?;
    parser.mark(Mark::Semicolon)?;
    Ok(line(StmtKind::Output(ty, name), at))
}

/// Operands, with the mark between them that joins them.
fn joined(parser: &mut Parser, room: u32) -> Result<Vec<OperandRef>, Stop>
    ensures { Takes (ListIn OperandIn) (read_joined_operands parser.old.text room) parser.old result parser.new }
{
    let mut found = Vec::new(parser.alloc());
    let first = operand(parser, room)?;
    if found.push(first).is_err() {
        return Err(Stop::Memory);
    }
    'joins: while parser.eat(Mark::PlusPlus) {
        let item = operand(parser, room)?;
        if found.push(item).is_err() {
            return Err(Stop::Memory);
        }
    }
    Ok(found)
}

/// A joined list of operands by a name.
#[tactic(auto, unfolding(qasm_grammar::specs::Reader::read_alias_line))]
pub fn alias_line(parser: &mut Parser, room: u32) -> Result<Stmt, Stop>
    ensures { Takes LineIn (read_alias_line parser.old.text (Some 64) room) parser.old result parser.new }
{
    let at = parser.word(Keyword::Let)?.at;
    let name = declared(parser)?;
    parser.mark(Mark::Assign)?;
    let operands = joined(parser, room)?;
    parser.mark(Mark::Semicolon)?;
    Ok(line(StmtKind::Let(name, Items { items: operands }), at))
}
