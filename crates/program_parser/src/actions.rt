//! Actions.

ghost use Rattle.std.specs.Prelude.{◌≡◌, Some};
ghost use Rattle.qasm_ast.specs.Tree.{Operand};
ghost use Rattle.grammar_parts.specs.Reading.{take_one};
ghost use Rattle.grammar_parts.specs.Kinds.{picked};
ghost use Rattle.qasm_expr.specs.TokenKinds.{kind};
ghost use Rattle.qasm_grammar.specs.Grammar.{assign_operators};
ghost use Rattle.qasm_grammar.specs.Reader.{read_barrier_line, read_reset_line, read_aim, read_measure_line, read_word_line, read_returned, read_return_line, read_assigned};
ghost use Rattle.program_parser.specs.World.{Stands};
ghost use Rattle.program_parser.specs.Parses.{Parses, Takes};
ghost use Rattle.program_parser.specs.Shows.{LineIn, MaybeIn, OperandIn, OperatorIn, ValueIn, IsPlain, plain_statement};
ghost use Rattle.program_parser.specs.Nesting.{GateLineIn};
ghost use Rattle.program_parser.specs.Begins as kinds;

use crate::begins::begins_value;
use crate::declarations::line;
use crate::lists::list;
use crate::operands::{operand, target, value};
use qasm_ast::{BinaryOp, Items, OperandRef, Stmt, StmtKind, ValueRef};
use qasm_lexer::{Keyword, Mark, TokenKind};
use qasm_parser::{Parser, Stop};

/// A barrier on operands, or on all qubits.
#[tactic(auto, unfolding(qasm_grammar::specs::Reader::read_barrier_line, qasm_grammar::specs::Reader::read_any_operands))]
pub fn barrier_line(parser: &mut Parser, room: u32) -> Result<Stmt, Stop>
    ensures { Takes GateLineIn (read_barrier_line parser.old.text (Some 64) room) parser.old result parser.new }
{
    let at = parser.word(Keyword::Barrier)?.at;
    let items = list(parser, room, false)?;
    parser.mark(Mark::Semicolon)?;
    Ok(line(StmtKind::Barrier(Items { items }), at))
}

/// A reset.
#[tactic(auto, unfolding(qasm_grammar::specs::Reader::read_reset_line))]
pub fn reset_line(parser: &mut Parser, room: u32) -> Result<Stmt, Stop>
    ensures { Takes LineIn (read_reset_line parser.old.text (Some 64) room) parser.old result parser.new }
{
    let at = parser.word(Keyword::Reset)?.at;
    let found = operand(parser, room)?;
    parser.mark(Mark::Semicolon)?;
    Ok(line(StmtKind::Reset(found), at))
}

/// The target of a measurement behind its arrow, or none.
fn aim(parser: &mut Parser, room: u32) -> Result<Option<OperandRef>, Stop>
    ensures { Parses (MaybeIn OperandIn) (read_aim parser.old.text (Some 64) room) parser.old result parser.new }
{
    if !parser.eat(Mark::Arrow) {
        return Ok(None);
    }
    let found = target(parser, room)?;
    Ok(Some(found))
}

/// A measurement.
#[tactic(auto, unfolding(qasm_grammar::specs::Reader::read_measure_line))]
pub fn measure_line(parser: &mut Parser, room: u32) -> Result<Stmt, Stop>
    ensures { Takes LineIn (read_measure_line parser.old.text (Some 64) room) parser.old result parser.new }
{
    let at = parser.word(Keyword::Measure)?.at;
    let found = operand(parser, room)?;
    let aim = aim(parser, room)?;
    parser.mark(Mark::Semicolon)?;
    Ok(line(StmtKind::Measure(found, aim), at))
}

/// A statement that is one word.
#[tactic(auto, unfolding(qasm_grammar::specs::Reader::read_word_line))]
pub fn word_line(parser: &mut Parser, word: Keyword, kind: StmtKind) -> Result<Stmt, Stop>
    requires { IsPlain kind }
    ensures { Takes LineIn (read_word_line parser.old.text word (plain_statement kind)) parser.old result parser.new }
{
    let at = parser.word(word)?.at;
    parser.mark(Mark::Semicolon)?;
    Ok(line(kind, at))
}

/// A value that is returned, or none.
fn returned(parser: &mut Parser, room: u32) -> Result<Option<ValueRef>, Stop>
    ensures { Parses (MaybeIn ValueIn) (read_returned parser.old.text (Some 64) room) parser.old result parser.new }
{
    if !begins_value(parser) {
        return Ok(None);
    }
    let found = value(parser, room)?;
    Ok(Some(found))
}

/// A return.
#[tactic(auto, unfolding(qasm_grammar::specs::Reader::read_return_line))]
pub fn return_line(parser: &mut Parser, room: u32) -> Result<Stmt, Stop>
    ensures { Takes LineIn (read_return_line parser.old.text (Some 64) room) parser.old result parser.new }
{
    let at = parser.word(Keyword::Return)?.at;
    let found = returned(parser, room)?;
    parser.mark(Mark::Semicolon)?;
    Ok(line(StmtKind::Return(found), at))
}

/// The operator of a mark that assigns its value.
fn operator_by(kind: TokenKind) -> Option<BinaryOp>
    ensures { result ≡ kinds.assigning kind }
{
    match kind {
        TokenKind::Mark(Mark::PlusAssign) => Some(BinaryOp::Add),
        TokenKind::Mark(Mark::MinusAssign) => Some(BinaryOp::Subtract),
        TokenKind::Mark(Mark::StarAssign) => Some(BinaryOp::Multiply),
        TokenKind::Mark(Mark::SlashAssign) => Some(BinaryOp::Divide),
        TokenKind::Mark(Mark::PercentAssign) => Some(BinaryOp::Remainder),
        TokenKind::Mark(Mark::AndAssign) => Some(BinaryOp::BitAnd),
        TokenKind::Mark(Mark::OrAssign) => Some(BinaryOp::BitOr),
        TokenKind::Mark(Mark::CaretAssign) => Some(BinaryOp::BitXor),
        TokenKind::Mark(Mark::ShiftLeftAssign) => Some(BinaryOp::ShiftLeft),
        TokenKind::Mark(Mark::ShiftRightAssign) => Some(BinaryOp::ShiftRight),
        _ => None,
    }
}

/// Takes a mark that assigns the value of an operator, and gives the operator.
fn assigning(parser: &mut Parser) -> Result<BinaryOp, Stop>
    ensures { Takes OperatorIn (take_one (picked (kind parser.old.text) assign_operators)) parser.old result parser.new }
{
    let Some(token) = parser.next() else {
        return Err(Stop::Syntax);
    };
    let Some(op) = operator_by(token.kind) else {
        return Err(Stop::Syntax);
    };
    parser.skip();
    Ok(op)
}

/// An assignment behind its target.
#[tactic(auto, unfolding(qasm_grammar::specs::Reader::read_assigned))]
pub fn assigned(parser: &mut Parser, room: u32, target: OperandRef) -> Result<Stmt, Stop>
    ensures { (o : Operand) → Stands OperandIn parser.old target o →
        Takes LineIn (read_assigned parser.old.text (Some 64) room o) parser.old result parser.new }
{
    let at = target.at;
    if parser.sees(Mark::Assign) {
        parser.mark(Mark::Assign)?;
        let found = value(parser, room)?;
        parser.mark(Mark::Semicolon)?;
        return Ok(line(StmtKind::Assign(target, None, found), at));
    }
    let op = assigning(parser)?;
    let operand = parser.expr(room)?;
    parser.mark(Mark::Semicolon)?;
    let kind = StmtKind::Assign(target, Some(op), ValueRef::Expr(operand));
    Ok(line(kind, at))
}
