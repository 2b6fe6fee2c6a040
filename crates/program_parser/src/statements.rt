//! Statements, by recursive descent. Every recursion passes a level, of which there are 64 at most; lists of
//! statements are loops.

ghost use Rattle.std.specs.Prelude.{◌≡◌, ◌<◌, Some, length, IfOk};
ghost use Rattle.qasm_grammar.specs.Reader.{read_stmt, read_all_stmts, read_declaration, read_control, read_conditional, read_while_loop, read_for_loop, read_subroutine_definition};
ghost use Rattle.program_parser.specs.Parses.{Parses, Takes};
ghost use Rattle.program_parser.specs.Shows.{LineIn};
ghost use Rattle.program_parser.specs.Nesting.{OpenLineIn, OpenedIn, AllOpenedIn, BlockIn, BodyIn, deeper_block, deeper_body};

use crate::begins::{Part, begins};
use crate::block::{Block, Body, close_or};
use crate::declarations::{
    alias_line, constant_line, creg_line, output_line, qreg_line, qubit_line, variable_line,
};
use crate::gates::gate_definition;
use crate::inclusion::inclusion;
use crate::named::action;
use crate::operands::declared;
use crate::parameters::{parameters, result_type};
use crate::parts::{any_type, condition};
use crate::turns::{loop_kind, turns};
use qasm_ast::{Items, Stmt, StmtId, StmtKind};
use qasm_lexer::{Keyword, Mark};
use qasm_parser::{Parser, Stop};

/// A statement that is not yet in its list, and whether it ends in an `if` that has no `else`.
type Opened = (Stmt, bool);

/// A statement, added to its list, and whether it ends in an `if` that has no `else`.
#[cycle(stmt)]
fn stmt(parser: &mut Parser, room: u32) -> Result<(StmtId, bool), Stop>
    ensures reads { Parses OpenedIn (read_stmt parser.old.text (Some 64) room) parser.old result parser.new }
    ensures moves { IfOk result (λ r. length parser.new.left < length parser.old.left) }
{
    let (found, is_open) = unlisted(parser, room)?;
    let id = parser.push(found)?;
    Ok((id, is_open))
}

/// A statement that is not yet in its list.
#[cycle(stmt)]
fn unlisted(parser: &mut Parser, room: u32) -> Result<Opened, Stop>
    ensures { Takes OpenLineIn (read_stmt parser.old.text (Some 64) room) parser.old result parser.new }
{
    if begins(parser, Part::Declaration) {
        let found = declaration(parser, room)?;
        return Ok((found, false));
    }
    if begins(parser, Part::Action) {
        let found = action(parser, room)?;
        return Ok((found, false));
    }
    control(parser, room)
}

/// A declaration.
#[cycle(stmt)]
fn declaration(parser: &mut Parser, room: u32) -> Result<Stmt, Stop>
    ensures { Takes LineIn (read_declaration parser.old.text (Some 64) room (deeper_block parser.old.text room)) parser.old result parser.new }
{
    if parser.sees_word(Keyword::Include) {
        return inclusion(parser);
    }
    if parser.sees_word(Keyword::Qubit) {
        return qubit_line(parser, room);
    }
    if parser.sees_word(Keyword::Qreg) {
        return qreg_line(parser, room);
    }
    if parser.sees_word(Keyword::Creg) {
        return creg_line(parser, room);
    }
    if parser.begins_type() {
        return variable_line(parser, room);
    }
    if parser.sees_word(Keyword::Const) {
        return constant_line(parser, room);
    }
    if parser.sees_word(Keyword::Output) {
        return output_line(parser, room);
    }
    if parser.sees_word(Keyword::Let) {
        return alias_line(parser, room);
    }
    if parser.sees_word(Keyword::Gate) {
        return gate_definition(parser, room);
    }
    subroutine_definition(parser, room)
}

/// The definition of a subroutine.
#[cycle(stmt)]
#[tactic(auto, unfolding(qasm_grammar::specs::Reader::read_subroutine_definition))]
fn subroutine_definition(parser: &mut Parser, room: u32) -> Result<Stmt, Stop>
    ensures { Takes LineIn (read_subroutine_definition parser.old.text (Some 64) room (deeper_block parser.old.text room)) parser.old result parser.new }
{
    let at = parser.word(Keyword::Def)?.at;
    let name = declared(parser)?;
    let params = parameters(parser, room)?;
    let result = result_type(parser, room)?;
    let body = block(parser, room)?;
    let kind = StmtKind::Def {
        name,
        params: Items { items: params },
        result,
        body: Items {
            items: body.statements,
        },
    };
    let close = body.close;
    Ok(Stmt { kind, at, close })
}

/// Statements in braces, one level deeper.
#[cycle(stmt)]
fn block(parser: &mut Parser, room: u32) -> Result<Block, Stop>
    ensures { Takes BlockIn (deeper_block parser.old.text room) parser.old result parser.new }
{
    let inner = parser.enter(room, Mark::LeftBrace)?;
    let statements = stmts(parser, inner)?;
    let close = parser.mark(Mark::RightBrace)?.at;
    Ok(Block { statements, close })
}

/// Statements, as many as there are.
#[cycle(stmt)]
pub fn stmts(parser: &mut Parser, room: u32) -> Result<Vec<StmtId>, Stop>
    ensures { Parses AllOpenedIn (read_all_stmts parser.old.text (Some 64) room) parser.old result parser.new }
{
    let mut found = Vec::new(parser.alloc());
    'stmts: while begins(parser, Part::Stmt) {
        let (id, _) = stmt(parser, room)?;
        if found.push(id).is_err() {
            return Err(Stop::Memory);
        }
    }
    Ok(found)
}

/// The body of a control statement, one level deeper: statements in braces, or one statement.
#[cycle(stmt)]
fn body(parser: &mut Parser, room: u32) -> Result<Body, Stop>
    ensures { Parses BodyIn (deeper_body parser.old.text room) parser.old result parser.new }
{
    if parser.sees(Mark::LeftBrace) {
        let found = block(parser, room)?;
        return Ok(Body {
            statements: found.statements,
            is_open: false,
            close: Some(found.close),
        });
    }
    if room == 0 {
        return if begins(parser, Part::Stmt) {
            Err(Stop::Deep)
        } else {
            Err(Stop::Syntax)
        };
    }
    let (id, is_open) = stmt(parser, room - 1)?;
    let mut statements = Vec::new(parser.alloc());
    if statements.push(id).is_err() {
        return Err(Stop::Memory);
    }
    Ok(Body {
        statements,
        is_open,
        close: None,
    })
}

/// A control statement.
#[cycle(stmt)]
fn control(parser: &mut Parser, room: u32) -> Result<Opened, Stop>
    ensures { Takes OpenLineIn (read_control parser.old.text (Some 64) room (deeper_body parser.old.text room)) parser.old result parser.new }
{
    if parser.sees_word(Keyword::If) {
        return conditional(parser, room);
    }
    if parser.sees_word(Keyword::While) {
        return while_loop(parser, room);
    }
    for_loop(parser, room)
}

/// An `if`, with the nearest `else` behind it.
#[cycle(stmt)]
#[tactic(auto, unfolding(qasm_grammar::specs::Reader::read_conditional, qasm_grammar::specs::Reader::read_behind_body))]
fn conditional(parser: &mut Parser, room: u32) -> Result<Opened, Stop>
    ensures { Takes OpenLineIn (read_conditional parser.old.text (Some 64) room (deeper_body parser.old.text room)) parser.old result parser.new }
{
    let at = parser.word(Keyword::If)?.at;
    let test = condition(parser, room)?;
    let taken = body(parser, room)?;
    let close = close_or(taken.close, at);
    let yes = Items {
        items: taken.statements,
    };
    if taken.is_open || !parser.sees_word(Keyword::Else) {
        let no = Items {
            items: Vec::new(parser.alloc()),
        };
        let kind = StmtKind::If(test, yes, no);
        return Ok((Stmt { kind, at, close }, true));
    }
    parser.word(Keyword::Else)?;
    let other = body(parser, room)?;
    let close = close_or(other.close, close);
    let no = Items {
        items: other.statements,
    };
    let kind = StmtKind::If(test, yes, no);
    Ok((Stmt { kind, at, close }, other.is_open))
}

/// A `while`.
#[cycle(stmt)]
#[tactic(auto, unfolding(qasm_grammar::specs::Reader::read_while_loop))]
fn while_loop(parser: &mut Parser, room: u32) -> Result<Opened, Stop>
    ensures { Takes OpenLineIn (read_while_loop parser.old.text (Some 64) room (deeper_body parser.old.text room)) parser.old result parser.new }
{
    let at = parser.word(Keyword::While)?.at;
    let test = condition(parser, room)?;
    let turn = body(parser, room)?;
    let close = close_or(turn.close, at);
    let body = Items {
        items: turn.statements,
    };
    let kind = StmtKind::While(test, body);
    Ok((Stmt { kind, at, close }, turn.is_open))
}

/// A `for`.
#[cycle(stmt)]
#[tactic(auto, unfolding(qasm_grammar::specs::Reader::read_for_loop))]
fn for_loop(parser: &mut Parser, room: u32) -> Result<Opened, Stop>
    ensures { Takes OpenLineIn (read_for_loop parser.old.text (Some 64) room (deeper_body parser.old.text room)) parser.old result parser.new }
{
    let at = parser.word(Keyword::For)?.at;
    let ty = any_type(parser, room)?;
    let name = declared(parser)?;
    parser.word(Keyword::In)?;
    let over = turns(parser, room)?;
    let turn = body(parser, room)?;
    let close = close_or(turn.close, at);
    let body = Items {
        items: turn.statements,
    };
    let kind = loop_kind(ty, name, over, body);
    Ok((Stmt { kind, at, close }, turn.is_open))
}
