//! Statements that begin with a name, and actions.

ghost use Rattle.std.specs.Prelude.{◌≡◌, ℕ, List, Some};
ghost use Rattle.qq_base.specs.declared.refusal.Span.{Span};
ghost use Rattle.qasm_ast.specs.Tree.{Name, Tree};
ghost use Rattle.qasm_grammar.specs.Parts.{declared};
ghost use Rattle.qasm_grammar.specs.Reader.{read_assignment, read_gate_call_line, read_named_line, read_action};
ghost use Rattle.program_parser.specs.World.{Stands};
ghost use Rattle.program_parser.specs.Parses.{Takes};
ghost use Rattle.program_parser.specs.Shows.{LineIn, NameIn, TreesIn};

use crate::actions::{assigned, barrier_line, measure_line, reset_line, return_line, word_line};
use crate::begins::{Part, begins};
use crate::calls::{applied, call_line, statement};
use crate::declarations::line;
use crate::parts::{arguments, brackets};
use qasm_ast::{Declared, ExprId, ExprKind, Items, OperandName, OperandRef, Stmt, StmtKind};
use qasm_lexer::{Keyword, Mark};
use qasm_parser::{Parser, Stop};

/// An assignment behind the name of its target.
#[tactic(auto, unfolding(qasm_grammar::specs::Reader::read_assignment))]
fn assignment(parser: &mut Parser, room: u32, name: Declared) -> Result<Stmt, Stop>
    ensures { (x : List ℕ × Span) → Stands NameIn parser.old name (declared x) →
        Takes LineIn (read_assignment parser.old.text (Some 64) room x) parser.old result parser.new }
{
    let index = brackets(parser, room)?;
    let target = OperandRef {
        name: OperandName::Name(name.name),
        index: Items { items: index },
        at: name.at,
    };
    assigned(parser, room, target)
}

/// The statement of a call of this gate with these arguments, behind them.
fn gate_call_line(
    parser: &mut Parser,
    room: u32,
    gate: Declared,
    args: Vec<ExprId>,
) -> Result<Stmt, Stop>
    ensures { (x : List ℕ × Span) (es : List Tree) → Stands NameIn parser.old gate (declared x) → Stands TreesIn parser.old args es →
        Takes LineIn (read_gate_call_line parser.old.text (Some 64) room x es) parser.old result parser.new }
{
    let found = applied(parser, room, gate, args)?;
    Ok(statement(found))
}

/// A call or an assignment, which begin with a name.
#[tactic(auto, unfolding(qasm_grammar::specs::Reader::read_behind_name))]
fn named_line(parser: &mut Parser, room: u32) -> Result<Stmt, Stop>
    ensures { Takes LineIn (read_named_line parser.old.text (Some 64) room) parser.old result parser.new }
{
    let name = parser.name()?;
    if begins(parser, Part::Assignment) {
        return assignment(parser, room, name);
    }
    if !parser.sees(Mark::LeftParen) {
        let none = Vec::new(parser.alloc());
        return gate_call_line(parser, room, name, none);
    }
    let args = arguments(parser, room)?;
    if parser.sees(Mark::Semicolon) {
        parser.mark(Mark::Semicolon)?;
        let kind = ExprKind::Call(name.name, Items { items: args });
        let call = parser.node(kind, name.at)?;
        return Ok(line(StmtKind::Call(call), name.at));
    }
    gate_call_line(parser, room, name, args)
}

/// An action.
#[tactic(auto, unfolding(qasm_grammar::specs::Reader::read_action))]
pub fn action(parser: &mut Parser, room: u32) -> Result<Stmt, Stop>
    ensures { Takes LineIn (read_action parser.old.text (Some 64) room) parser.old result parser.new }
{
    if parser.sees_word(Keyword::Barrier) {
        return barrier_line(parser, room);
    }
    if parser.sees_word(Keyword::Reset) {
        return reset_line(parser, room);
    }
    if parser.sees_word(Keyword::Measure) {
        return measure_line(parser, room);
    }
    if parser.sees_word(Keyword::Break) {
        return word_line(parser, Keyword::Break, StmtKind::Break);
    }
    if parser.sees_word(Keyword::Continue) {
        return word_line(parser, Keyword::Continue, StmtKind::Continue);
    }
    if parser.sees_word(Keyword::End) {
        return word_line(parser, Keyword::End, StmtKind::End);
    }
    if parser.sees_word(Keyword::Return) {
        return return_line(parser, room);
    }
    if begins(parser, Part::Change) {
        return call_line(parser, room);
    }
    if parser.sees_word(Keyword::Gphase) {
        return call_line(parser, room);
    }
    named_line(parser, room)
}
