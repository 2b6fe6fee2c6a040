//! Definitions of gates.

ghost use Rattle.std.specs.Prelude.{◌≡◌, ◌<◌, Some, length, IfOk};
ghost use Rattle.grammar_parts.specs.Reading.{take_repeated};
ghost use Rattle.qasm_expr.specs.Reader.{begins};
ghost use Rattle.qasm_grammar.specs.Reader.{read_member, read_gate_body, read_gate_definition, member_kinds};
ghost use Rattle.program_parser.specs.Parses.{Parses, Takes};
ghost use Rattle.program_parser.specs.Shows.{LineIn, MemberIn};
ghost use Rattle.program_parser.specs.Nesting.{GateLineIn, AllMembersIn, GateBodyIn};

use crate::actions::barrier_line;
use crate::begins::{Part, begins};
use crate::block::Block;
use crate::calls::call_line;
use crate::lists::list;
use crate::operands::declared;
use crate::parameters::any_gate_parameters;
use qasm_ast::{Items, Stmt, StmtId, StmtKind};
use qasm_lexer::{Keyword, Mark};
use qasm_parser::{Parser, Stop};

/// A member of a gate's body that is not yet in its list.
#[tactic(auto, unfolding(qasm_grammar::specs::Reader::read_member))]
fn member_line(parser: &mut Parser, room: u32) -> Result<Stmt, Stop>
    ensures { Takes GateLineIn (read_member parser.old.text (Some 64) room) parser.old result parser.new }
{
    if begins(parser, Part::Call) {
        return call_line(parser, room);
    }
    barrier_line(parser, room)
}

/// A member of a gate's body, added to its list.
fn member(parser: &mut Parser, room: u32) -> Result<StmtId, Stop>
    ensures reads { Parses MemberIn (read_member parser.old.text (Some 64) room) parser.old result parser.new }
    ensures moves { IfOk result (λ id. length parser.new.left < length parser.old.left) }
{
    let found = member_line(parser, room)?;
    let id = parser.push(found)?;
    Ok(id)
}

/// Members of a gate's body, as many as there are.
fn members(parser: &mut Parser, room: u32) -> Result<Vec<StmtId>, Stop>
    ensures { Parses AllMembersIn (take_repeated (begins parser.old.text member_kinds) (read_member parser.old.text (Some 64) room)) parser.old result parser.new }
{
    let mut found = Vec::new(parser.alloc());
    'members: while begins(parser, Part::Member) {
        let id = member(parser, room)?;
        if found.push(id).is_err() {
            return Err(Stop::Memory);
        }
    }
    Ok(found)
}

/// The body of a gate.
fn gate_body(parser: &mut Parser, room: u32) -> Result<Block, Stop>
    ensures { Takes GateBodyIn (read_gate_body parser.old.text (Some 64) room) parser.old result parser.new }
{
    let inner = parser.enter(room, Mark::LeftBrace)?;
    let statements = members(parser, inner)?;
    let close = parser.mark(Mark::RightBrace)?.at;
    Ok(Block { statements, close })
}

/// The definition of a gate.
#[tactic(auto, unfolding(qasm_grammar::specs::Reader::read_gate_definition, qasm_grammar::specs::Reader::read_names))]
pub fn gate_definition(parser: &mut Parser, room: u32) -> Result<Stmt, Stop>
    ensures { Takes LineIn (read_gate_definition parser.old.text (Some 64) room) parser.old result parser.new }
{
    let at = parser.word(Keyword::Gate)?.at;
    let name = declared(parser)?;
    let params = any_gate_parameters(parser, room)?;
    let qubits = list(parser, room, true)?;
    let body = gate_body(parser, room)?;
    let kind = StmtKind::Gate {
        name,
        params: Items { items: params },
        qubits: Items { items: qubits },
        body: Items {
            items: body.statements,
        },
    };
    let close = body.close;
    Ok(Stmt { kind, at, close })
}
