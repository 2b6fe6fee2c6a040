//! Parameters of gates and of subroutines.

ghost use Rattle.std.specs.Prelude.{◌≡◌, Some};
ghost use Rattle.qasm_grammar.specs.Reader.{read_parameter, read_parameters, read_any_gate_parameters, read_result};
ghost use Rattle.program_parser.specs.Parses.{Parses, Takes};
ghost use Rattle.program_parser.specs.Shows.{ListIn, MaybeIn, NameIn, ParameterIn, ScalarIn};

use crate::lists::list;
use crate::operands::declared;
use crate::parts::{any_type, any_width};
use qasm_ast::{Base, Declared, TypeRef};
use qasm_lexer::{Keyword, Mark};
use qasm_parser::{Parser, Stop};

/// A parameter of a subroutine.
#[tactic(auto, unfolding(qasm_grammar::specs::Reader::read_parameter))]
pub fn parameter(parser: &mut Parser, room: u32) -> Result<(TypeRef, Declared), Stop>
    ensures { Takes ParameterIn (read_parameter parser.old.text (Some 64) room) parser.old result parser.new }
{
    if parser.begins_type() {
        let ty = any_type(parser, room)?;
        let name = declared(parser)?;
        return Ok((ty, name));
    }
    let at = parser.word(Keyword::Qubit)?.at;
    let width = any_width(parser, room)?;
    let name = declared(parser)?;
    let ty = TypeRef {
        base: Base::Qubit,
        width,
        at,
    };
    Ok((ty, name))
}

/// The parameters of a subroutine, in round brackets.
#[tactic(auto, unfolding(qasm_grammar::specs::Reader::read_parameters, qasm_expr::specs::Reader::read_between))]
pub fn parameters(parser: &mut Parser, room: u32) -> Result<Vec<(TypeRef, Declared)>, Stop>
    ensures { Takes (ListIn ParameterIn) (read_parameters parser.old.text (Some 64) room) parser.old result parser.new }
{
    let inner = parser.enter(room, Mark::LeftParen)?;
    let found = list(parser, inner, false)?;
    parser.mark(Mark::RightParen)?;
    Ok(found)
}

/// The parameters of a gate, in round brackets where there are some.
#[tactic(auto, unfolding(qasm_grammar::specs::Reader::read_any_gate_parameters, qasm_expr::specs::Reader::read_between))]
pub fn any_gate_parameters(parser: &mut Parser, room: u32) -> Result<Vec<Declared>, Stop>
    ensures { Parses (ListIn NameIn) (read_any_gate_parameters parser.old.text room) parser.old result parser.new }
{
    if !parser.sees(Mark::LeftParen) {
        return Ok(Vec::new(parser.alloc()));
    }
    let inner = parser.enter(room, Mark::LeftParen)?;
    let found = list(parser, inner, false)?;
    parser.mark(Mark::RightParen)?;
    Ok(found)
}

/// The result type of a subroutine behind its arrow, or none.
pub fn result_type(parser: &mut Parser, room: u32) -> Result<Option<TypeRef>, Stop>
    ensures { Parses (MaybeIn ScalarIn) (read_result parser.old.text (Some 64) room) parser.old result parser.new }
{
    if !parser.eat(Mark::Arrow) {
        return Ok(None);
    }
    let found = any_type(parser, room)?;
    Ok(Some(found))
}
