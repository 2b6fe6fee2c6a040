//! Expressions and types, as the readers of statements have them.

ghost use Rattle.std.specs.Prelude.{◌≡◌, Some};
ghost use Rattle.qasm_expr.specs.Reader.{read_indexes, read_arguments};
ghost use Rattle.qasm_grammar.specs.Reader.{read_inner, read_inside, read_condition, read_any_width, read_any_type};
ghost use Rattle.program_parser.specs.Parses.{Parses, Takes};
ghost use Rattle.program_parser.specs.Shows.{BracketsIn, MaybeIn, ScalarIn, TreeIn, TreesIn};

use qasm_ast::{ExprId, IndexRef, TypeRef};
use qasm_lexer::Mark;
use qasm_parser::{Parser, Stop};

/// An expression in round brackets.
pub fn condition(parser: &mut Parser, room: u32) -> Result<ExprId, Stop>
    ensures { Takes TreeIn (read_condition parser.old.text (Some 64) room) parser.old result parser.new }
{
    let found = parser.between(room, Mark::LeftParen, Mark::RightParen)?;
    Ok(found)
}

/// A width in square brackets, or none.
pub fn any_width(parser: &mut Parser, room: u32) -> Result<Option<ExprId>, Stop>
    ensures { Parses (MaybeIn TreeIn) (read_any_width parser.old.text (Some 64) room) parser.old result parser.new }
{
    if !parser.sees(Mark::LeftBracket) {
        return Ok(None);
    }
    let found = parser.between(room, Mark::LeftBracket, Mark::RightBracket)?;
    Ok(Some(found))
}

/// A type of classical values.
pub fn any_type(parser: &mut Parser, room: u32) -> Result<TypeRef, Stop>
    ensures { Takes ScalarIn (read_any_type parser.old.text (Some 64) room) parser.old result parser.new }
{
    let found = parser.scalar(room)?;
    Ok(found)
}

/// Index brackets, as many as there are.
pub fn brackets(parser: &mut Parser, room: u32) -> Result<Vec<IndexRef>, Stop>
    ensures { Parses BracketsIn (read_indexes parser.old.text room (read_inside parser.old.text (Some 64) room)) parser.old result parser.new }
{
    let found = parser.indexes(room)?;
    Ok(found)
}

/// Arguments in round brackets.
#[tactic(auto, unfolding(qasm_expr::specs::Reader::read_between))]
pub fn arguments(parser: &mut Parser, room: u32) -> Result<Vec<ExprId>, Stop>
    ensures { Takes TreesIn (read_arguments parser.old.text room (read_inner parser.old.text (Some 64) room)) parser.old result parser.new }
{
    let inner = parser.enter(room, Mark::LeftParen)?;
    let found = parser.list(inner, false)?;
    parser.mark(Mark::RightParen)?;
    Ok(found)
}
