//! Lists with commas between their items.

ghost use Rattle.std.specs.Prelude.{◌≡◌, ◌||◌, ℕ, Some, List};
ghost use Rattle.qasm_lexer.specs.declared.token.Token.{Token};
ghost use Rattle.qasm_ast.specs.Tree.{Name, Operand, Parameter};
ghost use Rattle.grammar_parts.specs.Reading.{Reader, heads};
ghost use Rattle.qasm_expr.specs.Reader.{begins, read_listed};
ghost use Rattle.qasm_grammar.specs.Reader.{name_kinds, operand_kinds, parameter_kinds, read_name, read_operand, read_parameter};
ghost use Rattle.program_parser.specs.World.{World};
ghost use Rattle.program_parser.specs.Parses.{Parses, Takes};
ghost use Rattle.program_parser.specs.Shows.{ListIn, NameIn, OperandIn, ParameterIn};

use crate::begins::{Part, begins};
use crate::operands::{declared, operand};
use crate::parameters::parameter;
use qasm_ast::{Declared, OperandRef, TypeRef};
use qasm_lexer::Mark;
use qasm_parser::{Parser, Stop};

/// An item of a list. It takes a token at least, and its first token tells it.
pub trait Item: Sized + Drop {
    /// What it stands for, what that is in a world, and by which kinds and which reader it is read.
    ghost Value: { Type 0 };

    ghost look: { World → Self → Value → Type 0 };

    ghost kinds: { List ℕ };

    ghost reader: { List ℕ → ℕ → Reader Token Value };

    /// Whether it begins with the next token.
    fn is_next(parser: &Parser) -> bool
        ensures { result ≡ heads (begins parser.now.text kinds) parser.now.left };

    /// Reads it.
    fn read(parser: &mut Parser, room: u32) -> Result<Self, Stop>
        ensures { Takes look (reader parser.old.text room) parser.old result parser.new };
}

impl Item for Declared {
    ghost Value = { Name };

    ghost look = { NameIn };

    ghost kinds = { name_kinds };

    ghost reader = { λ text room. read_name text };

    fn is_next(parser: &Parser) -> bool {
        begins(parser, Part::Name)
    }

    fn read(parser: &mut Parser, _room: u32) -> Result<Self, Stop> {
        declared(parser)
    }
}

impl Item for OperandRef {
    ghost Value = { Operand };

    ghost look = { OperandIn };

    ghost kinds = { operand_kinds };

    ghost reader = { λ text room. read_operand text (Some 64) room };

    fn is_next(parser: &Parser) -> bool {
        begins(parser, Part::Operand)
    }

    fn read(parser: &mut Parser, room: u32) -> Result<Self, Stop> {
        operand(parser, room)
    }
}

impl Item for (TypeRef, Declared) {
    ghost Value = { Parameter };

    ghost look = { ParameterIn };

    ghost kinds = { parameter_kinds };

    ghost reader = { λ text room. read_parameter text (Some 64) room };

    fn is_next(parser: &Parser) -> bool {
        begins(parser, Part::Parameter)
    }

    fn read(parser: &mut Parser, room: u32) -> Result<Self, Stop> {
        parameter(parser, room)
    }
}

/// Whether an item is to be taken: the first one has to be, another where it begins.
fn may_take<T: Item>(parser: &Parser, first: bool) -> bool
    ensures { result ≡ (first || heads (begins parser.now.text T.kinds) parser.now.left) }
{
    first || T::is_next(parser)
}

/// Items with commas between them, and maybe one behind them; one at least where it is filled.
pub fn list<T: Item>(parser: &mut Parser, room: u32, filled: bool) -> Result<Vec<T>, Stop>
    ensures { Parses (ListIn T.look) (read_listed parser.old.text T.kinds filled (T.reader parser.old.text room)) parser.old result parser.new }
{
    let mut found = Vec::new(parser.alloc());
    let mut first = filled;
    'items: while may_take::<T>(parser, first) {
        let item = T::read(parser, room)?;
        if found.push(item).is_err() {
            return Err(Stop::Memory);
        }
        first = false;
        if !parser.eat(Mark::Comma) {
            return Ok(found);
        }
    }
    Ok(found)
}
