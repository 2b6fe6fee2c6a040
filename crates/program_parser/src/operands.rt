//! Names, operands and values.

ghost use Rattle.std.specs.Prelude.{◌≡◌, Some};
ghost use Rattle.grammar_parts.specs.Reading.{take_one};
ghost use Rattle.qasm_grammar.specs.Parts.{hardware_of};
ghost use Rattle.qasm_grammar.specs.Reader.{read_name, read_target, read_operand, read_value};
ghost use Rattle.program_parser.specs.Parses.{Parses, Takes};
ghost use Rattle.program_parser.specs.Shows.{NameIn, OperandIn, ValueIn};
ghost use Rattle.program_parser.specs.Begins as kinds;

use crate::begins::{Part, begins};
use crate::parts::brackets;
use qasm_ast::{Declared, Items, OperandName, OperandRef, ValueRef};
use qasm_lexer::{Keyword, TokenKind};
use qasm_parser::{Parser, Stop};

/// A name.
pub fn declared(parser: &mut Parser) -> Result<Declared, Stop>
    ensures { Takes NameIn (read_name parser.old.text) parser.old result parser.new }
{
    let name = parser.name()?;
    Ok(name)
}

/// A name with its index brackets.
#[tactic(auto, unfolding(qasm_grammar::specs::Reader::read_target))]
pub fn target(parser: &mut Parser, room: u32) -> Result<OperandRef, Stop>
    ensures { Takes OperandIn (read_target parser.old.text (Some 64) room) parser.old result parser.new }
{
    let name = parser.name()?;
    let index = brackets(parser, room)?;
    Ok(OperandRef {
        name: OperandName::Name(name.name),
        index: Items { items: index },
        at: name.at,
    })
}

/// The number of a hardware qubit.
fn hardware_number(kind: TokenKind) -> Option<u32>
    ensures { result ≡ kinds.hardware_number kind }
{
    match kind {
        TokenKind::Hardware(number) => Some(number),
        _ => None,
    }
}

/// A hardware qubit.
fn hardware(parser: &mut Parser) -> Result<OperandRef, Stop>
    ensures { Takes OperandIn (take_one hardware_of) parser.old result parser.new }
{
    let Some(token) = parser.next() else {
        return Err(Stop::Syntax);
    };
    let Some(number) = hardware_number(token.kind) else {
        return Err(Stop::Syntax);
    };
    parser.skip();
    Ok(OperandRef {
        name: OperandName::Hardware(number),
        index: Items {
            items: Vec::new(parser.alloc()),
        },
        at: token.at,
    })
}

/// A name with its index brackets, or a hardware qubit.
#[tactic(auto, unfolding(qasm_grammar::specs::Reader::read_operand))]
pub fn operand(parser: &mut Parser, room: u32) -> Result<OperandRef, Stop>
    ensures { Takes OperandIn (read_operand parser.old.text (Some 64) room) parser.old result parser.new }
{
    if begins(parser, Part::Name) {
        return target(parser, room);
    }
    hardware(parser)
}

/// An expression, or a measurement.
#[tactic(auto, unfolding(qasm_grammar::specs::Reader::read_value))]
pub fn value(parser: &mut Parser, room: u32) -> Result<ValueRef, Stop>
    ensures { Parses ValueIn (read_value parser.old.text (Some 64) room) parser.old result parser.new }
{
    if parser.begins_expr() {
        let expr = parser.expr(room)?;
        return Ok(ValueRef::Expr(expr));
    }
    parser.word(Keyword::Measure)?;
    let measured = operand(parser, room)?;
    Ok(ValueRef::Measure(measured))
}
