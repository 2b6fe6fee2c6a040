//! The version and all statements of a list of tokens.

ghost use Rattle.std.specs.Prelude.{◌≡◌, Some};
ghost use Rattle.grammar_parts.specs.Reading.{take_one};
ghost use Rattle.qasm_grammar.specs.Parts.{is_zero, version_of};
ghost use Rattle.qasm_grammar.specs.Reader.{read_program, read_version};
ghost use Rattle.program_parser.specs.Parses.{Parses, Takes};
ghost use Rattle.program_parser.specs.Nesting.{AnyIn, StatementsIn};
ghost use Rattle.program_parser.specs.Refusing.{is_version};

use crate::statements::stmts;
use qasm_ast::StmtId;
use qasm_lexer::{Keyword, Mark, TokenKind};
use qasm_parser::{LEVELS, Parser, Stop};

/// Whether the second number of a version is left out or 0.
fn is_zero(minor: Option<u32>) -> bool
    ensures { result ≡ is_zero minor }
{
    match minor {
        None => true,
        Some(number) => number == 0,
    }
}

/// Whether it is the version that the language has.
fn is_version(kind: TokenKind) -> bool
    ensures { result ≡ is_version kind }
{
    match kind {
        TokenKind::Version { major, minor } => major == 3 && is_zero(minor),
        _ => false,
    }
}

/// Takes the number of the version that the language has.
fn version_number(parser: &mut Parser) -> Result<(), Stop>
    ensures { Takes AnyIn (take_one version_of) parser.old result parser.new }
{
    let Some(token) = parser.next() else {
        return Err(Stop::Syntax);
    };
    if !is_version(token.kind) {
        return Err(Stop::Syntax);
    }
    parser.skip();
    Ok(())
}

/// The line of the version, or none.
#[tactic(auto, unfolding(qasm_grammar::specs::Reader::read_version_line))]
fn version(parser: &mut Parser) -> Result<(), Stop>
    ensures { Parses AnyIn (read_version parser.old.text) parser.old result parser.new }
{
    if !parser.sees_word(Keyword::OpenQasm) {
        return Ok(());
    }
    parser.word(Keyword::OpenQasm)?;
    version_number(parser)?;
    parser.mark(Mark::Semicolon)?;
    Ok(())
}

/// All statements.
#[tactic(auto, unfolding(qasm_grammar::specs::Reader::read_program))]
pub fn whole(parser: &mut Parser) -> Result<Vec<StmtId>, Stop>
    ensures { Parses StatementsIn (read_program parser.old.text (Some 64) 64) parser.old result parser.new }
{
    version(parser)?;
    stmts(parser, LEVELS)
}
