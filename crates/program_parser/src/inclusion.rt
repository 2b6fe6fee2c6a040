//! The file that may be included.

ghost use Rattle.std.specs.Prelude.{◌≡◌};
ghost use Rattle.grammar_parts.specs.Reading.{take_one};
ghost use Rattle.qasm_grammar.specs.Parts.{included, is_stdgates};
ghost use Rattle.qasm_grammar.specs.Reader.{read_inclusion};
ghost use Rattle.program_parser.specs.Parses.{Takes};
ghost use Rattle.program_parser.specs.Nesting.{AnyIn};
ghost use Rattle.program_parser.specs.Refusing.{is_text};
ghost use Rattle.program_parser.specs.Shows.{LineIn};

use crate::declarations::line;
use qasm_ast::{Stmt, StmtKind};
use qasm_lexer::{Keyword, Mark, TokenKind};
use qasm_parser::{Parser, Stop};

/// Whether it is a text.
fn is_text(kind: TokenKind) -> bool
    ensures { result ≡ is_text kind }
{
    matches!(kind, TokenKind::Text)
}

/// Whether the characters are the text `stdgates.inc`, in quotes of either kind.
fn is_stdgates(spelling: &[u8]) -> bool
    ensures { result ≡ is_stdgates spelling.now }
{
    spelling == b"\"stdgates.inc\"".as_slice() || spelling == b"'stdgates.inc'".as_slice()
}

/// Takes the text of the file that may be included.
fn included(parser: &mut Parser) -> Result<(), Stop>
    ensures { Takes AnyIn (take_one (included parser.old.text)) parser.old result parser.new }
{
    let Some(token) = parser.next() else {
        return Err(Stop::Syntax);
    };
    if !is_text(token.kind) {
        return Err(Stop::Syntax);
    }
    if !is_stdgates(parser.spelling(token)) {
        return Err(Stop::Syntax);
    }
    parser.skip();
    Ok(())
}

/// An include.
#[tactic(auto, unfolding(qasm_grammar::specs::Reader::read_inclusion))]
pub fn inclusion(parser: &mut Parser) -> Result<Stmt, Stop>
    ensures { Takes LineIn (read_inclusion parser.old.text) parser.old result parser.new }
{
    let at = parser.word(Keyword::Include)?.at;
    included(parser)?;
    parser.mark(Mark::Semicolon)?;
    Ok(line(StmtKind::Include, at))
}
