//! The program that the tokens of a text are.

ghost use Rattle.std.specs.Prelude.{◌≡◌, ◌≤◌, Ok, length, nat_eq, IfOk};
ghost use Rattle.std.specs.List.{IsDistinct};
ghost use Rattle.std.specs.Cmp.Lexicographic.{pointwise};
ghost use Rattle.qasm_ast.specs.View.{level};
ghost use Rattle.qasm_lexer.specs.Tokens.{Tokens};
ghost use Rattle.program_parser.specs.Parsed.{IsParsed};

use crate::refusal::fault_of;
use crate::whole::whole;
use indexmap::IndexSet;
use qasm_ast::{Items, Program, Word};
use qasm_expr::tokens_are_cut;
use qasm_grammar::{answers_are_right, programs_are_read_exactly, programs_fit_their_room};
use qasm_lexer::{MOST_BYTES, Token, end_of};
use qasm_parser::{Parser, Stop};
use qq_base::Fault;
use std::alloc::{AllocError, Global};

/// The names in their order, of which no two are equal.
fn words(alloc: Global, names: IndexSet<Word>) -> Result<Vec<Word>, AllocError>
    ensures items { IfOk result (λ v. v.items ≡ names.keys) }
    ensures distinct { IfOk result (λ v. IsDistinct (pointwise nat_eq) v.items) }
{
    // That no two are equal, `len` says.
    let _ = names.len();
    let words = names.into_iter().collect(alloc)?;
    Ok(words)
}

/// Reads the program that the tokens of a text are: its one tree, with the place of the end of the text.
/// Else it refuses at the first token after which no program goes on, or at the end of the text: by
/// `NestingDeep` where only a limit forbids the token, by `LeftOut` at what the profile leaves out, by
/// `Version` at another version or a second `OPENQASM`, by `Include` at another file, and else by `Syntax`.
/// The tree has at most 64 levels.
pub fn parse_program(alloc: Global, text: &str, tokens: &[Token]) -> Result<Program, Fault>
    requires size { length text.now ≤ MOST_BYTES }
    requires lexed { Tokens text.now (Ok tokens.now) }
    ensures parsed { IsParsed text.now tokens.now result }
    ensures levels { IfOk result (λ p. level p ≤ 64) }
{
    tokens_are_cut();
    programs_are_read_exactly();
    answers_are_right();
    programs_fit_their_room();
    let mut parser = Parser::new(alloc, text.as_bytes(), tokens);
    let top = match whole(&mut parser) {
        Ok(top) => top,
        Err(stop) => {
            let at = tokens.len().saturating_sub(parser.remaining());
            return Err(fault_of(alloc, text, tokens, at, stop));
        }
    };
    if parser.remaining() > 0 {
        let at = parser.at();
        return Err(fault_of(alloc, text, tokens, at, Stop::Syntax));
    }
    let (names, exprs, stmts) = parser.lists();
    let Ok(names) = words(alloc, names) else {
        return Err(Fault::Memory);
    };
    let end = end_of(text.as_bytes());
    let top = Items { items: top };
    Ok(Program::new(alloc, names, exprs, stmts, top, end)?)
}
