//! Whether a source text is accepted, and the first rule that it breaks where it is not.

ghost use Rattle.std.specs.Prelude.{◌≡◌, ◌≤◌, length, IfOk};
ghost use Rattle.qq_base.specs.declared.refusal.Refusal.{Refusal};
ghost use Rattle.qq_tool.specs.Refused.{IsRefused, IsProgramText, BreaksRule, at_start as refused_at_start};
ghost use Rattle.qq_tool.specs.Thin.{Spells};

use crate::read::read_thin;
use crate::thin::ThinProgram;
use qasm_ast::Program;
use qasm_lexer::{MOST_BYTES, lex};
use qasm_stmt::parse_program;
use qq_base::{Fault, Refusal, Rule, Span};
use std::alloc::Global;

/// The refusal by a rule of the whole text, at 1:1.
pub fn at_start(rule: Rule) -> Refusal
    ensures { result ≡ refused_at_start rule }
{
    Refusal {
        rule,
        at: Span { line: 1, column: 1 },
    }
}

/// The program that a source text spells, or the first rule that the text breaks, with its place.
pub fn checked(alloc: Global, source: &[u8]) -> Result<ThinProgram, Fault>
    requires { length source.now ≤ MOST_BYTES }
    ensures ok { IfOk result (λ p. Spells source.now p) }
    ensures refused { (refusal : Refusal) → result ≡ Err (Fault.Refused refusal) → IsRefused source.now refusal }
{
    parsed(alloc, source)?;
    match read_thin(alloc, source)? {
        Some(program) => Ok(program),
        None => Err(Fault::Refused(at_start(Rule::NotBuilt))),
    }
}

/// The tree of a source text, or the refusal by the rules of its tokens and of programs.
fn parsed(alloc: Global, source: &[u8]) -> Result<Program, Fault>
    requires { length source.now ≤ MOST_BYTES }
    ensures ok { IfOk result (λ _. IsProgramText source.now) }
    ensures refused { (refusal : Refusal) → result ≡ Err (Fault.Refused refusal) → BreaksRule source.now refusal }
{
    let tokens = lex(alloc, source)?;
    match str::from_utf8(source) {
        Ok(text) => parse_program(alloc, text, &tokens),
        // A text that has tokens is UTF-8.
        Err(_) => unreachable!(),
    }
}
