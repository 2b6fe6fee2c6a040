//! The version and all statements of a list of tokens.

ghost use Rattle.std.specs.Prelude.{◌≡◌, ◌≢◌, ◌≤◌, ◌+◌, [], Some, Ok, length, drop, IfOk, IfErr, OnOk};
ghost use Rattle.grammar_parts.specs.Reading.{take_one};
ghost use Rattle.qasm_expr.specs.Seen.{Cut, Gives};
ghost use Rattle.qasm_expr.specs.declared.stop.Stop.TheVariants.{Syntax, Memory};
ghost use Rattle.qasm_grammar.specs.Parts.{is_zero, version_of};
ghost use Rattle.qasm_grammar.specs.Reader.{read_program, read_version};
ghost use Rattle.qasm_stmt.specs.Seen.{Sound, Few, Any, IsStatements};

use crate::arena::Arena;
use crate::statements::stmts;
use crate::words::word;
use qasm_ast::StmtId;
use qasm_expr::LEVELS;
use qasm_expr::parts::{Stop, expect, sees_word};
use qasm_lexer::{Keyword, Mark, Token, TokenKind};
use std::alloc::Global;

/// Whether the second number of a version is left out or 0.
fn is_zero(minor: Option<u32>) -> bool
    ensures { result ≡ is_zero minor }
{
    match minor {
        None => true,
        Some(number) => number == 0,
    }
}

/// The number of the version that the language has.
fn version_number(tokens: &[Token], from: usize) -> Result<((), usize), Stop>
    requires within { from ≤ length tokens.now }
    ensures gives { Gives Any tokens.now from (take_one version_of (drop from tokens.now)) result }
    ensures next { IfOk result (λ r. r.1 ≡ from + 1) }
    ensures stop { IfErr result (λ e. e ≡ Syntax from) }
{
    if from == tokens.len() {
        return Err(Stop::Syntax(from));
    }
    match tokens[from].kind {
        TokenKind::Version { major, minor } if major == 3 && is_zero(minor) => Ok(((), from + 1)),
        _ => Err(Stop::Syntax(from)),
    }
}

/// The line of the version, or none.
fn version(text: &[u8], tokens: &[Token], from: usize) -> Result<((), usize), Stop>
    requires within { from ≤ length tokens.now }
    requires cut { Cut text.now tokens.now }
    ensures gives { Gives Any tokens.now from (read_version text.now (drop from tokens.now)) result }
    ensures memory { IfErr result (λ e. e ≢ Memory) }
{
    if !sees_word(text, tokens, from, Keyword::OpenQasm) {
        return Ok(((), from));
    }
    let (_, at) = word(text, tokens, from, Keyword::OpenQasm)?;
    let (_, at) = version_number(tokens, at)?;
    let at = expect(text, tokens, at, Mark::Semicolon)?;
    Ok(((), at))
}

/// All statements, and the place behind them.
pub fn whole(
    alloc: Global,
    text: &[u8],
    tokens: &[Token],
    arena: &mut Arena,
) -> Result<(Vec<StmtId>, usize), Stop>
    requires cut { Cut text.now tokens.now }
    requires few { Few arena.old 0 }
    requires sound { Sound arena.old }
    ensures gives { Gives (λ v ss. IsStatements arena.new v.items ss) tokens.now 0 (read_program text.now (Some 64) 64 tokens.now) result }
    ensures few { IfOk result (λ r. Few arena.new r.1) }
    ensures sound { OnOk result (Sound arena.new) }
{
    let (_, from) = version(text, tokens, 0)?;
    stmts(alloc, text, tokens, from, LEVELS, arena)
}
