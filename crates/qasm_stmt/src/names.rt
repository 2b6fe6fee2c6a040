//! Names that are declared.

ghost use Rattle.std.specs.Prelude.{◌≡◌, ◌≤◌, Some, Ok, length, drop, IfOk, OnOk};
ghost use Rattle.qasm_expr.specs.Seen.{Cut, Gives};
ghost use Rattle.qasm_grammar.specs.Reader.{read_name, name_kinds};
ghost use Rattle.qasm_expr.specs.Reader.{read_listed};
ghost use Rattle.qasm_stmt.specs.Seen.{Sound, Few, Grown, IsList, IsName};

use crate::arena::Arena;
use crate::begins::begins_name;
use qasm_ast::Declared;
use qasm_expr::parts::{Stop, intern, name, sees};
use qasm_lexer::{Mark, Token};
use std::alloc::Global;

/// A name.
pub fn declared(
    alloc: Global,
    text: &[u8],
    tokens: &[Token],
    from: usize,
    arena: &mut Arena,
) -> Result<(Declared, usize), Stop>
    requires within { from ≤ length tokens.now }
    requires cut { Cut text.now tokens.now }
    requires few { Few arena.old from }
    requires sound { Sound arena.old }
    ensures gives { Gives (IsName arena.new) tokens.now from (read_name text.now (drop from tokens.now)) result }
    ensures grown { OnOk result (Grown arena.old arena.new) }
    ensures kept { OnOk result (arena.new.stmts.items ≡ arena.old.stmts.items) }
    ensures few { IfOk result (λ r. Few arena.new r.1) }
    ensures sound { OnOk result (Sound arena.new) }
{
    let (token, next) = name(text, tokens, from)?;
    let spelling = &text[token.start as usize..token.end as usize];
    let name = intern(alloc, &mut arena.names, spelling)?;
    Ok((Declared { name, at: token.at }, next))
}

/// Names with commas between them, and maybe one behind them; one at least where it is filled.
pub fn names(
    alloc: Global,
    text: &[u8],
    tokens: &[Token],
    from: usize,
    filled: bool,
    arena: &mut Arena,
) -> Result<(Vec<Declared>, usize), Stop>
    requires within { from ≤ length tokens.now }
    requires cut { Cut text.now tokens.now }
    requires few { Few arena.old from }
    requires sound { Sound arena.old }
    ensures gives { Gives (λ v xs. IsList (IsName arena.new) v.items xs) tokens.now from (read_listed text.now name_kinds filled (read_name text.now) (drop from tokens.now)) result }
    ensures grown { OnOk result (Grown arena.old arena.new) }
    ensures kept { OnOk result (arena.new.stmts.items ≡ arena.old.stmts.items) }
    ensures few { IfOk result (λ r. Few arena.new r.1) }
    ensures sound { OnOk result (Sound arena.new) }
{
    let mut found = Vec::new(alloc);
    let mut at = from;
    let mut first = filled;
    'items: while first || begins_name(text, tokens, at) {
        let (item, next) = declared(alloc, text, tokens, at, arena)?;
        if found.push(item).is_err() {
            return Err(Stop::Memory);
        }
        first = false;
        if !sees(text, tokens, next, Mark::Comma) {
            return Ok((found, next));
        }
        at = next + 1;
    }
    Ok((found, at))
}
