//! The expression at a token.

ghost use Rattle.std.specs.Prelude.{◌≡◌, ◌≤◌, ◌-◌, ◌^◌, Ok, length, IfOk};
ghost use Rattle.qasm_lexer.specs.Tokens.{Tokens};
ghost use Rattle.qasm_expr.specs.Answer.{IsAnswer, Grows, Added};

use crate::parser::Parser;
use crate::refusal::fault_of;
use indexmap::IndexSet;
use qasm_ast::{Expr, ExprId, Word};
use qasm_expr::{expressions_are_read_exactly, tokens_are_cut};
use qasm_lexer::{MOST_BYTES, Token};
use qq_base::Fault;
use std::alloc::Global;
use std::mem;

/// The levels that a program may open.
pub const LEVELS: u32 = 64;

/// Reads the expression that begins at the token `from`, where so many levels are open: it takes the
/// longest list of tokens that begins an expression. Where that list is an expression, and no limit alone
/// forbids the token behind it, it gives the expression's node and the place behind it in the list of
/// tokens. Else it refuses at the token behind that list, or at the end of the text: by `NestingDeep`
/// where only a limit forbids the token, by `LeftOut` at a word that the profile leaves out or at `#`, and
/// else by `Syntax`.
///
/// New nodes and names come behind the old ones, which stay: at most one of each for each token that is
/// taken. A refusal or want of memory may leave some behind them, too.
pub fn parse_expr(
    alloc: Global,
    text: &str,
    tokens: &[Token],
    from: usize,
    level: u32,
    nodes: &mut Vec<Expr>,
    names: &mut IndexSet<Word>,
) -> Result<(ExprId, usize), Fault>
    requires size { length text.now ≤ MOST_BYTES }
    requires lexed { Tokens text.now (Ok tokens.now) }
    requires within { from ≤ length tokens.now }
    requires level { level ≤ 64 }
    requires nodes { length nodes.old.items ≤ 2 ^ 31 }
    requires names { length names.old.keys ≤ 2 ^ 31 }
    ensures answer { IsAnswer text.now tokens.now from (64 - level) names.new.keys nodes.new.items result }
    ensures grows { Grows names.old.keys names.new.keys nodes.old.items nodes.new.items }
    ensures added { IfOk result (λ r. Added (length names.old.keys) (length names.new.keys) (length nodes.old.items) (length nodes.new.items) from r.1) }
{
    expressions_are_read_exactly();
    tokens_are_cut();
    let old_names = mem::replace(names, IndexSet::new(alloc));
    let old_nodes = mem::replace(nodes, Vec::new(alloc));
    let mut parser = Parser::resume(alloc, text.as_bytes(), tokens, from, old_names, old_nodes);
    let found = parser.expr(LEVELS - level);
    let at = parser.at();
    let (new_names, new_nodes, _) = parser.lists();
    *names = new_names;
    *nodes = new_nodes;
    match found {
        Ok(id) => Ok((id, at)),
        Err(stop) => Err(fault_of(text, tokens, at, stop)),
    }
}
