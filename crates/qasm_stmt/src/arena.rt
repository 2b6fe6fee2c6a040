//! The lists of a tree that is being read.

ghost use Rattle.std.specs.Prelude.{◌≡◌, ◌<◌, ◌^◌, [], length, Ok, Err, IfOk, IfErr};
ghost use Rattle.qasm_expr.specs.declared.stop.Stop.TheVariants.{Memory};
ghost use Rattle.qasm_stmt.specs.Seen.{Pushed};

use indexmap::IndexSet;
use qasm_ast::{Expr, Stmt, StmtId, Word};
use qasm_expr::parts::Stop;
use std::alloc::Global;

/// The names, expressions and statements of a tree that is being read, each by its place in its list.
#[derive(Drop)]
pub struct Arena {
    pub names: IndexSet<Word>,
    pub exprs: Vec<Expr>,
    pub stmts: Vec<Stmt>,
}

impl Arena {
    /// Empty lists.
    pub fn new(alloc: Global) -> Arena
        ensures names { result.names.keys ≡ [] }
        ensures exprs { result.exprs.items ≡ [] }
        ensures stmts { result.stmts.items ≡ [] }
    {
        Arena {
            names: IndexSet::new(alloc),
            exprs: Vec::new(alloc),
            stmts: Vec::new(alloc),
        }
    }
}

/// Adds a statement, and gives its number.
pub fn push(arena: &mut Arena, stmt: Stmt) -> Result<StmtId, Stop>
    requires room { length arena.old.stmts.items < 2 ^ 32 }
    ensures pushed { IfOk result (Pushed arena.old arena.new stmt) }
    ensures memory { IfErr result (λ e. e ≡ Memory) }
{
    let id = StmtId(arena.stmts.len() as u32);
    match arena.stmts.push(stmt) {
        Ok(()) => Ok(id),
        Err(_) => Err(Stop::Memory),
    }
}
