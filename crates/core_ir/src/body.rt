//! The bodies of statements, and the levels around a statement.

ghost use Rattle.std.specs.Prelude.{◌≡◌, ◌≤◌, ◌<◌, ◌+◌, ◌^◌, ◌↔◌, All, Some, IsTrue, length, slice_get};
ghost use Rattle.core_ir.specs.Levels.{opens, levels_below, LevelFits, LevelsFit};
ghost use Rattle.core_ir.specs.WellFormed.{inner_of, times, IsLater, NamesLater};

use crate::statement::{Body, CoreStmt};

/// How often a statement stands in a list.
#[tactic(auto, using(crate::proofs::Bodies::count_times))]
fn times(body: &[u32], k: usize) -> usize
    ensures count { result ≡ times k body.now }
    ensures few { result ≤ length body.now }
{
    body.iter().filter(|j| **j as usize == k).count()
}

/// How often a statement stands in the bodies of another.
#[tactic(auto, using(crate::proofs::Bodies::times_append))]
fn times_within(stmt: &CoreStmt, k: usize) -> usize
    ensures count { result ≡ times k (inner_of (Some stmt.now)) }
    ensures few { result + 1 < 2 ^ 64 }
{
    match stmt {
        CoreStmt::If(_, first, second) => times(&first.items, k) + times(&second.items, k),
        CoreStmt::Block(body) | CoreStmt::Loop(body) => times(&body.items, k),
        _ => 0,
    }
}

fn all_later(body: &Body, k: usize, count: usize) -> bool
    ensures { IsTrue result ↔ All (IsLater k count) body.now }
{
    body.items
        .iter()
        .all(|j| k < *j as usize && (*j as usize) < count)
}

fn names_later(stmts: &[CoreStmt], k: usize) -> bool
    requires { k < length stmts.now }
    ensures { IsTrue result ↔ All (IsLater k (length stmts.now)) (inner_of (slice_get stmts.now k)) }
{
    let count = stmts.len();
    match &stmts[k] {
        CoreStmt::If(_, first, second) => {
            all_later(first, k, count) && all_later(second, k, count)
        }
        CoreStmt::Block(body) | CoreStmt::Loop(body) => all_later(body, k, count),
        _ => true,
    }
}

/// Whether each statement names larger numbers, of statements that are there.
pub fn bodies_fit(stmts: &[CoreStmt]) -> bool
    ensures { IsTrue result ↔ NamesLater stmts.now }
{
    for k in 0..stmts.len() {
        if !names_later(stmts, k) {
            return false;
        }
    }
    true
}

/// The levels that a statement opens: of loops alone, or of blocks too.
pub fn opens(stmt: &CoreStmt, loops: bool) -> usize
    ensures { result ≡ opens loops (Some stmt.now) }
{
    match stmt {
        CoreStmt::Loop(_) => 1,
        CoreStmt::Block(_) if !loops => 1,
        _ => 0,
    }
}

/// How many loops, or blocks and loops, stand around a statement.
fn levels(stmts: &[CoreStmt], k: usize, loops: bool) -> usize
    requires { k ≤ length stmts.now }
    ensures { result ≡ levels_below loops stmts.now k k }
{
    let mut levels = 0;
    let mut inner = k;
    let mut left = k;
    while left > 0 {
        left -= 1;
        let stmt = &stmts[left];
        if times_within(stmt, inner) > 0 {
            levels += opens(stmt, loops);
            inner = left;
        }
    }
    levels
}

fn level_fits(stmts: &[CoreStmt], k: usize) -> bool
    requires { k < length stmts.now }
    ensures { IsTrue result ↔ LevelFits stmts.now k (slice_get stmts.now k) }
{
    match &stmts[k] {
        CoreStmt::Leave(level) => (*level as usize) < levels(stmts, k, false),
        CoreStmt::Again(level) => (*level as usize) < levels(stmts, k, true),
        _ => true,
    }
}

/// Whether the levels that are left and gone back to are there. It looks back over the statements at each jump.
pub fn levels_fit(stmts: &[CoreStmt]) -> bool
    ensures { IsTrue result ↔ LevelsFit stmts.now }
{
    for k in 0..stmts.len() {
        if !level_fits(stmts, k) {
            return false;
        }
    }
    true
}
