//! What the ways to one exit of a statement do with a cell.

ghost use Rattle.std.specs.Prelude.{◌≡◌, ◌&&◌, ◌||◌, ◌↔◌, IsTrue, pos, None};
ghost use Rattle.core_ir.specs.Tree.{expr_of};
ghost use Rattle.core_ir.specs.Ways.{is_zero, counts, given_last, names_cell};
ghost use Rattle.block_lower.specs.Marks.{is_zero_node, no_mark, passing, either_mark, then_mark, back_mark, given_mark, measured_mark, is_skipped};

use core_ir::{CoreExpr, CoreStmt};

/// Of the ways to one exit: what some of them do with the cell.
#[derive(Clone, Copy)]
pub struct Mark {
    /// There is one.
    pub reached: bool,
    /// It does not assign the cell.
    pub passes: bool,
    /// It assigns the cell.
    pub any: bool,
    /// It last assigns the cell another value than the constant 0 or false.
    pub other: bool,
}

pub fn no_mark() -> Mark
    ensures { result ≡ no_mark }
{
    Mark {
        reached: false,
        passes: false,
        any: false,
        other: false,
    }
}

pub fn passing() -> Mark
    ensures { result ≡ passing }
{
    Mark {
        reached: true,
        passes: true,
        any: false,
        other: false,
    }
}

pub fn either_mark(a: Mark, b: Mark) -> Mark
    ensures { result ≡ either_mark a b }
{
    Mark {
        reached: a.reached || b.reached,
        passes: a.passes || b.passes,
        any: a.any || b.any,
        other: a.other || b.other,
    }
}

fn behind(left: bool, right: bool, third: bool, fourth: bool) -> bool
    ensures { result ≡ ((left && right) || (third && fourth)) }
{
    (left && right) || (third && fourth)
}

/// The second behind the first.
pub fn then_mark(a: Mark, b: Mark) -> Mark
    ensures { result ≡ then_mark a b }
{
    Mark {
        reached: a.reached && b.reached,
        passes: a.passes && b.passes,
        any: behind(a.reached, b.any, a.any, b.passes),
        other: behind(a.reached, b.other, a.other, b.passes),
    }
}

fn around(there: bool, passes: bool, back: bool) -> bool
    ensures { result ≡ (there || (passes && back)) }
{
    there || (passes && back)
}

/// Behind a way back to a loop's start, or straight from it.
pub fn back_mark(back: Mark, m: Mark) -> Mark
    ensures { result ≡ back_mark back m }
{
    Mark {
        reached: m.reached,
        passes: m.passes,
        any: around(m.any, m.passes, back.any),
        other: around(m.other, m.passes, back.other),
    }
}

/// Behind an assignment.
pub fn given_mark(exprs: &[CoreExpr], pairs: &[(u32, u32)], c: u32) -> Mark
    ensures { result ≡ given_mark exprs.now pairs.now c }
{
    let given = given_last(pairs, c);
    Mark {
        reached: true,
        passes: !names_cell(pairs, c),
        any: counts(true, exprs, given),
        other: counts(false, exprs, given),
    }
}

fn names_cell(pairs: &[(u32, u32)], c: u32) -> bool
    ensures { result ≡ names_cell pairs.now c }
{
    pairs.iter().any(|pair| pair.0 == c)
}

/// The expression that the last pair of the cell gives it.
fn given_last(pairs: &[(u32, u32)], c: u32) -> Option<u32>
    ensures { result ≡ given_last pairs.now c None }
{
    let mut given = None;
    for pair in pairs {
        if pair.0 == c {
            given = Some(pair.1);
        }
    }
    given
}

fn counts(any: bool, exprs: &[CoreExpr], given: Option<u32>) -> bool
    ensures { result ≡ counts any exprs.now given }
{
    match given {
        None => false,
        Some(e) => any || !is_zero(exprs, e),
    }
}

/// Whether an expression is the constant 0 or false.
#[tactic(auto, using(crate::proofs::Zeros::zero_at, crate::proofs::Zeros::zero_past))]
fn is_zero(exprs: &[CoreExpr], e: u32) -> bool
    ensures { result ≡ is_zero (expr_of exprs.now e) }
{
    let place = e as usize;
    if place < exprs.len() {
        is_zero_node(exprs[place])
    } else {
        false
    }
}

#[tactic(auto, using(crate::proofs::Zeros::zero_word))]
fn is_zero_node(expr: CoreExpr) -> bool
    ensures { result ≡ is_zero_node expr }
{
    match expr {
        CoreExpr::Number(z) => is_zero_word(z),
        CoreExpr::Truth(b) => !b,
        _ => false,
    }
}

fn is_zero_word(z: i64) -> bool
    ensures { IsTrue result ↔ (z ≡ pos 0) }
{
    z == 0
}

/// Behind a measurement.
pub fn measured_mark(into: Option<u32>, c: u32) -> Mark
    ensures { result ≡ measured_mark into c }
{
    let hit = into == Some(c);
    Mark {
        reached: true,
        passes: !hit,
        any: hit,
        other: hit,
    }
}

/// Whether a statement goes on behind it on all ways and does not assign the cell, as most do. It has no bodies.
pub fn is_skipped(stmt: &CoreStmt, c: u32) -> bool
    ensures { result ≡ is_skipped stmt.now c }
{
    match stmt {
        CoreStmt::Assign(pairs) => !names_cell(&pairs.items, c),
        CoreStmt::Gate(_) | CoreStmt::Reset(_) => true,
        CoreStmt::Measure { into, .. } => *into != Some(c),
        _ => false,
    }
}
