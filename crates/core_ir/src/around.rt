//! The levels around all statements at once, from the first statement on.

ghost use Rattle.std.specs.Prelude.{◌≡◌, ◌+◌, ◌<◌, ◌^◌, ◌↔◌, nat_lt, if◌then◌else◌, Some, IsTrue, EachIndex, length, slice_index};
ghost use Rattle.core_ir.specs.Levels.{holds, JumpHas, LevelsFit};
ghost use Rattle.core_ir.specs.WellFormed.{times};

use crate::body::opens;
use crate::statement::CoreStmt;

/// Whether the levels that are left and gone back to are there, with a place for each statement.
#[tactic(auto, using(crate::proofs::Bodies::opens_most))]
pub fn all_levels_fit(stmts: &[CoreStmt], ends: &mut [u32], starts: &mut [u32]) -> bool
    requires ends { length ends.old ≡ length stmts.now }
    requires starts { length starts.old ≡ length stmts.now }
    requires few { length stmts.now < 2 ^ 32 }
    ensures { IsTrue result ↔ LevelsFit stmts.now }
{
    clear(ends);
    clear(starts);
    for k in 0..stmts.len() {
        let stmt = &stmts[k];
        let (around, turned) = (ends[k], starts[k]);
        if !jump_fits(stmt, around, turned) {
            return false;
        }
        enter(stmt, around + opens(stmt, false) as u32, ends);
        enter(stmt, turned + opens(stmt, true) as u32, starts);
    }
    true
}

fn clear(levels: &mut [u32])
    ensures { EachIndex levels.new (λ i. slice_index levels.new i ≡ 0) }
{
    for n in levels.iter_mut() {
        *n = 0;
    }
}

/// Whether a statement leaves and goes back to levels that are there, with so many around it.
fn jump_fits(stmt: &CoreStmt, ends: u32, starts: u32) -> bool
    ensures { IsTrue result ↔ JumpHas (Some stmt.now) ends starts }
{
    match stmt {
        CoreStmt::Leave(level) => *level < ends,
        CoreStmt::Again(level) => *level < starts,
        _ => true,
    }
}

/// The statements of a statement's bodies have so many levels around them.
#[tactic(auto, using(crate::proofs::LevelTable::both_set))]
fn enter(stmt: &CoreStmt, inside: u32, levels: &mut [u32])
    ensures { EachIndex levels.new (λ j. slice_index levels.new j ≡ (if holds (Some stmt.now) j then inside else slice_index levels.old j)) }
{
    match stmt {
        CoreStmt::If(_, first, second) => {
            set_levels(&first.items, inside, levels);
            set_levels(&second.items, inside, levels);
        }
        CoreStmt::Block(body) | CoreStmt::Loop(body) => set_levels(&body.items, inside, levels),
        _ => {}
    }
}

fn set_levels(body: &[u32], inside: u32, levels: &mut [u32])
    ensures { EachIndex levels.new (λ j. slice_index levels.new j ≡ (if nat_lt 0 (times j body.now) then inside else slice_index levels.old j)) }
{
    for j in body {
        let place = *j as usize;
        if place < levels.len() {
            levels[place] = inside;
        }
    }
}
