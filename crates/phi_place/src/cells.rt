//! The cells that statements assign.

ghost use Rattle.std.specs.Prelude.{◌≡◌, ◌<◌, ◌↔◌, ◌++◌, ℕ, true, length, All, Contains, IfOk, OnOk};
ghost use Rattle.std.specs.List.Sorted.{IsStrictlyIncreasing};
ghost use Rattle.core_ir.specs.Tree.{stmt_of, body_of};
ghost use Rattle.core_ir.specs.Ways.{assigns};
ghost use Rattle.core_ir.specs.WellFormed.{IsWellFormed, NamesLater};
ghost use Rattle.phi_place.specs.Assigned.{cells_in, own_cells, first_body, second_body};

use core_ir::laws::statements_unfold;
use core_ir::{Core, CoreStmt};
use qq_base::NoMemory;
use std::alloc::Global;

/// The cells that some `Assign` or `Measure` in these statements, or in the bodies below them, names. They
/// ascend, and each stands once.
pub fn assigned(alloc: Global, core: &Core, body: &[u32]) -> Result<Vec<u32>, NoMemory>
    requires well_formed { IsWellFormed core.now }
    requires within { All (λ k. k < length core.now.stmts) body.now }
    ensures ascends { IfOk result (λ cells. IsStrictlyIncreasing cells.items) }
    ensures exact { IfOk result (λ cells. (c : ℕ) → Contains cells.items c ↔ (assigns (body_of core.now.stmts body.now) c ≡ true)) }
{
    let mut cells = Vec::new(alloc);
    for k in body {
        add_cells(&core.stmts, *k, &mut cells)?;
    }
    cells.sort_unstable();
    cells.dedup();
    Ok(cells)
}

/// Adds the cells that a statement assigns, one for each place that names them.
#[tactic(auto, using(crate::proofs::Listed::later_first, crate::proofs::Listed::later_second))]
fn add_cells(stmts: &[CoreStmt], k: u32, cells: &mut Vec<u32>) -> Result<(), NoMemory>
    requires later { NamesLater stmts.now }
    requires within { k < length stmts.now }
    ensures { OnOk result (cells.new.items ≡ cells.old.items ++ cells_in (stmt_of stmts.now k)) }
{
    statements_unfold();
    let stmt = &stmts[k as usize];
    add_own(stmt, cells)?;
    for j in first_body(stmt) {
        add_cells(stmts, *j, cells)?;
    }
    for i in second_body(stmt) {
        add_cells(stmts, *i, cells)?;
    }
    Ok(())
}

fn add_own(stmt: &CoreStmt, cells: &mut Vec<u32>) -> Result<(), NoMemory>
    ensures { OnOk result (cells.new.items ≡ cells.old.items ++ own_cells stmt.now) }
{
    match stmt {
        CoreStmt::Assign(pairs) => {
            for (cell, _) in &pairs.items {
                cells.push(*cell)?;
            }
        }
        CoreStmt::Measure {
            into: Some(cell),
            ..
        } => cells.push(*cell)?,
        _ => {}
    }
    Ok(())
}

fn first_body(stmt: &CoreStmt) -> &[u32]
    ensures { result.now ≡ first_body stmt.now }
{
    match stmt {
        CoreStmt::If(_, body, _) | CoreStmt::Block(body) | CoreStmt::Loop(body) => &body.items,
        _ => &[],
    }
}

fn second_body(stmt: &CoreStmt) -> &[u32]
    ensures { result.now ≡ second_body stmt.now }
{
    match stmt {
        CoreStmt::If(_, _, body) => &body.items,
        _ => &[],
    }
}
