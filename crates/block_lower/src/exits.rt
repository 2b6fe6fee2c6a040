//! The marks of the statements of a core, and what follows from them: whether a body reaches its end, and which cells need
//! a phi at a loop's start.

ghost use Rattle.std.specs.Prelude.{◌≡◌, ◌<◌, ℕ, length, All, IfOk};
ghost use Rattle.std.specs.List.Sorted.{IsStrictlyIncreasing};
ghost use Rattle.core_ir.specs.Tree.{node_stmt, stmt_of, body_of};
ghost use Rattle.core_ir.specs.Ways.{Falls, reaches};
ghost use Rattle.core_ir.specs.WellFormed.{NamesLater, IsWellFormed};
ghost use Rattle.phi_place.specs.Assigned.{first_body, second_body};
ghost use Rattle.phi_place.specs.Phis.{is_listed};
ghost use Rattle.block_graph.specs.Lowering.{start_needs};
ghost use Rattle.block_lower.specs.Marks.{marks};
ghost use Rattle.block_lower.specs.Parts.{AreLater};

use crate::mark::{given_mark, is_skipped, measured_mark, passing};
use crate::marks::{Marks, block_marks, if_marks, loop_marks, seq_marks};
use block_graph::laws::stores_are_assigned;
use core_ir::laws::statements_unfold;
use core_ir::{Core, CoreStmt};
use phi_place::{Operands, assigned};
use qir_module::Operand;
use qq_base::NoMemory;
use std::alloc::Global;

/// The marks of a cell at the exits of a statement.
#[cycle(marking)]
#[tactic(auto, using(crate::proofs::Later::first_later, crate::proofs::Later::second_later, crate::proofs::Later::tree_is))]
fn mark_stmt(alloc: Global, core: &Core, k: u32, c: u32) -> Result<Marks, NoMemory>
    requires later { NamesLater core.now.stmts }
    requires within { k < length core.now.stmts }
    ensures { IfOk result (λ m. m ≡ marks core.now.exprs (stmt_of core.now.stmts k) c) }
{
    statements_unfold();
    mark_node(alloc, core, &core.stmts[k as usize], k as usize + 1, c)
}

/// The marks of a cell at the exits of a statement, whose bodies name statements at `least` or behind it.
#[cycle(marking)]
fn mark_node(
    alloc: Global,
    core: &Core,
    stmt: &CoreStmt,
    least: usize,
    c: u32,
) -> Result<Marks, NoMemory>
    requires later { NamesLater core.now.stmts }
    requires first { All (AreLater least (length core.now.stmts)) (first_body stmt.now) }
    requires second { All (AreLater least (length core.now.stmts)) (second_body stmt.now) }
    ensures { IfOk result (λ m. m ≡ marks core.now.exprs (node_stmt (stmt_of core.now.stmts) (Some stmt.now)) c) }
{
    match stmt {
        CoreStmt::Assign(pairs) => {
            let mark = given_mark(&core.exprs, &pairs.items, c);
            Ok(Marks::straight(alloc, mark))
        }
        CoreStmt::Gate(_) | CoreStmt::Reset(_) => Ok(Marks::straight(alloc, passing())),
        CoreStmt::Measure { into, .. } => Ok(Marks::straight(alloc, measured_mark(*into, c))),
        CoreStmt::If(_, first, second) => {
            let first = mark_body(alloc, core, &first.items, least, c)?;
            let second = mark_body(alloc, core, &second.items, least, c)?;
            if_marks(alloc, &first, &second)
        }
        CoreStmt::Block(body) => {
            let body = mark_body(alloc, core, &body.items, least, c)?;
            block_marks(alloc, &body)
        }
        CoreStmt::Loop(body) => {
            let body = mark_body(alloc, core, &body.items, least, c)?;
            loop_marks(alloc, &body)
        }
        CoreStmt::Leave(level) => Marks::leaving(alloc, *level),
        CoreStmt::Again(level) => Marks::returning(alloc, *level),
    }
}

/// The marks of a cell at the exits of a body, whose statements stand at `least` or behind it.
#[cycle(marking)]
#[tactic(auto, using(crate::proofs::Bodies::marks_none, crate::proofs::Bodies::marks_next, crate::proofs::Bodies::marks_skip, crate::proofs::Bodies::later_at))]
fn mark_body(
    alloc: Global,
    core: &Core,
    body: &[u32],
    least: usize,
    c: u32,
) -> Result<Marks, NoMemory>
    requires later { NamesLater core.now.stmts }
    requires within { All (AreLater least (length core.now.stmts)) body.now }
    ensures { IfOk result (λ m. m ≡ marks core.now.exprs (body_of core.now.stmts body.now) c) }
{
    statements_unfold();
    let mut all = Marks::straight(alloc, passing());
    let mut left = body.len();
    while left > 0 {
        left -= 1;
        let k = body[left];
        if is_skipped(&core.stmts[k as usize], c) {
            continue;
        }
        let first = mark_stmt(alloc, core, k, c)?;
        all = seq_marks(alloc, &first, &all)?;
    }
    Ok(all)
}

/// Whether some way through a body reaches its end.
#[tactic(auto, using(crate::proofs::Marking::reached_mark))]
pub fn reaches_end(alloc: Global, core: &Core, body: &[u32], least: usize) -> Result<bool, NoMemory>
    requires later { NamesLater core.now.stmts }
    requires within { All (AreLater least (length core.now.stmts)) body.now }
    ensures { IfOk result (λ r. r ≡ reaches (body_of core.now.stmts body.now) Falls) }
{
    let all = mark_body(alloc, core, body, least, 0)?;
    Ok(all.behind().reached)
}

/// The cells that need a phi at the start of a loop with this body, ascending.
#[tactic(auto, using(crate::proofs::Placing::filter_then, crate::proofs::Placing::filter_else))]
pub fn start_cells(
    alloc: Global,
    core: &Core,
    body: &[u32],
    least: usize,
    values: &Operands,
) -> Result<Vec<u32>, NoMemory>
    requires well_formed { IsWellFormed core.now }
    requires within { All (AreLater least (length core.now.stmts)) body.now }
    ensures ascends { IfOk result (λ cells. IsStrictlyIncreasing cells.items) }
    ensures exact { IfOk result (λ cells. (c : ℕ) → is_listed cells.items c ≡ start_needs core.now.exprs (body_of core.now.stmts body.now) values.now c) }
{
    stores_are_assigned();
    let all = assigned(alloc, core, body)?;
    let mut cells = Vec::new(alloc);
    for c in &all {
        if needs_phi(alloc, core, body, least, values, *c)? {
            cells.push(*c)?;
        }
    }
    Ok(cells)
}

#[tactic(auto, using(crate::proofs::Marking::any_mark, crate::proofs::Marking::other_mark))]
fn needs_phi(
    alloc: Global,
    core: &Core,
    body: &[u32],
    least: usize,
    values: &Operands,
    c: u32,
) -> Result<bool, NoMemory>
    requires later { NamesLater core.now.stmts }
    requires within { All (AreLater least (length core.now.stmts)) body.now }
    ensures { IfOk result (λ r. r ≡ start_needs core.now.exprs (body_of core.now.stmts body.now) values.now c) }
{
    let all = mark_body(alloc, core, body, least, c)?;
    let back = all.again();
    let zero = values.get(c as usize) == Operand::Fixed(0);
    Ok(back.any && (!zero || back.other))
}
