//! The lowering of a core.

ghost use Rattle.std.specs.Prelude.{◌≡◌, ◌<◌, ℕ, Bool, List, length, All, Some, IfOk, OnOk};
ghost use Rattle.qir_module.specs.Machine.{machine_run};
ghost use Rattle.qir_module.specs.Numbered.{IsNumbered};
ghost use Rattle.qir_module.specs.Passes.{Passes};
ghost use Rattle.core_ir.specs.Run.{core_run};
ghost use Rattle.core_ir.specs.Tree.{If, Block, Loop, node_stmt, stmt_of, body_of, program_of};
ghost use Rattle.core_ir.specs.WellFormed.{Fits, StmtFits};
ghost use Rattle.phi_place.specs.Assigned.{first_body, second_body};
ghost use Rattle.expr_lower.specs.Coded.{coded};
ghost use Rattle.block_graph.specs.Laws.{IsWithin};
ghost use Rattle.block_graph.specs.Lowering.{lower_of};
ghost use Rattle.block_lower.specs.Parts.{IsSmall, AreLater, choice_of};

use crate::exits::reaches_end;
use crate::graph::Work;
use crate::held::held;
use crate::work::Open;
use block_graph::laws::{
    lowered_module_is_in_order, lowered_module_is_shaped, lowered_module_passes,
    lowered_module_runs_as_its_core, lowered_module_stays_within, lowering_stays_small,
};
use core_ir::laws::statements_unfold;
use core_ir::{Core, CoreStmt};
use expr_lower::laws::codes_expressions;
use qir_module::Module;
use qq_base::NoMemory;
use std::alloc::Global;

/// Lowers a statement.
#[cycle(lowering)]
#[tactic(auto, using(crate::proofs::Later::first_later, crate::proofs::Later::second_later, crate::proofs::Later::tree_is, crate::proofs::Ranges::stmt_fits))]
fn lower_stmt(work: &mut Work, core: &Core, k: u32) -> Result<(), NoMemory>
    requires fits { Fits core.now }
    requires within { k < length core.now.stmts }
    requires small { IsSmall (lower_of core.now (coded core.now) (stmt_of core.now.stmts k) work.old) }
    ensures { OnOk result (work.new ≡ lower_of core.now (coded core.now) (stmt_of core.now.stmts k) work.old) }
{
    statements_unfold();
    lower_node(work, core, &core.stmts[k as usize], k as usize + 1)
}

/// Lowers a statement whose bodies name statements at `least` or behind it.
#[cycle(lowering)]
#[tactic(auto, using(crate::proofs::Ranges::truth_within))]
fn lower_node(work: &mut Work, core: &Core, stmt: &CoreStmt, least: usize) -> Result<(), NoMemory>
    requires fits { Fits core.now }
    requires stmt { StmtFits core.now stmt.now }
    requires first { All (AreLater least (length core.now.stmts)) (first_body stmt.now) }
    requires second { All (AreLater least (length core.now.stmts)) (second_body stmt.now) }
    requires small { IsSmall (lower_of core.now (coded core.now) (node_stmt (stmt_of core.now.stmts) (Some stmt.now)) work.old) }
    ensures { OnOk result (work.new ≡ lower_of core.now (coded core.now) (node_stmt (stmt_of core.now.stmts) (Some stmt.now)) work.old) }
{
    match stmt {
        CoreStmt::Assign(pairs) => work.assign(core, &pairs.items),
        CoreStmt::Gate(leaf) => work.gate(core, leaf),
        CoreStmt::Reset(qubit) => work.reset(*qubit),
        CoreStmt::Measure { qubit, into } => work.measure(*qubit, *into),
        CoreStmt::If(test, first, second) => {
            lower_if(work, core, *test, &first.items, &second.items, least)
        }
        CoreStmt::Block(body) => lower_block(work, core, &body.items, least),
        CoreStmt::Loop(body) => lower_loop(work, core, &body.items, least),
        CoreStmt::Leave(k) => work.leave(*k),
        CoreStmt::Again(k) => work.again(*k),
    }
}

/// Lowers a choice. A body that never reaches its end is lowered first, so that the block that goes on is the last.
#[cycle(lowering)]
#[inline(never)]
fn lower_if(
    work: &mut Work,
    core: &Core,
    test: u32,
    first: &[u32],
    second: &[u32],
    least: usize,
) -> Result<(), NoMemory>
    requires fits { Fits core.now }
    requires test { test < length core.now.exprs }
    requires first { All (AreLater least (length core.now.stmts)) first.now }
    requires second { All (AreLater least (length core.now.stmts)) second.now }
    requires small { IsSmall (lower_of core.now (coded core.now) (If test (body_of core.now.stmts first.now) (body_of core.now.stmts second.now)) work.old) }
    ensures { OnOk result (work.new ≡ lower_of core.now (coded core.now) (If test (body_of core.now.stmts first.now) (body_of core.now.stmts second.now)) work.old) }
{
    let Some(open) = work.take_open() else {
        return Ok(());
    };
    if reaches_end(work.alloc(), core, second, least)? {
        lower_choice(work, core, true, test, first, second, least, open)
    } else {
        lower_choice(work, core, false, test, second, first, least, open)
    }
}

/// Lowers a choice with its bodies in this order; the test holds for the first or for the second.
#[cycle(lowering)]
#[inline(never)]
fn lower_choice(
    work: &mut Work,
    core: &Core,
    holds: bool,
    test: u32,
    first: &[u32],
    second: &[u32],
    least: usize,
    here: Open,
) -> Result<(), NoMemory>
    requires fits { Fits core.now }
    requires test { test < length core.now.exprs }
    requires first { All (AreLater least (length core.now.stmts)) first.now }
    requires second { All (AreLater least (length core.now.stmts)) second.now }
    requires small { IsSmall (choice_of core.now (coded core.now) holds test (body_of core.now.stmts first.now) (body_of core.now.stmts second.now) work.old here) }
    ensures { OnOk result (work.new ≡ choice_of core.now (coded core.now) holds test (body_of core.now.stmts first.now) (body_of core.now.stmts second.now) work.old here) }
{
    let choice = work.open_first(core, holds, test, here)?;
    let join = choice.join;
    lower_body(work, core, first, least)?;
    let ways = work.turn(choice)?;
    lower_body(work, core, second, least)?;
    work.join_bodies(&core.cells, join, ways)
}

#[cycle(lowering)]
#[inline(never)]
fn lower_block(work: &mut Work, core: &Core, body: &[u32], least: usize) -> Result<(), NoMemory>
    requires fits { Fits core.now }
    requires within { All (AreLater least (length core.now.stmts)) body.now }
    requires small { IsSmall (lower_of core.now (coded core.now) (Block (body_of core.now.stmts body.now)) work.old) }
    ensures { OnOk result (work.new ≡ lower_of core.now (coded core.now) (Block (body_of core.now.stmts body.now)) work.old) }
{
    let Some(open) = work.take_open() else {
        return Ok(());
    };
    work.put_open(open);
    work.open_end()?;
    lower_body(work, core, body, least)?;
    work.leave(0)?;
    work.close_end(&core.cells)
}

#[cycle(lowering)]
#[inline(never)]
fn lower_loop(work: &mut Work, core: &Core, body: &[u32], least: usize) -> Result<(), NoMemory>
    requires fits { Fits core.now }
    requires within { All (AreLater least (length core.now.stmts)) body.now }
    requires small { IsSmall (lower_of core.now (coded core.now) (Loop (body_of core.now.stmts body.now)) work.old) }
    ensures { OnOk result (work.new ≡ lower_of core.now (coded core.now) (Loop (body_of core.now.stmts body.now)) work.old) }
{
    let Some(open) = work.take_open() else {
        return Ok(());
    };
    let start = work.open_loop(core, body, least, open)?;
    lower_body(work, core, body, least)?;
    work.leave(0)?;
    work.close_start(&core.cells, start)?;
    work.close_end(&core.cells)?;
    Ok(())
}

/// Lowers a body, whose statements stand at `least` or behind it.
#[cycle(lowering)]
#[tactic(auto, using(crate::proofs::Bodies::step_small, crate::proofs::Bodies::step_further, crate::proofs::Bodies::all_done, crate::proofs::Bodies::later_at))]
fn lower_body(work: &mut Work, core: &Core, body: &[u32], least: usize) -> Result<(), NoMemory>
    requires fits { Fits core.now }
    requires within { All (AreLater least (length core.now.stmts)) body.now }
    requires small { IsSmall (lower_of core.now (coded core.now) (body_of core.now.stmts body.now) work.old) }
    ensures { OnOk result (work.new ≡ lower_of core.now (coded core.now) (body_of core.now.stmts body.now) work.old) }
{
    for k in body {
        lower_stmt(work, core, *k)?;
    }
    Ok(())
}

fn lower_program(work: &mut Work, core: &Core) -> Result<(), NoMemory>
    requires fits { Fits core.now }
    requires small { IsSmall (lower_of core.now (coded core.now) (program_of core.now) work.old) }
    ensures { OnOk result (work.new ≡ lower_of core.now (coded core.now) (program_of core.now) work.old) }
{
    lower_body(work, core, &core.body, 0)
}

/// The module that a core is lowered to. It does what the core does, for every list of outcomes and every number of turns;
/// it keeps all rules of the profile; its blocks, registers and results are numbered in the order of the text; it has the
/// labels and qubits of the core; and it is as small as the core's weight, knots, joined cells and calls say.
pub fn lower(alloc: Global, core: &Core) -> Result<Module, NoMemory>
    requires { Fits core.now }
    ensures runs { IfOk result (λ m. (outcomes : List Bool) (turns : ℕ) → machine_run m outcomes turns ≡ core_run core.now outcomes turns) }
    ensures passes { IfOk result (λ m. Passes m) }
    ensures numbered { IfOk result (λ m. IsNumbered m) }
    ensures labels { IfOk result (λ m. m.labels ≡ core.now.labels) }
    ensures qubits { IfOk result (λ m. m.qubits ≡ core.now.qubits) }
    ensures within { IfOk result (λ m. IsWithin core.now m) }
{
    held(core);
    codes_expressions();
    lowering_stays_small();
    lowered_module_is_shaped();
    lowered_module_runs_as_its_core();
    lowered_module_passes();
    lowered_module_is_in_order();
    lowered_module_stays_within();
    let mut work = Work::new(alloc, core)?;
    lower_program(&mut work, core)?;
    work.end(core)?;
    let made = work.into_module(core)?;
    Ok(made)
}
