//! Expressions as straight instructions.

ghost use Rattle.std.specs.Prelude.{◌≡◌, ◌+◌, ◌<◌, ◌^◌, ◌++◌, List, length, map, All, IfOk, OnErr};
ghost use Rattle.qir_module.specs.declared.instruction.Instr.{Instr as AnInstr};
ghost use Rattle.std.specs.List.Sorted.{IsStrictlyIncreasing};
ghost use Rattle.core_ir.specs.WellFormed.{IsWellFormed, IsSafe};
ghost use Rattle.expr_lower.specs.Coded.{coded};
ghost use Rattle.expr_lower.specs.Emit.{found};
ghost use Rattle.expr_lower.specs.Lowered.{IsHeldExpr, AreCells, reached_nodes, IsLowered};

use crate::emit::{Emission, Entry, emit, find};
use crate::reached::reached;
use core_ir::Core;
use core_ir::laws::expressions_unfold;
use qir_module::{Instr, Operand};
use qq_base::NoMemory;
use std::alloc::Global;

/// Appends straight instructions and gives an operand for each expression, in order, which has the
/// expression's value behind them, where the cells are as `AreCells` says, divisors and amounts of shifts as
/// `IsSafe` says, and words have 64 bits. A node that several of the expressions reach has one instruction, and a constant is a
/// fixed operand. The registers are `next` and those behind it.
pub fn lower_expr(
    alloc: Global,
    core: &Core,
    exprs: &[u32],
    cells: &[Operand],
    next: &mut u32,
    body: &mut Vec<Instr>,
) -> Result<Vec<Operand>, NoMemory>
    requires well_formed { IsWellFormed core.now }
    requires within { All (λ e. e < length core.now.exprs) exprs.now }
    requires room { next.old + reached_nodes core.now.exprs exprs.now < 2 ^ 32 }
    // The answer is that of one function of what is passed.
    ensures code { IfOk result (λ _. body.new.items ≡ body.old.items ++ (coded core.now exprs.now cells.now next.old).code) }
    ensures operands { IfOk result (λ operands. operands.items ≡ (coded core.now exprs.now cells.now next.old).operands) }
    ensures after { IfOk result (λ _. next.new ≡ next.old + length (coded core.now exprs.now cells.now next.old).code) }
    ensures ok { IsSafe core.now.exprs → All IsHeldExpr core.now.exprs → AreCells core.now.cells next.old cells.now
        → IfOk result (λ operands. (code : List AnInstr) × (body.new.items ≡ body.old.items ++ code) × (next.new ≡ next.old + length code) × IsLowered core.now exprs.now cells.now next.old code operands.items) }
    ensures body_stays { OnErr result (body.new.items ≡ body.old.items) }
    ensures next_stays { OnErr result (next.new ≡ next.old) }
{
    expressions_unfold();
    let order = reached(alloc, &core.exprs, exprs)?;
    let Emission { done, mut code } = emit(alloc, &core.exprs, &core.cells, cells, &order, *next)?;
    let operands = pick(alloc, &order, &done, exprs)?;
    let count = code.len();
    body.append(&mut code)?;
    *next += count as u32;
    Ok(operands)
}

/// The operands of the expressions.
fn pick(
    alloc: Global,
    order: &[u32],
    done: &[Entry],
    exprs: &[u32],
) -> Result<Vec<Operand>, NoMemory>
    requires { IsStrictlyIncreasing order.now }
    ensures { IfOk result (λ r. r.items ≡ map (λ e. (found order.now done.now e).operand) exprs.now) }
{
    let mut operands = Vec::new(alloc);
    for e in exprs {
        operands.push(find(order, done, *e).operand)?;
    }
    Ok(operands)
}
