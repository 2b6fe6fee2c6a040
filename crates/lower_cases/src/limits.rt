//! Whether a core is within the limits.

ghost use Rattle.std.specs.Prelude.{◌≡◌, ◌<◌, ◌≤◌, ◌≢◌, ◌↔◌, IsTrue, All, AllPairs, IfOk, Some, count_by, length};
ghost use Rattle.std.specs.List.{AllByRecursion};
ghost use Rattle.qq_base.specs.declared.run.QubitId.{QubitId};
ghost use Rattle.core_ir.specs.Size.{is_working, weight, knots};
ghost use Rattle.core_ir.specs.Tree.{node_stmt, stmt_within, sequence, program_of};
ghost use Rattle.core_ir.specs.WellFormed.{Fits, GatesDiffer, IsNumberWithin, IsSafeRight, IsSafeExpr, IsSafe};
ghost use Rattle.lower_cases.specs.Bound.{price_of, LeavesOf, AreDistinct, IsPlain};

use block_lower::reaches_end;
use core_ir::{Core, CoreExpr, CoreOp, CoreStmt};
use gate_table::target;
use phi_place::assigned;
use qq_base::{NoMemory, QubitId};
use std::alloc::Global;

/// What statements cost, each without those within it.
#[derive(Clone, Copy, Debug)]
struct Prices {
    assign: usize,
    gate: usize,
    reset: usize,
    measure: usize,
    choice: usize,
    block: usize,
    repeat: usize,
    jump: usize,
}

/// Whether a core fits what is lowered, as far as that is seen by a bound of its weight: as if the cells that it assigns were
/// open everywhere, and each statement reached all expressions that compute something.
#[tactic(auto, using(crate::proofs::Bounds::fits_from))]
pub fn fits(alloc: Global, core: &Core) -> Result<bool, NoMemory>
    ensures { IfOk result (λ fit. IsTrue fit → Fits core.now) }
{
    if !is_plain(core) {
        return Ok(false);
    }
    if !is_light(alloc, core)? {
        return Ok(false);
    }
    reaches_end(alloc, core, &core.body, 0)
}

/// Whether a core is all that is asked, apart from its weight and from how its end is reached.
#[tactic(auto, using(crate::proofs::Bounds::plain_from))]
fn is_plain(core: &Core) -> bool
    ensures { IsTrue result → IsPlain core.now }
{
    has_few(core)
        && core.well_formed()
        && all_differ(core)
        && is_safe(&core.exprs)
        && has_few_knots(core)
}

/// Whether there are few enough parts of each kind.
fn has_few(core: &Core) -> bool
    ensures cells { IsTrue result → length core.now.cells ≤ 2147483648 }
    ensures exprs { IsTrue result → length core.now.exprs ≤ 4000000000 }
    ensures stmts { IsTrue result → length core.now.stmts ≤ 1048576 }
    ensures labels { IsTrue result → length core.now.labels ≤ 16384 }
    ensures qubits { IsTrue result → core.now.qubits ≤ 1024 }
{
    core.cells.len() <= 2_147_483_648
        && core.exprs.len() <= 4_000_000_000
        && core.stmts.len() <= 1_048_576
        && core.labels.len() <= 16_384
        && core.qubits <= 1_024
}

fn differs(qubit: QubitId, others: &[QubitId]) -> bool
    ensures { IsTrue result ↔ AllByRecursion (λ (r : QubitId). qubit.0 ≢ r.0) others.now }
{
    match others {
        [] => true,
        [first, rest @ ..] => qubit.0 != first.0 && differs(qubit, rest),
    }
}

/// Whether no two of the qubits are the same.
fn are_distinct(qubits: &[QubitId]) -> bool
    ensures { IsTrue result ↔ AreDistinct qubits.now }
{
    match qubits {
        [] => true,
        [first, rest @ ..] => differs(*first, rest) && are_distinct(rest),
    }
}

#[tactic(auto, using(crate::proofs::Bounds::pairs_from))]
fn differ_in_pairs(qubits: &[QubitId]) -> bool
    ensures { IsTrue result → AllPairs (λ (a b : QubitId). a.0 ≢ b.0) qubits.now }
{
    are_distinct(qubits)
}

/// Whether the qubits that a gate takes differ.
fn gates_differ(stmt: &CoreStmt) -> bool
    ensures { IsTrue result → GatesDiffer stmt.now }
{
    match stmt {
        CoreStmt::Gate(leaf) => {
            if leaf.gate.0 >= 31 {
                return false;
            }
            let count = target().row(leaf.gate).qubits as usize;
            count <= 3 && differ_in_pairs(&leaf.qubits[..count])
        }
        _ => true,
    }
}

fn all_differ(core: &Core) -> bool
    ensures { IsTrue result → All GatesDiffer core.now.stmts }
{
    core.stmts.iter().all(|stmt| gates_differ(stmt))
}

fn is_number_within(low: i64, high: i64, right: Option<CoreExpr>) -> bool
    ensures { IsTrue result ↔ IsNumberWithin low high right }
{
    match right {
        Some(CoreExpr::Number(value)) => low <= value && value <= high,
        _ => false,
    }
}

fn is_safe_right(op: CoreOp, right: Option<CoreExpr>) -> bool
    ensures { IsTrue result ↔ IsSafeRight op right }
{
    match op {
        CoreOp::Sdiv | CoreOp::Srem | CoreOp::Udiv | CoreOp::Urem => {
            is_number_within(1, i64::MAX, right)
        }
        CoreOp::Shl | CoreOp::Lshr | CoreOp::Ashr => is_number_within(0, 63, right),
        _ => true,
    }
}

fn is_safe_expr(exprs: &[CoreExpr], expr: CoreExpr) -> bool
    ensures { IsTrue result ↔ IsSafeExpr exprs.now (Some expr) }
{
    match expr {
        CoreExpr::Op(op, _, right) => is_safe_right(op, exprs.get(right as usize).copied()),
        _ => true,
    }
}

fn are_safe(exprs: &[CoreExpr]) -> bool
    ensures { IsTrue result ↔ All (λ expr. IsSafeExpr exprs.now (Some expr)) exprs.now }
{
    exprs.iter().all(|expr| is_safe_expr(exprs, *expr))
}

/// Whether divisors and amounts of shifts are constants in their ranges.
fn is_safe(exprs: &[CoreExpr]) -> bool
    ensures { IsTrue result → IsSafe exprs.now }
{
    are_safe(exprs)
}

/// What is left of a budget behind a statement with bodies of at most so many levels; None where it is not enough.
#[cycle(spending)]
#[tactic(auto, using(crate::proofs::Bounds::found_leaves, crate::proofs::Bounds::past_leaves))]
fn spend_stmt(core: &Core, prices: Prices, levels: usize, k: u32, budget: usize) -> Option<usize>
    ensures { LeavesOf (price_of prices (stmt_within core.now.stmts levels k)) budget result }
{
    let place = k as usize;
    if levels == 0 {
        return Some(budget);
    }
    if place >= core.stmts.len() {
        return Some(budget);
    }
    spend_node(core, prices, levels - 1, &core.stmts[place], budget)
}

/// The same where the statements within it have bodies of at most so many levels.
#[cycle(spending)]
fn spend_node(
    core: &Core,
    prices: Prices,
    levels: usize,
    stmt: &CoreStmt,
    budget: usize,
) -> Option<usize>
    ensures { LeavesOf (price_of prices (node_stmt (stmt_within core.now.stmts levels) (Some stmt.now))) budget result }
{
    match stmt {
        CoreStmt::Assign(_) => budget.checked_sub(prices.assign),
        CoreStmt::Gate(_) => budget.checked_sub(prices.gate),
        CoreStmt::Reset(_) => budget.checked_sub(prices.reset),
        CoreStmt::Measure { .. } => budget.checked_sub(prices.measure),
        CoreStmt::If(_, first, second) => {
            let left = budget.checked_sub(prices.choice)?;
            let left = spend_body(core, prices, levels, &first.items, left)?;
            spend_body(core, prices, levels, &second.items, left)
        }
        CoreStmt::Block(body) => {
            let left = budget.checked_sub(prices.block)?;
            spend_body(core, prices, levels, &body.items, left)
        }
        CoreStmt::Loop(body) => {
            let left = budget.checked_sub(prices.repeat)?;
            spend_body(core, prices, levels, &body.items, left)
        }
        CoreStmt::Leave(_) => budget.checked_sub(prices.jump),
        CoreStmt::Again(_) => budget.checked_sub(prices.jump),
    }
}

/// The same behind the statements of a body.
#[cycle(spending)]
#[tactic(auto, using(crate::proofs::Bounds::price_more))]
fn spend_body(
    core: &Core,
    prices: Prices,
    levels: usize,
    body: &[u32],
    budget: usize,
) -> Option<usize>
    ensures { LeavesOf (price_of prices (sequence (stmt_within core.now.stmts levels) body.now)) budget result }
{
    let mut left = budget;
    for k in body {
        left = spend_stmt(core, prices, levels, *k, left)?;
    }
    Some(left)
}

/// Whether a budget is enough for the whole program.
#[tactic(auto, using(crate::proofs::Bounds::program_is))]
fn is_enough(core: &Core, prices: Prices, budget: usize) -> bool
    ensures { IsTrue result → price_of prices (program_of core.now) ≤ budget }
{
    match spend_body(core, prices, core.stmts.len(), &core.body, budget) {
        Some(_) => true,
        None => false,
    }
}

fn works(expr: CoreExpr) -> bool
    ensures { result ≡ is_working (Some expr) }
{
    match expr {
        CoreExpr::Op(_, _, _)
        | CoreExpr::Widen(_)
        | CoreExpr::Narrow(_)
        | CoreExpr::Choose(_, _, _) => true,
        _ => false,
    }
}

/// How many expressions compute something.
fn working(exprs: &[CoreExpr]) -> usize
    ensures { result ≡ count_by (λ expr. is_working (Some expr)) exprs.now }
{
    exprs.iter().filter(|expr| works(**expr)).count()
}

/// Whether the bound of the weight is within the limit.
fn is_light(alloc: Global, core: &Core) -> Result<bool, NoMemory>
    requires { IsPlain core.now }
    ensures { IfOk result (λ light. IsTrue light → weight core.now ≤ 4000032) }
{
    let opened = assigned(alloc, core, &core.body)?.len();
    let working = working(&core.exprs);
    let outputs = core.outputs.len();
    if opened > 4_000_032 || working > 4_000_032 || outputs > 4_000_032 {
        return Ok(false);
    }
    let weights = Prices {
        assign: working,
        gate: 1 + working,
        reset: 1,
        measure: 2,
        choice: 6 + working + 2 * opened,
        block: 2 + opened,
        repeat: 4 + 2 * opened,
        jump: 1 + opened,
    };
    Ok(is_enough(core, weights, 4_000_032 - outputs))
}

/// Whether there are few enough blocks and joins.
#[tactic(auto, using(crate::proofs::Bounds::knots_few))]
fn has_few_knots(core: &Core) -> bool
    ensures { IsTrue result → knots core.now ≤ 16001 }
{
    let most_knots = Prices {
        assign: 0,
        gate: 0,
        reset: 0,
        measure: 0,
        choice: 3,
        block: 1,
        repeat: 2,
        jump: 0,
    };
    is_enough(core, most_knots, 16_001)
}
