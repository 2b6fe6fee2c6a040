//! The code of expressions, in the order of their numbers.

ghost use Rattle.std.specs.Prelude.{◌≡◌, ◌+◌, ◌<◌, ◌^◌, ◌||◌, [], ◌∷◌, ◌++◌, length, slice_get, All, IfOk};
ghost use Rattle.std.specs.Option.{option_to_list};
ghost use Rattle.std.specs.List.Sorted.{IsStrictlyIncreasing};
ghost use Rattle.core_ir.specs.WellFormed.{is_comparison};
ghost use Rattle.expr_lower.specs.Emit.{place_in, found, entry_of, code_of, is_truth_cell, emit as emit_of};
ghost use Rattle.cell_operands.specs.Operands.{operand_of};

use core_ir::{CellKind, CoreExpr, CoreOp};
use qir_module::{Instr, Operand};
use qq_base::NoMemory;
use std::alloc::Global;

/// Where the value of an expression is.
#[derive(Clone, Copy, Debug)]
pub struct Entry {
    pub operand: Operand,
    /// Whether it is a truth value.
    pub truth: bool,
}

/// Where each expression is, and the code that brings them there.
#[derive(Drop)]
pub struct Emission {
    pub done: Vec<Entry>,
    pub code: Vec<Instr>,
}

/// Emits the expressions of an ascending list that holds all that they name.
pub fn emit(
    alloc: Global,
    exprs: &[CoreExpr],
    kinds: &[CellKind],
    cells: &[Operand],
    order: &[u32],
    next: u32,
) -> Result<Emission, NoMemory>
    requires rises { IsStrictlyIncreasing order.now }
    requires within { All (λ k. k < length exprs.now) order.now }
    requires room { next + length order.now < 2 ^ 32 }
    ensures done { IfOk result (λ r. r.done.items ≡ (emit_of exprs.now kinds.now cells.now order.now order.now [] next).done) }
    ensures code { IfOk result (λ r. r.code.items ≡ (emit_of exprs.now kinds.now cells.now order.now order.now [] next).code) }
{
    let mut done = Vec::new(alloc);
    let mut code = Vec::new(alloc);
    let mut free = next;
    for k in order {
        let expr = exprs[*k as usize];
        let entry = make_entry(kinds, cells, order, &done, free, expr);
        if let Some(instr) = instruction(order, &done, free, expr) {
            code.push(instr)?;
            free += 1;
        }
        done.push(entry)?;
    }
    Ok(Emission { done, code })
}

/// Where an expression is done already.
pub fn find(order: &[u32], done: &[Entry], k: u32) -> Entry
    requires { IsStrictlyIncreasing order.now }
    ensures { result ≡ found order.now done.now k }
{
    let place = place(order, k);
    if place < done.len() {
        done[place]
    } else {
        Entry {
            operand: Operand::Fixed(0),
            truth: false,
        }
    }
}

/// The place of a number in an ascending list, or the list's length.
fn place(order: &[u32], k: u32) -> usize
    requires { IsStrictlyIncreasing order.now }
    ensures { result ≡ place_in order.now k }
{
    match order.binary_search(&k) {
        Ok(place) => place,
        Err(_) => order.len(),
    }
}

fn make_entry(
    kinds: &[CellKind],
    cells: &[Operand],
    order: &[u32],
    done: &[Entry],
    next: u32,
    expr: CoreExpr,
) -> Entry
    requires { IsStrictlyIncreasing order.now }
    ensures { result ≡ entry_of kinds.now cells.now (found order.now done.now) next expr }
{
    let (operand, truth) = match expr {
        CoreExpr::Cell(c) => (cell_operand(cells, c), is_truth_cell(kinds, c)),
        CoreExpr::Truth(b) => (Operand::Fixed(i64::from(b)), true),
        CoreExpr::Number(z) => (Operand::Fixed(z), false),
        CoreExpr::Op(op, a, _) => (
            Operand::Register(next),
            is_comparison(op) || find(order, done, a).truth,
        ),
        CoreExpr::Widen(_) => (Operand::Register(next), false),
        CoreExpr::Narrow(_) => (Operand::Register(next), true),
        CoreExpr::Choose(_, a, _) => (Operand::Register(next), find(order, done, a).truth),
    };
    Entry { operand, truth }
}

fn instruction(order: &[u32], done: &[Entry], next: u32, expr: CoreExpr) -> Option<Instr>
    requires { IsStrictlyIncreasing order.now }
    ensures { option_to_list result ≡ code_of (found order.now done.now) next expr }
{
    match expr {
        CoreExpr::Op(op, a, b) => {
            let left = find(order, done, a);
            let right = find(order, done, b).operand;
            Some(Instr::Op {
                register: next,
                op,
                truth: left.truth,
                left: left.operand,
                right,
            })
        }
        CoreExpr::Widen(a) => Some(Instr::Zext {
            register: next,
            from: find(order, done, a).operand,
        }),
        CoreExpr::Narrow(a) => Some(Instr::Trunc {
            register: next,
            from: find(order, done, a).operand,
        }),
        CoreExpr::Choose(test, a, b) => {
            let test = find(order, done, test).operand;
            let yes = find(order, done, a);
            let no = find(order, done, b).operand;
            Some(Instr::Select {
                register: next,
                truth: yes.truth,
                test,
                yes: yes.operand,
                no,
            })
        }
        CoreExpr::Cell(_) | CoreExpr::Truth(_) | CoreExpr::Number(_) => None,
    }
}

fn cell_operand(cells: &[Operand], c: u32) -> Operand
    ensures { result ≡ operand_of cells.now c }
{
    match cells.get(c as usize) {
        Some(operand) => *operand,
        None => Operand::Fixed(0),
    }
}

fn is_truth_cell(kinds: &[CellKind], c: u32) -> bool
    ensures { result ≡ is_truth_cell (slice_get kinds.now c) }
{
    matches!(kinds.get(c as usize), Some(CellKind::Truth))
}

fn is_comparison(op: CoreOp) -> bool
    ensures { result ≡ is_comparison op }
{
    matches!(
        op,
        CoreOp::Eq
            | CoreOp::Ne
            | CoreOp::Slt
            | CoreOp::Sle
            | CoreOp::Sgt
            | CoreOp::Sge
            | CoreOp::Ult
            | CoreOp::Ule
            | CoreOp::Ugt
            | CoreOp::Uge
    )
}
