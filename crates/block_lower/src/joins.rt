//! The phis of joins and of the starts of loops, of ways that hold the cells alone that are not 0.

ghost use Rattle.std.specs.Prelude.{◌≡◌, ◌+◌, ◌<◌, ◌≤◌, ◌^◌, ℕ, false, [], ◌∷◌, pos, All, length, map, filter, slice_get, nat_lt, IfOk, OnOk};
ghost use Rattle.std.specs.List.{filter_map, range_with_len};
ghost use Rattle.std.specs.List.Sorted.{IsStrictlyIncreasing};
ghost use Rattle.phi_place.specs.Phis.{operand_at, is_listed, ways_differ, phis_for, values_for, first_values};
ghost use Rattle.block_lower.specs.Kept.{shortened, AreListed};

use crate::kept::{Kept, Way, place};
use core_ir::CellKind;
use phi_place::{CellState, Operands, header_phis, join_phis, start_phis};
use qir_module::{Operand, Phi};
use qq_base::NoMemory;
use std::alloc::Global;

/// The cells that are not 0 on some way, ascending.
fn all_listed(alloc: Global, ways: &[Way]) -> Result<Vec<u32>, NoMemory>
    ensures ascends { IfOk result (λ cells. IsStrictlyIncreasing cells.items) }
    ensures all { IfOk result (λ cells. (c : ℕ) → is_listed cells.items c ≡ false → All (λ way. operand_at way c ≡ Operand.Fixed (pos 0)) ways.now) }
{
    let mut cells = Vec::new(alloc);
    for way in ways {
        way.values.add_cells(&mut cells)?;
    }
    cells.sort_unstable();
    cells.dedup();
    Ok(cells)
}

fn filter_below(alloc: Global, cells: &[u32], n: usize) -> Result<Vec<u32>, NoMemory>
    ensures { IfOk result (λ below. below.items ≡ filter (λ c. nat_lt c n) cells.now) }
{
    let below = cells
        .iter()
        .copied()
        .filter(|c| (*c as usize) < n)
        .collect(alloc)?;
    Ok(below)
}

/// Those of the cells that are below a number.
fn cells_below(alloc: Global, cells: &[u32], n: usize) -> Result<Vec<u32>, NoMemory>
    requires { IsStrictlyIncreasing cells.now }
    ensures is { IfOk result (λ below. below.items ≡ filter (λ c. nat_lt c n) cells.now) }
    ensures ascends { IfOk result (λ below. IsStrictlyIncreasing below.items) }
    ensures few { IfOk result (λ below. length below.items ≤ n) }
{
    let below = filter_below(alloc, cells, n)?;
    Ok(below)
}

/// The cells below a number that are not 0 on some way, ascending.
fn listed_cells(alloc: Global, ways: &[Way], n: usize) -> Result<Vec<u32>, NoMemory>
    ensures ascends { IfOk result (λ cells. IsStrictlyIncreasing cells.items) }
    ensures few { IfOk result (λ cells. length cells.items ≤ n) }
    ensures all { IfOk result (λ cells. AreListed n cells.items ways.now) }
{
    let all = all_listed(alloc, ways)?;
    let below = cells_below(alloc, &all, n)?;
    Ok(below)
}

/// So many numbers, from 0 on.
#[tactic(auto, using(crate::proofs::Shortening::numbers_more))]
fn first_numbers(alloc: Global, count: usize) -> Result<Vec<u32>, NoMemory>
    requires { count ≤ 2 ^ 31 }
    ensures is { IfOk result (λ all. all.items ≡ range_with_len 0 count) }
    ensures ascends { IfOk result (λ all. IsStrictlyIncreasing all.items) }
{
    let mut all = Vec::new(alloc);
    for k in 0..count {
        all.push(k as u32)?;
    }
    Ok(all)
}

/// The ways with the operands of these cells alone.
fn short_ways(alloc: Global, ways: &[Way], cells: &[u32]) -> Result<Vec<CellState>, NoMemory>
    requires { length cells.now ≤ 2 ^ 31 }
    ensures { IfOk result (λ short. short.items ≡ map (shortened cells.now) ways.now) }
{
    let mut short = Vec::new(alloc);
    for way in ways {
        let values = way.values.pick(alloc, cells)?;
        short.push(CellState {
            block: way.block,
            values,
        })?;
    }
    Ok(short)
}

/// The kinds of these cells.
#[tactic(auto, using(crate::proofs::Shortening::kinds_then, crate::proofs::Shortening::kinds_else))]
fn short_kinds(alloc: Global, kinds: &[CellKind], cells: &[u32]) -> Result<Vec<CellKind>, NoMemory>
    ensures is { IfOk result (λ short. short.items ≡ filter_map (slice_get kinds.now) cells.now) }
    ensures few { IfOk result (λ short. length short.items ≤ length cells.now) }
{
    let mut short = Vec::new(alloc);
    for c in cells {
        let place = *c as usize;
        if place < kinds.len() {
            short.push(kinds[place])?;
        }
    }
    Ok(short)
}

/// The phis where these ways join, and the operands behind them, as `join_phis` has them. It is asked about the cells alone
/// that are not 0 on some way.
pub fn join_ways(
    alloc: Global,
    ways: &[Way],
    kinds: &[CellKind],
    next: &mut u32,
) -> Result<(Vec<Phi>, Operands), NoMemory>
    requires some { 0 < length ways.now }
    requires kinds { length kinds.now ≤ 2 ^ 31 }
    requires room { next.old < 2 ^ 28 }
    ensures phis { IfOk result (λ r. r.0.items ≡ phis_for (ways_differ ways.now) ways.now kinds.now 0 next.old) }
    ensures values { IfOk result (λ r. r.1 ≡ values_for (ways_differ ways.now) (first_values ways.now) 0 next.old) }
    ensures after { IfOk result (λ r. next.new ≡ next.old + length r.0.items) }
{
    match ways {
        [first, ..] => {
            let mut values = first.values.row(alloc)?;
            let cells = listed_cells(alloc, ways, kinds.len().max(values.len()))?;
            let short = short_ways(alloc, ways, &cells)?;
            let kinds = short_kinds(alloc, kinds, &cells)?;
            let (phis, state) = join_phis(alloc, &short, &kinds, 0, next)?;
            place(&mut values, &cells, state.values.as_slice());
            Ok((phis, values))
        }
        [] => unreachable!(),
    }
}

/// The phis of a loop's start, where all ways to it are known, as `start_phis` has them. It is asked about the cells alone that
/// have one.
pub fn start_ways(
    alloc: Global,
    ways: &[Way],
    cells: &[u32],
    kinds: &[CellKind],
    next: u32,
) -> Result<Vec<Phi>, NoMemory>
    requires ascends { IsStrictlyIncreasing cells.now }
    requires kinds { length kinds.now ≤ 2 ^ 31 }
    requires room { next < 2 ^ 28 }
    ensures { IfOk result (λ phis. phis.items ≡ phis_for (is_listed cells.now) ways.now kinds.now 0 next) }
{
    let below = cells_below(alloc, cells, kinds.len())?;
    let all = first_numbers(alloc, below.len())?;
    let short = short_ways(alloc, ways, &below)?;
    let few = short_kinds(alloc, kinds, &below)?;
    let phis = start_phis(alloc, &short, &all, &few, next)?;
    Ok(phis)
}

/// The phis of a loop's start with the way from in front alone, and the operands behind them, as `header_phis` has them. It is
/// asked about the cells alone that have one.
pub fn enter_loop(
    alloc: Global,
    entry: &Way,
    cells: &[u32],
    kinds: &[CellKind],
    next: &mut u32,
) -> Result<(Vec<Phi>, Operands), NoMemory>
    requires ascends { IsStrictlyIncreasing cells.now }
    requires kinds { length kinds.now ≤ 2 ^ 31 }
    requires room { next.old < 2 ^ 28 }
    ensures phis { IfOk result (λ r. r.0.items ≡ phis_for (is_listed cells.now) (entry.now ∷ []) kinds.now 0 next.old) }
    ensures values { IfOk result (λ r. r.1 ≡ values_for (is_listed cells.now) entry.now.values 0 next.old) }
    ensures after { IfOk result (λ r. next.new ≡ next.old + length r.0.items) }
{
    let mut row = entry.values.row(alloc)?;
    let below = cells_below(alloc, cells, kinds.len().max(row.len()))?;
    let all = first_numbers(alloc, below.len())?;
    let values = entry.values.pick(alloc, &below)?;
    let block = entry.block;
    let short = CellState { block, values };
    let few = short_kinds(alloc, kinds, &below)?;
    let (phis, state) = header_phis(alloc, &short, &all, &few, 0, next)?;
    place(&mut row, &below, state.values.as_slice());
    Ok((phis, row))
}
