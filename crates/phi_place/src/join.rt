//! The phis of joins and of the starts of loops.

ghost use Rattle.std.specs.Prelude.{◌≡◌, ◌+◌, ◌<◌, ◌≤◌, ◌^◌, ◌↔◌, suc, List, [], ◌∷◌, ◌++◌, length, map, All, IsTrue, IfOk, OnOk, OnErr, if◌then◌else◌, true, false};
ghost use Rattle.std.specs.Option.{option_copied};
ghost use Rattle.std.specs.List.Sorted.{IsStrictlyIncreasing};
ghost use Rattle.qir_module.specs.Numbered.{CountsFrom};
ghost use Rattle.cell_operands.specs.Operands.{is_number};
ghost use Rattle.phi_place.specs.Phis.{operand_at, same_operand, all_same, ways_differ, is_listed, entries_of, phis_for, values_for, first_values, Carries, IsWay, HaveOwnBlocks};
ghost use Rattle.phi_place.specs.Needs.{needs_of, RisesIf};

use crate::operands::Operands;
use crate::state::CellState;
use core_ir::CellKind;
use qir_module::{Operand, Phi, Sequence};
use qq_base::NoMemory;
use std::alloc::Global;
use std::slice;

/// Joins the states of several predecessors into the state of a block: a cell has a phi exactly where two of
/// them have different operands. The registers of the phis are `next` and those behind it.
pub fn join_phis(
    alloc: Global,
    ways: &[CellState],
    kinds: &[CellKind],
    block: u32,
    next: &mut u32,
) -> Result<(Vec<Phi>, CellState), NoMemory>
    requires some { 0 < length ways.now }
    requires room { next.old + length kinds.now < 2 ^ 32 }
    requires room_behind { next.old + length (first_values ways.now) < 2 ^ 32 }

    ensures phis { IfOk result (λ r. r.0.items ≡ phis_for (ways_differ ways.now) ways.now kinds.now 0 next.old) }
    ensures state { IfOk result (λ r. r.1 ≡ record { block = block; values = values_for (ways_differ ways.now) (first_values ways.now) 0 next.old }) }
    ensures after { IfOk result (λ r. next.new ≡ next.old + length r.0.items) }

    // After the phis taken from a way, the state's operands hold what the way's held: of ways from blocks of their
    // own, with an operand for each cell.
    ensures carries { HaveOwnBlocks ways.now → All (IsWay (length kinds.now) next.old) ways.now
        → IfOk result (λ r. All (λ way. Carries r.0.items kinds.now way r.1.values) ways.now) }
    ensures registers { IfOk result (λ r. CountsFrom next.old (map (λ p. p.register) r.0.items)) }
    // The entries of each phi name the ways' blocks, in their order.
    ensures entries { IfOk result (λ r. All (λ p. map (λ e. e.1) p.entries ≡ map (λ w. w.block) ways.now) r.0.items) }

    ensures err { OnErr result (next.new ≡ next.old) }
{
    match ways {
        [first, ..] => {
            let phis = place_phis(alloc, None, ways, kinds, *next)?;
            let values = place_values(alloc, None, ways, &first.values, *next)?;
            *next += phis.len() as u32;
            Ok((phis, CellState { block, values }))
        }
        [] => unreachable!(),
    }
}

/// Opens a loop: each listed cell has a phi, with one entry for the block in front of the loop. The lowering
/// adds one for each jump back. The registers of the phis are `next` and those behind it.
pub fn header_phis(
    alloc: Global,
    entry: &CellState,
    cells: &[u32],
    kinds: &[CellKind],
    block: u32,
    next: &mut u32,
) -> Result<(Vec<Phi>, CellState), NoMemory>
    requires ascends { IsStrictlyIncreasing cells.now }
    requires room { next.old + length kinds.now < 2 ^ 32 }
    requires room_behind { next.old + length entry.now.values < 2 ^ 32 }

    ensures phis { IfOk result (λ r. r.0.items ≡ phis_for (is_listed cells.now) (entry.now ∷ []) kinds.now 0 next.old) }
    ensures state { IfOk result (λ r. r.1 ≡ record { block = block; values = values_for (is_listed cells.now) entry.now.values 0 next.old }) }
    ensures after { IfOk result (λ r. next.new ≡ next.old + length r.0.items) }

    // After the phis taken from the block in front, the state's operands hold what the entry's held: of an entry with
    // an operand for each cell.
    ensures carries { IsWay (length kinds.now) next.old entry.now → IfOk result (λ r. Carries r.0.items kinds.now entry.now r.1.values) }
    ensures registers { IfOk result (λ r. CountsFrom next.old (map (λ p. p.register) r.0.items)) }
    // Each phi has one entry, which names that block.
    ensures entries { IfOk result (λ r. All (λ p. map (λ e. e.1) p.entries ≡ entry.now.block ∷ []) r.0.items) }

    ensures err { OnErr result (next.new ≡ next.old) }
{
    let ways = slice::from_ref(entry);
    let phis = place_phis(alloc, Some(cells), ways, kinds, *next)?;
    let values = place_values(alloc, Some(cells), ways, &entry.values, *next)?;
    *next += phis.len() as u32;
    Ok((phis, CellState { block, values }))
}

/// The phis of a loop's start, where all ways to it are known: an entry for each way, in their order. They are those of
/// `header_phis`, with the registers that they have there.
pub fn start_phis(
    alloc: Global,
    ways: &[CellState],
    cells: &[u32],
    kinds: &[CellKind],
    next: u32,
) -> Result<Vec<Phi>, NoMemory>
    requires ascends { IsStrictlyIncreasing cells.now }
    requires room { next + length kinds.now < 2 ^ 32 }
    ensures { IfOk result (λ phis. phis.items ≡ phis_for (is_listed cells.now) ways.now kinds.now 0 next) }
{
    place_phis(alloc, Some(cells), ways, kinds, next)
}

/// The phis of these ways: of the listed cells, or where no cells are listed, of those where the ways differ.
fn place_phis(
    alloc: Global,
    cells: Option<&[u32]>,
    ways: &[CellState],
    kinds: &[CellKind],
    next: u32,
) -> Result<Vec<Phi>, NoMemory>
    requires rises { RisesIf (option_copied cells) }
    requires room { next + length kinds.now < 2 ^ 32 }
    ensures phis { IfOk result (λ r. r.items ≡ phis_for (needs_of (option_copied cells.entry) ways.now) ways.now kinds.now 0 next) }
    ensures few { IfOk result (λ r. length r.items ≤ length kinds.now) }
{
    let mut phis = Vec::new(alloc);
    let mut free = next;
    for c in 0..kinds.len() {
        if needs_phi(cells, ways, c as u32) {
            let entries = entries(alloc, ways, c)?;
            phis.push(Phi {
                register: free,
                number: is_number(kinds[c]),
                entries,
            })?;
            free += 1;
        }
    }
    Ok(phis)
}

/// The operands behind those phis, where the first way has these.
fn place_values(
    alloc: Global,
    cells: Option<&[u32]>,
    ways: &[CellState],
    first: &Operands,
    next: u32,
) -> Result<Operands, NoMemory>
    requires rises { RisesIf (option_copied cells) }
    requires room { next + length first.now < 2 ^ 32 }
    ensures { IfOk result (λ r. r ≡ values_for (needs_of (option_copied cells.entry) ways.now) first.now 0 next) }
{
    let mut values = Vec::new(alloc);
    let mut free = next;
    for c in 0..first.len() {
        if needs_phi(cells, ways, c as u32) {
            values.push(Operand::Register(free))?;
            free += 1;
        } else {
            values.push(first.get(c))?;
        }
    }
    Ok(Operands::new(values))
}

fn needs_phi(cells: Option<&[u32]>, ways: &[CellState], c: u32) -> bool
    requires { RisesIf (option_copied cells) }
    ensures { result ≡ needs_of (option_copied cells.entry) ways.now c }
{
    match cells {
        None => ways_differ(ways, c as usize),
        Some(cells) => is_listed(cells, c),
    }
}

/// Whether an ascending list has the cell.
#[tactic(auto, using(crate::proofs::Joins::search_lists))]
fn is_listed(cells: &[u32], c: u32) -> bool
    requires { IsStrictlyIncreasing cells.now }
    ensures { result ≡ is_listed cells.now c }
{
    cells.binary_search(&c).is_ok()
}

/// Whether two ways have different operands in a cell.
fn ways_differ(ways: &[CellState], c: usize) -> bool
    ensures { result ≡ ways_differ ways.now c }
{
    match ways {
        [first, rest @ ..] => !all_same(first.values.get(c), rest, c),
        [] => false,
    }
}

/// Whether each way has this operand in a cell.
fn all_same(operand: Operand, ways: &[CellState], c: usize) -> bool
    ensures { result ≡ all_same operand ways.now c }
{
    for way in ways {
        if way.values.get(c) != operand {
            return false;
        }
    }
    true
}

fn is_number(kind: CellKind) -> bool
    ensures { result ≡ is_number kind }
{
    match kind {
        CellKind::Number => true,
        CellKind::Truth => false,
    }
}

/// What the ways have in a cell.
fn entries(
    alloc: Global,
    ways: &[CellState],
    c: usize,
) -> Result<Sequence<(Operand, u32)>, NoMemory>
    ensures { IfOk result (λ r. r ≡ entries_of ways.now c) }
{
    let mut items = Vec::new(alloc);
    for way in ways {
        items.push((way.values.get(c), way.block))?;
    }
    Ok(Sequence { items })
}
