//! The module of a graph whose labels and phis are all known.

ghost use Rattle.std.specs.Prelude.{◌≡◌, ◌<◌, ◌^◌, [], length, IfOk, get_or};
ghost use Rattle.std.specs.List.{flat_map};
ghost use Rattle.qir_module.specs.Numbered.{called_functions, functions_of, is_among};
ghost use Rattle.block_graph.specs.Lowering.{settled_phis, settled_last, settled, settled_from, declared_of};
ghost use Rattle.block_lower.specs.Parts.{phi_part};

use crate::work::Draft;
use qir_module::{Block, Function, Instr, Last, Phi, Sequence};
use qq_base::NoMemory;
use std::alloc::Global;

/// The blocks of the drafts: the k-th is named k.
#[tactic(auto, using(crate::proofs::Settling::blocks_next, crate::proofs::Settling::blocks_done))]
pub fn settle_all(
    alloc: Global,
    drafts: Vec<Draft>,
    targets: &[u32],
    lates: &[Sequence<Phi>],
) -> Result<Vec<Block>, NoMemory>
    requires { length drafts.items < 2 ^ 32 }
    ensures { IfOk result (λ blocks. blocks.items ≡ settled_from (λ l. get_or targets.now l 0) (λ l. get_or lates.now l []) 0 drafts.items) }
{
    let mut left = drafts;
    left.reverse();
    let mut blocks = Vec::new(alloc);
    let mut name = 0;
    while let Some(draft) = left.pop() {
        blocks.push(settle(alloc, draft, name, targets, lates)?)?;
        name += 1;
    }
    Ok(blocks)
}

fn settle(
    alloc: Global,
    draft: Draft,
    name: u32,
    targets: &[u32],
    lates: &[Sequence<Phi>],
) -> Result<Block, NoMemory>
    ensures { IfOk result (λ block. block ≡ settled (λ l. get_or targets.now l 0) (λ l. get_or lates.now l []) name draft) }
{
    let last = settle_last(targets, draft.last);
    let phis = settle_phis(alloc, lates, draft.late, draft.phis)?;
    Ok(Block {
        name,
        phis,
        body: draft.body,
        last,
    })
}

fn settle_last(targets: &[u32], last: Last) -> Last
    ensures { result ≡ settled_last (λ l. get_or targets.now l 0) last }
{
    match last {
        Last::Jump(label) => Last::Jump(target(targets, label)),
        Last::Branch(test, first, second) => {
            Last::Branch(test, target(targets, first), target(targets, second))
        }
        Last::Return(code) => Last::Return(code),
    }
}

fn target(targets: &[u32], label: u32) -> u32
    ensures { result ≡ get_or targets.now label 0 }
{
    let place = label as usize;
    if place < targets.len() {
        targets[place]
    } else {
        0
    }
}

fn settle_phis(
    alloc: Global,
    lates: &[Sequence<Phi>],
    late: Option<usize>,
    phis: Sequence<Phi>,
) -> Result<Sequence<Phi>, NoMemory>
    ensures { IfOk result (λ r. r ≡ settled_phis (λ l. get_or lates.now l []) (phi_part late phis)) }
{
    match late {
        None => Ok(phis),
        Some(place) => {
            if place < lates.len() {
                let phis = &lates[place];
                copy_phis(alloc, &phis.items)
            } else {
                Ok(Sequence {
                    items: Vec::new(alloc),
                })
            }
        }
    }
}

fn copy_phis(alloc: Global, phis: &[Phi]) -> Result<Sequence<Phi>, NoMemory>
    ensures { IfOk result (λ r. r ≡ phis.now) }
{
    let mut items = Vec::new(alloc);
    for phi in phis {
        items.push(copy_phi(alloc, phi)?)?;
    }
    Ok(Sequence { items })
}

fn copy_phi(alloc: Global, phi: &Phi) -> Result<Phi, NoMemory>
    ensures { IfOk result (λ r. r ≡ phi.now) }
{
    let items = Vec::from_slice(alloc, &phi.entries.items)?;
    Ok(Phi {
        register: phi.register,
        number: phi.number,
        entries: Sequence { items },
    })
}

/// The functions that the blocks call, in the order of the table.
pub fn declarations(alloc: Global, blocks: &[Block]) -> Result<Vec<Function>, NoMemory>
    ensures { IfOk result (λ functions. functions.items ≡ declared_of blocks.now) }
{
    let mut functions = Vec::new(alloc);
    for f in 0..Function::COUNT {
        if is_called(blocks, f) {
            functions.push(Function(f))?;
        }
    }
    Ok(functions)
}

/// Whether some block calls the function.
#[tactic(auto, using(crate::proofs::Settling::blocks_call))]
fn is_called(blocks: &[Block], f: u8) -> bool
    ensures { result ≡ is_among (called_functions blocks.now) f }
{
    for block in blocks {
        if is_called_in(&block.body.items, f) {
            return true;
        }
    }
    false
}

#[tactic(auto, using(crate::proofs::Settling::body_calls))]
fn is_called_in(body: &[Instr], f: u8) -> bool
    ensures { result ≡ is_among (flat_map functions_of body.now) f }
{
    for instr in body {
        if calls(instr, f) {
            return true;
        }
    }
    false
}

fn calls(instr: &Instr, f: u8) -> bool
    ensures { result ≡ is_among (functions_of instr.now) f }
{
    match instr {
        Instr::Call { function, .. } => function.0 == f,
        _ => false,
    }
}
