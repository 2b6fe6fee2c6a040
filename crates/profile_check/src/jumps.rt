//! The jumps back.

ghost use Rattle.std.specs.Prelude.{◌≡◌, ℕ, ◌++◌, OnOk, IfOk, nat_eq};
ghost use Rattle.std.specs.HashMap.{get};
ghost use Rattle.qir_module.specs.Carried.{targets_of};
ghost use Rattle.profile_check.specs.Rounds.{jumps_at, back_to, jumps_from, end_of as end_of_block};

use crate::names::Places;
use crate::place::Place;
use crate::visit::last_of;
use qir_module::{Block, Last};
use qq_base::NoMemory;
use std::alloc::Global;

/// A jump to its own block or to one that stands earlier, at the last instruction of its block.
#[derive(Clone, Copy)]
pub(crate) struct Jump {
    pub at: Place,
    pub to: usize,
}

/// Adds a jump, if it goes back.
fn push_jump(jumps: &mut Vec<Jump>, at: Place, to: Option<usize>) -> Result<(), NoMemory>
    ensures { OnOk result (jumps.new.items ≡ jumps.old.items ++ back_to at to) }
{
    if let Some(to) = to {
        if to <= at.block {
            jumps.push(Jump { at, to })?;
        }
    }
    Ok(())
}

/// Adds the jumps back of a last instruction.
fn push_jumps(jumps: &mut Vec<Jump>, places: &Places, at: Place, last: Last) -> Result<(), NoMemory>
    ensures { OnOk result (jumps.new.items ≡ jumps.old.items ++ jumps_at (get nat_eq places.now) at (targets_of last)) }
{
    match last {
        Last::Jump(to) => push_jump(jumps, at, places.get(&to).copied()),
        Last::Branch(_, first, second) => {
            push_jump(jumps, at, places.get(&first).copied())?;
            push_jump(jumps, at, places.get(&second).copied())
        }
        Last::Return(_) => Ok(()),
    }
}

/// Where the last instruction of a block stands.
fn end_of(block: usize, it: &Block) -> Place
    ensures { result ≡ end_of_block block it.now }
{
    let phis = it.phis.items.as_slice();
    let body = it.body.items.as_slice();
    Place {
        block,
        item: phis.len() + body.len(),
    }
}

/// The jumps back of some blocks.
pub(crate) fn back_jumps(
    alloc: Global,
    places: &Places,
    blocks: &[Block],
) -> Result<Vec<Jump>, NoMemory>
    ensures { IfOk result (λ jumps. jumps.items ≡ jumps_from (get nat_eq places.now) 0 blocks.now) }
{
    let mut jumps = Vec::new(alloc);
    for (block, it) in blocks.iter().enumerate() {
        push_jumps(&mut jumps, places, end_of(block, it), last_of(it))?;
    }
    Ok(jumps)
}
