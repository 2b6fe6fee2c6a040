//! The walk of a visitor over all items of a module, in the order of the text.

ghost use Rattle.std.specs.Prelude.{◌≡◌, ℕ, ◌+◌, ◌<◌, ◌^◌, List, ◌∷◌, [], ◌++◌, OnOk, length, map};
ghost use Rattle.qir_module.specs.Spots.{ThePhi, TheInstr};
ghost use Rattle.profile_check.specs.Walk.{item_of};
ghost use Rattle.profile_check.specs.Visits.{Placed, placed_items, placed_parts, placed_in, placed_from};

use crate::item::Item;
use qir_module::{Block, Instr, Last, Phi};
use qq_base::NoMemory;

/// What is gathered from the items that were visited.
pub(crate) trait Visit {
    /// What holds of it, once these items were visited.
    ghost Holds: { Self → List Placed → Type 0 };

    fn visit(&mut self, block: usize, item: usize, it: Item<'_>) -> Result<(), NoMemory>
        ensures { OnOk result ((visited : List Placed) → Holds self.old visited
            → Holds self.new (visited ++ record { block = block; item = item; here = item_of it.entry } ∷ [])) };
}

/// Visits some phis.
fn visit_phis<V: Visit>(visitor: &mut V, block: usize, phis: &[Phi]) -> Result<(), NoMemory>
    ensures { OnOk result ((visited : List Placed) → V.Holds visitor.old visited
        → V.Holds visitor.new (visited ++ placed_items block 0 (map ThePhi phis.now))) }
{
    for (i, phi) in phis.iter().enumerate() {
        visitor.visit(block, i, Item::Phi(phi))?;
    }
    Ok(())
}

/// Visits some instructions, which stand from the item `from` on.
fn visit_body<V: Visit>(
    visitor: &mut V,
    block: usize,
    from: usize,
    body: &[Instr],
) -> Result<(), NoMemory>
    requires { from + length body.now < 2 ^ 64 }
    ensures { OnOk result ((visited : List Placed) → V.Holds visitor.old visited
        → V.Holds visitor.new (visited ++ placed_items block from (map TheInstr body.now))) }
{
    for (i, instr) in body.iter().enumerate() {
        visitor.visit(block, from + i, Item::Instr(instr))?;
    }
    Ok(())
}

/// Visits the parts of a block.
fn visit_parts<V: Visit>(
    visitor: &mut V,
    block: usize,
    phis: &[Phi],
    body: &[Instr],
    last: Last,
) -> Result<(), NoMemory>
    requires { length phis.now + length body.now < 2 ^ 64 }
    ensures { OnOk result ((visited : List Placed) → V.Holds visitor.old visited
        → V.Holds visitor.new (visited ++ placed_parts block phis.now body.now last)) }
{
    visit_phis(visitor, block, phis)?;
    visit_body(visitor, block, phis.len(), body)?;
    visitor.visit(block, phis.len() + body.len(), Item::Last(last))
}

/// The last instruction of a block.
pub(crate) fn last_of(block: &Block) -> Last
    ensures { result ≡ block.now.last }
{
    block.last
}

/// Visits the items of a block.
fn visit_block<V: Visit>(visitor: &mut V, place: usize, block: &Block) -> Result<(), NoMemory>
    ensures { OnOk result ((visited : List Placed) → V.Holds visitor.old visited
        → V.Holds visitor.new (visited ++ placed_in place block.now)) }
{
    let phis = block.phis.items.as_slice();
    let body = block.body.items.as_slice();
    let last = last_of(block);
    visit_parts(visitor, place, phis, body, last)
}

/// Visits all items of some blocks.
pub(crate) fn visit_all<V: Visit>(visitor: &mut V, blocks: &[Block]) -> Result<(), NoMemory>
    ensures { OnOk result ((visited : List Placed) → V.Holds visitor.old visited
        → V.Holds visitor.new (visited ++ placed_from 0 blocks.now)) }
{
    for (place, block) in blocks.iter().enumerate() {
        visit_block(visitor, place, block)?;
    }
    Ok(())
}
