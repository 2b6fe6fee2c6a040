//! The walk over the items of a module, in the order of the text, up to the first that a rule refuses.

ghost use Rattle.std.specs.Prelude.{◌≡◌, ℕ, Bool, List, ◌∷◌, [], ◌+◌, ◌^◌, ◌<◌, length, map};
ghost use Rattle.qir_module.specs.Spots.{Item as TheItem, ThePhi, TheInstr, TheLast};
ghost use Rattle.profile_check.specs.Walk.{seen, item_of, first_item as first_item_of, first_in, first_place};

use crate::item::Item;
use crate::place::Place;
use qir_module::{Block, Instr, Phi};

/// A rule that goes by an item and its place alone.
pub(crate) trait Rule {
    /// Whether it is kept by an item at a place: a block and an item of it.
    ghost keeps: { Self → ℕ → ℕ → TheItem → Bool };

    fn is_kept(&self, block: usize, item: usize, it: Item<'_>) -> bool
        ensures { result ≡ keeps self.now block item (item_of it.entry) };
}

/// The first of some phis that a rule refuses.
fn first_phi<R: Rule>(rule: &R, block: usize, phis: &[Phi]) -> Option<usize>
    ensures { result ≡ first_item_of (R.keeps rule.now block) 0 (map ThePhi phis.now) }
{
    for (i, phi) in phis.iter().enumerate() {
        if !rule.is_kept(block, i, Item::Phi(phi)) {
            return Some(i);
        }
    }
    None
}

/// The first of some instructions that a rule refuses; they stand from the item `from` on.
fn first_instr<R: Rule>(rule: &R, block: usize, from: usize, body: &[Instr]) -> Option<usize>
    requires { from + length body.now < 2 ^ 64 }
    ensures { result ≡ first_item_of (R.keeps rule.now block) from (map TheInstr body.now) }
{
    for (i, instr) in body.iter().enumerate() {
        if !rule.is_kept(block, from + i, Item::Instr(instr)) {
            return Some(from + i);
        }
    }
    None
}

/// The first item of a block that a rule refuses.
#[tactic(auto, using(crate::proofs::Walks::first_in_parts))]
fn first_in_block<R: Rule>(rule: &R, place: usize, block: &Block) -> Option<usize>
    ensures { result ≡ first_in (R.keeps rule.now) place block.now }
{
    let phis = block.phis.items.as_slice();
    let body = block.body.items.as_slice();
    if let Some(item) = first_phi(rule, place, phis) {
        return Some(item);
    }
    if let Some(item) = first_instr(rule, place, phis.len(), body) {
        return Some(item);
    }
    let end = phis.len() + body.len();
    if rule.is_kept(place, end, Item::Last(block.last)) {
        None
    } else {
        Some(end)
    }
}

/// The first place that a rule refuses.
pub(crate) fn first_refused<R: Rule>(rule: &R, blocks: &[Block]) -> Option<Place>
    ensures { seen result ≡ first_place (first_in (R.keeps rule.now)) 0 blocks.now }
{
    for (place, block) in blocks.iter().enumerate() {
        if let Some(item) = first_in_block(rule, place, block) {
            return Some(Place { block: place, item });
        }
    }
    None
}
