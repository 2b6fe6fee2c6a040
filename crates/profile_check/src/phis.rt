//! The rule on the entries of phis.

ghost use Rattle.std.specs.Prelude.{◌≡◌, ◌++◌, slice_get, ℕ, nat_eq, Bool, List, IfOk, OnOk, map};
ghost use Rattle.std.specs.List.{list_all};
ghost use Rattle.qir_module.specs.Spots.{ThePhi};
ghost use Rattle.qir_module.specs.Numbered.{is_among};
ghost use Rattle.qir_module.specs.Passes.{names_each_once, phis_kept};
ghost use Rattle.profile_check.specs.Walk.{seen, first_item, first_place};
ghost use Rattle.profile_check.specs.Ways.{AreWays};
ghost use Rattle.qir_module.specs.Broken.{first_breach};
ghost use Rattle.profile_check.specs.Registers.{HasAll};
ghost use Rattle.std.specs.HashMap.{get};
ghost use Rattle.std.specs.HashSet.{contains};
ghost use Rattle.profile_check.specs.Phis.{is_single, HasCounts, single, times, names_in, name_in, names_at, phi_fits, wrong_phi, wrong_phi_at};

use crate::place::Place;
use crate::ways::{Ways, row};
use qir_module::{Block, Module, Operand, Phi};
use qq_base::NoMemory;
use std::alloc::Global;
use std::collections::{HashMap, HashSet};

/// Of each name that some entries have, whether one entry alone has it.
#[tactic(auto, using(crate::proofs::PhiLemmas::single_step))]
fn count_names(alloc: Global, entries: &[(Operand, u32)]) -> Result<HashMap<u32, bool>, NoMemory>
    ensures { IfOk result (λ counts. HasCounts counts (names_in entries.now)) }
{
    let mut counts = HashMap::new(alloc);
    for i in (0..entries.len()).rev() {
        let name = entries[i].1;
        let is_first = !counts.contains_key(&name);
        counts.insert(name, is_first)?;
    }
    Ok(counts)
}

/// Whether each of some names stands alone.
fn stand_alone(counts: &HashMap<u32, bool>, names: &[u32]) -> bool
    ensures { result ≡ list_all (λ n. is_single (get nat_eq counts.now n)) names.now }
{
    for name in names {
        if counts.get(name).copied() != Some(true) {
            return false;
        }
    }
    true
}

/// Whether the names of all entries are in a set.
fn are_in(set: &HashSet<u32>, entries: &[(Operand, u32)]) -> bool
    ensures { result ≡ list_all (contains nat_eq set.now) (names_in entries.now) }
{
    for (_, name) in entries {
        if !set.contains(name) {
            return false;
        }
    }
    true
}

/// The numbers of a list.
#[tactic(auto, using(crate::proofs::PhiLemmas::among_front))]
fn set_of(alloc: Global, names: &[u32]) -> Result<HashSet<u32>, NoMemory>
    ensures { IfOk result (λ set. HasAll set names.now) }
{
    let mut set = HashSet::new(alloc);
    for i in (0..names.len()).rev() {
        set.insert(names[i])?;
    }
    Ok(set)
}

/// Appends the name of the block at a place, if there is one.
#[tactic(auto, using(crate::proofs::PhiLemmas::name_within, crate::proofs::PhiLemmas::name_past))]
fn push_name(names: &mut Vec<u32>, blocks: &[Block], place: usize) -> Result<(), NoMemory>
    ensures { OnOk result (names.new.items ≡ names.old.items ++ name_in (slice_get blocks.now place)) }
{
    if place < blocks.len() {
        names.push(blocks[place].name)?;
    }
    Ok(())
}

/// The names of the blocks at some places.
fn names_of(alloc: Global, blocks: &[Block], places: &[usize]) -> Result<Vec<u32>, NoMemory>
    ensures { IfOk result (λ names. names.items ≡ names_at blocks.now places.now) }
{
    let mut names = Vec::new(alloc);
    for place in places {
        push_name(&mut names, blocks, *place)?;
    }
    Ok(names)
}

/// Whether the entries of a phi are one for each of some names.
#[tactic(auto, using(crate::proofs::PhiLemmas::once_each))]
fn is_fine(
    alloc: Global,
    entries: &[(Operand, u32)],
    names: &[u32],
    set: &HashSet<u32>,
) -> Result<bool, NoMemory>
    requires { HasAll set.now names.now }
    ensures { IfOk result (λ fine. fine ≡ names_each_once (names_in entries.now) names.now) }
{
    let counts = count_names(alloc, entries)?;
    Ok(stand_alone(&counts, names) && are_in(set, entries))
}

/// The first of some phis whose entries are not one for each of some names.
#[tactic(auto, unfolding(crate::specs::Phis::phi_fits))]
fn first_wrong(alloc: Global, phis: &[Phi], names: &[u32]) -> Result<Option<usize>, NoMemory>
    ensures { IfOk result (λ found. found ≡ first_item (phi_fits names.now) 0 (map ThePhi phis.now)) }
{
    let set = set_of(alloc, names)?;
    for (i, phi) in phis.iter().enumerate() {
        if !is_fine(alloc, &phi.entries.items, names, &set)? {
            return Ok(Some(i));
        }
    }
    Ok(None)
}

/// The first of a block's phis that is wrong; the first block has none.
fn first_in_block(
    alloc: Global,
    blocks: &[Block],
    ways: &[usize],
    place: usize,
    phis: &[Phi],
) -> Result<Option<usize>, NoMemory>
    ensures { IfOk result (λ found. found ≡ wrong_phi place (names_at blocks.now ways.now) phis.now) }
{
    if phis.is_empty() {
        return Ok(None);
    }
    if place == 0 {
        return Ok(Some(0));
    }
    let names = names_of(alloc, blocks, ways)?;
    first_wrong(alloc, phis, &names)
}

/// The first phi that is wrong, block by block.
fn first_in_blocks(alloc: Global, ways: &Ways, blocks: &[Block]) -> Result<Option<Place>, NoMemory>
    requires { AreWays ways.now.items blocks.now }
    ensures { IfOk result (λ found. seen found ≡ first_place (wrong_phi_at blocks.now) 0 blocks.now) }
{
    for (place, block) in blocks.iter().enumerate() {
        let before = row(ways, place);
        if let Some(item) = first_in_block(alloc, blocks, before, place, &block.phis.items)? {
            return Ok(Some(Place { block: place, item }));
        }
    }
    Ok(None)
}

#[tactic(auto, using(crate::proofs::PhiPlaces::phis_at))]
pub(crate) fn phis(alloc: Global, module: &Module, ways: &Ways) -> Result<Option<Place>, NoMemory>
    requires { AreWays ways.now.items «module».now.blocks }
    ensures { IfOk result (λ found. seen found ≡ first_breach «module».now phis_kept) }
{
    first_in_blocks(alloc, ways, &module.blocks.items)
}
