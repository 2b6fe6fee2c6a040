//! The ways between blocks: the predecessors of each.

ghost use Rattle.std.specs.Prelude.{◌≡◌, ℕ, ◌<◌, nat_eq, Bool, [], OnOk, IfOk, length};
ghost use Rattle.std.specs.HashMap.{get};
ghost use Rattle.profile_check.specs.Names.{HasPlaces, AreApart, is_at};
ghost use Rattle.profile_check.specs.Ways.{row as row_of, AreWays, leads, Adds, without_earlier, any_below};
ghost use Rattle.profile_check.specs.Walk.{seen, first_place};
ghost use Rattle.qir_module.specs.Passes.{earlier_way_kept};
ghost use Rattle.qir_module.specs.Broken.{first_breach};

use crate::names::Places;
use crate::place::Place;
use crate::rows::{empty_rows, push_in_row};
use qir_module::{Block, Last, Module};
use qq_base::NoMemory;
use std::alloc::Global;

/// The places of the predecessors of each block, in order.
pub(crate) type Ways = Vec<Vec<usize>>;

/// Adds a way to a block, if there is one.
fn add_way(ways: &mut Ways, to: Option<usize>, from: usize) -> Result<(), NoMemory>
    ensures { OnOk result (Adds ways.old.items ways.new.items (λ b. is_at b to) from) }
{
    match to {
        Some(to) => push_in_row(ways, to, from),
        None => Ok(()),
    }
}

/// Adds the ways of a block's last instruction.
fn add_ways(ways: &mut Ways, places: &Places, from: usize, last: Last) -> Result<(), NoMemory>
    ensures { OnOk result (Adds ways.old.items ways.new.items (leads (get nat_eq places.now) last) from) }
{
    match last {
        Last::Jump(to) => add_way(ways, places.get(&to).copied(), from),
        Last::Branch(_, first, second) => {
            let first = places.get(&first).copied();
            let second = places.get(&second).copied();
            add_way(ways, first, from)?;
            if second == first {
                return Ok(());
            }
            add_way(ways, second, from)
        }
        Last::Return(_) => Ok(()),
    }
}

/// The ways between some blocks.
pub(crate) fn ways(alloc: Global, places: &Places, blocks: &[Block]) -> Result<Ways, NoMemory>
    requires places { HasPlaces places.now blocks.now }
    requires apart { AreApart blocks.now }
    ensures { IfOk result (λ ways. AreWays ways.items blocks.now) }
{
    let mut ways = empty_rows(alloc, blocks.len())?;
    for (from, block) in blocks.iter().enumerate() {
        add_ways(&mut ways, places, from, block.last)?;
    }
    Ok(ways)
}

/// The predecessors of a block.
#[tactic(auto, using(crate::proofs::NameLemmas::row_at))]
pub(crate) fn row(ways: &Ways, block: usize) -> &[usize]
    requires { block < length ways.now.items }
    ensures { result.now ≡ row_of ways.now.items block }
{
    ways[block].as_slice()
}

/// Whether a predecessor stands earlier.
pub(crate) fn has_earlier(ways: &[usize], place: usize) -> bool
    ensures { result ≡ any_below place ways.now }
{
    for from in ways {
        if *from < place {
            return true;
        }
    }
    false
}

/// The first block, other than the first of all, without an earlier predecessor.
fn first_without_earlier(ways: &Ways, blocks: &[Block]) -> Option<Place>
    requires { AreWays ways.now.items blocks.now }
    ensures { seen result ≡ first_place (without_earlier blocks.now) 0 blocks.now }
{
    for (block, _) in blocks.iter().enumerate() {
        if block != 0 && !has_earlier(row(ways, block), block) {
            return Some(Place { block, item: 0 });
        }
    }
    None
}

#[tactic(auto, using(crate::proofs::NameLemmas::earlier_way_at))]
pub(crate) fn earlier_ways(module: &Module, ways: &Ways) -> Option<Place>
    requires { AreWays ways.now.items «module».now.blocks }
    ensures { seen result ≡ first_breach «module».now earlier_way_kept }
{
    first_without_earlier(ways, &module.blocks.items)
}
