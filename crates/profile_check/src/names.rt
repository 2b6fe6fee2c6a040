//! The rules on the names of blocks and on the targets of jumps.

ghost use Rattle.std.specs.Prelude.{◌≡◌, ℕ, nat_eq, Bool, IfOk, IfNone, None};
ghost use Rattle.std.specs.HashMap.{get};
ghost use Rattle.qir_module.specs.Passes.{is_target as is_target_place, labels_kept, targets_kept};
ghost use Rattle.qir_module.specs.Broken.{first_breach};
ghost use Rattle.profile_check.specs.Walk.{seen, first_place, first_in};
ghost use Rattle.profile_check.specs.Names.{HasPlaces, AreApart, named_before, targets_fit};

use crate::item::Item;
use crate::place::Place;
use crate::walk::{Rule, first_refused};
use qir_module::{Block, Last, Module};
use qq_base::NoMemory;
use std::alloc::Global;
use std::collections::HashMap;

/// The place of the first block of each name.
pub(crate) type Places = HashMap<u32, usize>;

/// The places of some blocks, by their names.
pub(crate) fn places(alloc: Global, blocks: &[Block]) -> Result<Places, NoMemory>
    ensures { IfOk result (λ places. HasPlaces places blocks.now) }
{
    let mut places = HashMap::new(alloc);
    for place in (0..blocks.len()).rev() {
        places.insert(blocks[place].name, place)?;
    }
    Ok(places)
}

/// The first block that has the name of one in front of it.
pub(crate) fn first_same_name(places: &Places, blocks: &[Block]) -> Option<Place>
    requires { HasPlaces places.now blocks.now }
    ensures { seen result ≡ first_place (named_before blocks.now) 0 blocks.now }
{
    for (block, it) in blocks.iter().enumerate() {
        let first = places.get(&it.name).copied();
        if first != Some(block) {
            return Some(Place { block, item: 0 });
        }
    }
    None
}

/// Targets of jumps exist, are not the first block, and those of a branch differ.
#[derive(Clone, Copy)]
struct TargetsFit<'a> {
    places: &'a Places,
}

/// Whether a block of a name is there, and is not the first.
fn is_target(places: &Places, name: u32) -> bool
    ensures { result ≡ is_target_place (get nat_eq places.now name) }
{
    match places.get(&name) {
        Some(place) => *place != 0,
        None => false,
    }
}

impl Rule for TargetsFit<'_> {
    ghost keeps = { λ r. targets_fit (get nat_eq r.places.now) };

    #[tactic(auto, unfolding(crate::specs::Names::targets_fit))]
    fn is_kept(&self, _block: usize, _item: usize, it: Item<'_>) -> bool {
        match it {
            Item::Last(Last::Jump(to)) => is_target(self.places, to),
            Item::Last(Last::Branch(_, first, second)) => {
                is_target(self.places, first) && is_target(self.places, second) && first != second
            }
            _ => true,
        }
    }
}

/// The first last instruction with a target that is not allowed.
pub(crate) fn first_wrong_target(places: &Places, blocks: &[Block]) -> Option<Place>
    ensures { seen result ≡ first_place (first_in (targets_fit (get nat_eq places.now))) 0 blocks.now }
{
    first_refused(&TargetsFit { places }, blocks)
}

#[tactic(auto, using(crate::proofs::NameLemmas::labels_at))]
pub(crate) fn labels(module: &Module, places: &Places) -> Option<Place>
    requires { HasPlaces places.now «module».now.blocks }
    ensures found { seen result ≡ first_breach «module».now labels_kept }
    ensures apart { IfNone result (AreApart «module».now.blocks) }
{
    first_same_name(places, &module.blocks.items)
}

#[tactic(auto, using(crate::proofs::NameLemmas::targets_at))]
pub(crate) fn targets(module: &Module, places: &Places) -> Option<Place>
    requires { HasPlaces places.now «module».now.blocks }
    ensures { seen result ≡ first_breach «module».now targets_kept }
{
    first_wrong_target(places, &module.blocks.items)
}
