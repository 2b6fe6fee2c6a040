//! The rules on what is carried, for registers and for results.

ghost use Rattle.std.specs.Prelude.{◌≡◌, IfOk, None};
ghost use Rattle.profile_check.specs.First.{first_among};
ghost use Rattle.profile_check.specs.Mentions.{Registers, Results, mentions_of};
ghost use Rattle.profile_check.specs.Names.{HasPlaces};
ghost use Rattle.profile_check.specs.Rounds.{lost_in_rounds, IsFirstLost};
ghost use Rattle.profile_check.specs.Visits.{placed_from};
ghost use Rattle.profile_check.specs.Walk.{seen};
ghost use Rattle.profile_check.specs.Ways.{AreWays};
ghost use Rattle.qir_module.specs.Broken.{first_breach};
ghost use Rattle.qir_module.specs.Passes.{carried_registers_kept, carried_results_kept};

use crate::carried::first_in_round;
use crate::jumps::{Jump, back_jumps};
use crate::mentions::{AllMentions, Mention};
use crate::names::Places;
use crate::place::Place;
use crate::rounds::{Use, by_rounds, make_slots};
use crate::ways::Ways;
use qir_module::{Block, Module};
use qq_base::NoMemory;
use std::alloc::Global;

/// The first place where something is lost in any round.
fn first_in_rounds(
    alloc: Global,
    blocks: &[Block],
    ways: &Ways,
    jumps: &[Jump],
    rounds: &[Vec<Use>],
) -> Result<Option<Place>, NoMemory>
    requires { AreWays ways.now.items blocks.now }
    ensures { IfOk result (λ first. first ≡ first_among None (lost_in_rounds blocks.now jumps.now rounds.now)) }
{
    let mut first = None;
    for uses in rounds {
        first = first_in_round(alloc, blocks, ways, jumps, uses.as_slice(), first)?;
    }
    Ok(first)
}

/// The first place where something that is mentioned is lost.
fn first_lost(
    alloc: Global,
    blocks: &[Block],
    places: &Places,
    ways: &Ways,
    mentions: &[Mention],
) -> Result<Option<Place>, NoMemory>
    requires places { HasPlaces places.now blocks.now }
    requires ways { AreWays ways.now.items blocks.now }
    ensures { IfOk result (λ first. IsFirstLost blocks.now mentions.now first) }
{
    let slots = make_slots(alloc, mentions)?;
    let rounds = by_rounds(alloc, &slots, places, blocks.len(), mentions)?;
    let jumps = back_jumps(alloc, places, blocks)?;
    first_in_rounds(alloc, blocks, ways, &jumps, &rounds)
}

#[tactic(auto, using(crate::proofs::LostPlaces::registers_at))]
pub(crate) fn carried_registers(
    alloc: Global,
    module: &Module,
    places: &Places,
    ways: &Ways,
    mentions: &AllMentions,
) -> Result<Option<Place>, NoMemory>
    requires places { HasPlaces places.now «module».now.blocks }
    requires ways { AreWays ways.now.items «module».now.blocks }
    requires mentions { mentions.now.registers.mentions.items ≡ mentions_of Registers (placed_from 0 «module».now.blocks) }
    ensures { IfOk result (λ found. seen found ≡ first_breach «module».now carried_registers_kept) }
{
    let registers = mentions.registers.mentions.as_slice();
    first_lost(alloc, &module.blocks.items, places, ways, registers)
}

#[tactic(auto, using(crate::proofs::LostPlaces::results_at))]
pub(crate) fn carried_results(
    alloc: Global,
    module: &Module,
    places: &Places,
    ways: &Ways,
    mentions: &AllMentions,
) -> Result<Option<Place>, NoMemory>
    requires places { HasPlaces places.now «module».now.blocks }
    requires ways { AreWays ways.now.items «module».now.blocks }
    requires mentions { mentions.now.results.mentions.items ≡ mentions_of Results (placed_from 0 «module».now.blocks) }
    ensures { IfOk result (λ found. seen found ≡ first_breach «module».now carried_results_kept) }
{
    let results = mentions.results.mentions.as_slice();
    first_lost(alloc, &module.blocks.items, places, ways, results)
}
