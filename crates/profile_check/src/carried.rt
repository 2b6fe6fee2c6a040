//! What is carried into each block, for 64 registers or results at a time: one bit each of a word for each block.

ghost use Rattle.std.specs.Prelude.{◌≡◌, ℕ, ◌≤◌, ◌<◌, ◌%◌, nat_eq, nat_lt, ◌&&◌, ◌||◌, [], IfOk, length, filter, slice_index_or};
ghost use Rattle.profile_check.specs.Rounds.{is_bit, has_bit, round_assigns, HoldsBits, meets, carried_bit, use_kept, lost_uses, jump_kept, lost_jumps, lost_in_round};
ghost use Rattle.profile_check.specs.First.{first_among};
ghost use Rattle.profile_check.specs.Ways.{AreWays};

use crate::first::first_of;
use crate::jumps::Jump;
use crate::mentions::How;
use crate::place::Place;
use crate::rounds::Use;
use crate::ways::{Ways, row};
use qir_module::Block;
use qq_base::NoMemory;
use std::alloc::Global;

/// Sets the bit of a slot in the word of a block, if the block is there.
fn add_bit(words: &mut Vec<u64>, block: usize, slot: usize)
    ensures long { length words.new.items ≡ length words.old.items }
    ensures bits { (b j : ℕ) → b < length words.old.items → j < 64
        → has_bit words.new.items b j ≡ (has_bit words.old.items b j || (nat_eq block b && nat_eq (slot % 64) j)) }
{
    if block < words.len() {
        words[block] |= 1 << (slot % 64);
    }
}

/// What each block assigns.
fn assigned_words(alloc: Global, blocks: usize, uses: &[Use]) -> Result<Vec<u64>, NoMemory>
    ensures { IfOk result (λ words. HoldsBits words.items blocks (round_assigns uses.now)) }
{
    let mut words = vec![in alloc; 0; blocks]?;
    for one in uses {
        if let How::Assigned = one.mention.how {
            add_bit(&mut words, one.block, one.slot);
        }
    }
    Ok(words)
}

/// The word of a block, or 0 where there is none.
fn word(words: &[u64], block: usize) -> u64
    ensures { result ≡ slice_index_or words.now block 0 }
{
    if block < words.len() { words[block] } else { 0 }
}

/// What is carried into a block: what each predecessor that stands earlier carries or assigns.
fn carried_into(before: &[usize], block: usize, carried: &[u64], assigned: &[u64]) -> u64
    ensures { (j : ℕ) → j < 64 → is_bit result j
        ≡ meets (has_bit carried.now) (has_bit assigned.now) (filter (λ q. nat_lt q block) before.now) j }
{
    let mut met = u64::MAX;
    let mut entered = false;
    for place in before {
        if *place < block {
            met &= word(carried, *place) | word(assigned, *place);
            entered = true;
        }
    }
    if entered { met } else { 0 }
}

/// What is carried into each block.
fn carried_words(
    alloc: Global,
    blocks: &[Block],
    ways: &Ways,
    assigned: &[u64],
) -> Result<Vec<u64>, NoMemory>
    requires { AreWays ways.now.items blocks.now }
    ensures { IfOk result (λ words. HoldsBits words.items (length blocks.now) (carried_bit blocks.now (has_bit assigned.now))) }
{
    let mut words = Vec::new(alloc);
    for (block, _) in blocks.iter().enumerate() {
        let met = carried_into(row(ways, block), block, &words, assigned);
        words.push(met)?;
    }
    Ok(words)
}

/// Whether the bit of a slot is set in the word of a block.
fn has(words: &[u64], block: usize, slot: usize) -> bool
    ensures { result ≡ has_bit words.now block (slot % 64) }
{
    word(words, block) >> (slot % 64) & 1 == 1
}

/// Whether what a mention asks for is carried.
fn is_kept(carried: &[u64], assigned: &[u64], one: Use) -> bool
    ensures { result ≡ use_kept (has_bit carried.now) (has_bit assigned.now) one.mention.how one.block (one.slot % 64) }
{
    match one.mention.how {
        How::Assigned => true,
        How::Read => has(carried, one.block, one.slot),
        How::Entry(_) => { has(carried, one.block, one.slot) || has(assigned, one.block, one.slot) }
    }
}

/// The first mention that asks for what is not carried, or what was found before.
fn first_lost_use(
    carried: &[u64],
    assigned: &[u64],
    uses: &[Use],
    found: Option<Place>,
) -> Option<Place>
    ensures { result ≡ first_among found (lost_uses (has_bit carried.now) (has_bit assigned.now) uses.now) }
{
    let mut first = found;
    for one in uses {
        if !is_kept(carried, assigned, *one) {
            first = first_of(first, one.mention.at);
        }
    }
    first
}

/// Whether a jump back leaves what its target carries.
fn is_jump_kept(carried: &[u64], assigned: &[u64], jump: Jump) -> bool
    ensures { result ≡ jump_kept (has_bit carried.now) (has_bit assigned.now) jump }
{
    let wanted = word(carried, jump.to);
    let left = word(carried, jump.at.block) | word(assigned, jump.at.block);
    wanted & left == wanted
}

/// The first jump back that loses something, or what was found before.
fn first_lost_jump(
    carried: &[u64],
    assigned: &[u64],
    jumps: &[Jump],
    found: Option<Place>,
) -> Option<Place>
    ensures { result ≡ first_among found (lost_jumps (has_bit carried.now) (has_bit assigned.now) jumps.now) }
{
    let mut first = found;
    for jump in jumps {
        if !is_jump_kept(carried, assigned, *jump) {
            first = first_of(first, jump.at);
        }
    }
    first
}

/// The first place where something of a round is lost, or what was found before.
pub(crate) fn first_in_round(
    alloc: Global,
    blocks: &[Block],
    ways: &Ways,
    jumps: &[Jump],
    uses: &[Use],
    found: Option<Place>,
) -> Result<Option<Place>, NoMemory>
    requires { AreWays ways.now.items blocks.now }
    ensures { IfOk result (λ first. first ≡ first_among found (lost_in_round blocks.now jumps.now uses.now)) }
{
    let assigned = assigned_words(alloc, blocks.len(), uses)?;
    let carried = carried_words(alloc, blocks, ways, &assigned)?;
    let found = first_lost_use(&carried, &assigned, uses, found);
    Ok(first_lost_jump(&carried, &assigned, jumps, found))
}
