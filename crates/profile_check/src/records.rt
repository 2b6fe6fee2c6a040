//! The rule on records and returns.

ghost use Rattle.std.specs.Prelude.{◌≡◌, ◌+◌, ◌<◌, ◌^◌, ◌++◌, [], ◌∷◌, length, map, false};
ghost use Rattle.qir_module.specs.Spots.{TheInstr, TheLast};
ghost use Rattle.qir_module.specs.Passes.{is_record as is_record_item, returns as returns_here, some_returns as some_returns_of, records_kept};
ghost use Rattle.qir_module.specs.Broken.{first_breach};
ghost use Rattle.profile_check.specs.Walk.{seen, first_place};
ghost use Rattle.profile_check.specs.Records.{records_from, records_in, records_at, return_fits};

use crate::place::Place;
use crate::table::is_record;
use qir_module::{Block, Instr, Last, Module};

/// Whether an instruction is a record.
fn is_record_call(instr: &Instr) -> bool
    ensures { result ≡ is_record_item (TheInstr instr.now) }
{
    match instr {
        Instr::Call { function, .. } => is_record(*function),
        _ => false,
    }
}

/// Whether a last instruction returns.
fn returns(last: Last) -> bool
    ensures { result ≡ returns_here last }
{
    match last {
        Last::Return(_) => true,
        Last::Jump(_) | Last::Branch(..) => false,
    }
}

/// Whether a block returns.
fn some_returns(blocks: &[Block]) -> bool
    ensures { result ≡ some_returns_of blocks.now }
{
    for block in blocks {
        if returns(block.last) {
            return true;
        }
    }
    false
}

/// Whether a last instruction returns 0, and no block in front returns, if it returns.
fn return_is_fine(returned: bool, last: Last) -> bool
    ensures { result ≡ return_fits returned last }
{
    match last {
        Last::Return(code) => code == 0 && !returned,
        Last::Jump(_) | Last::Branch(..) => true,
    }
}

/// The first of a block's items behind its phis that is wrong; they stand from the item `from` on.
#[tactic(auto, using(crate::proofs::RecordLemmas::last_record))]
fn first_wrong_item(from: usize, body: &[Instr], last: Last, returned: bool) -> Option<usize>
    requires { from + length body.now < 2 ^ 64 }
    ensures { result ≡ records_from (returns_here last) returned false from (map TheInstr body.now ++ TheLast last ∷ []) }
{
    let ends = returns(last);
    let mut recorded = false;
    for (i, instr) in body.iter().enumerate() {
        let is_record = is_record_call(instr);
        if is_record && !ends || !is_record && recorded {
            return Some(from + i);
        }
        recorded = recorded || is_record;
    }
    if return_is_fine(returned, last) {
        None
    } else {
        Some(from + body.len())
    }
}

/// The first item of a block that is wrong, where a block in front returns or none does.
#[tactic(auto, using(crate::proofs::RecordLemmas::behind_phis))]
fn first_in_block(block: &Block, returned: bool) -> Option<usize>
    ensures { result ≡ records_in returned block.now }
{
    first_wrong_item(
        block.phis.items.len(),
        &block.body.items,
        block.last,
        returned,
    )
}

/// The first item that is wrong, block by block.
fn first_in_blocks(blocks: &[Block]) -> Option<Place>
    ensures { seen result ≡ first_place (records_at blocks.now) 0 blocks.now }
{
    let mut returned = false;
    for (place, block) in blocks.iter().enumerate() {
        if let Some(item) = first_in_block(block, returned) {
            return Some(Place { block: place, item });
        }
        returned = returned || returns(block.last);
    }
    None
}

#[tactic(auto, using(crate::proofs::RecordLemmas::records_breach))]
pub(crate) fn records(module: &Module) -> Option<Place>
    ensures { seen result ≡ first_breach «module».now records_kept }
{
    if some_returns(&module.blocks.items) {
        first_in_blocks(&module.blocks.items)
    } else {
        Some(Place::FIRST)
    }
}
