//! Parts of a module, by their places.

ghost use Rattle.std.specs.Prelude.{◌≡◌, ◌+◌, ◌<◌, ◌^◌, length, Some, slice_get};
ghost use Rattle.qir_module.specs.Module.{IsShaped};

use crate::ways::Ways;
use qir_module::{Block, Instr, Module, Phi};

/// The blocks.
pub fn blocks_of(module: &Module) -> &[Block]
    ensures blocks { result.now ≡ «module».now.blocks }
    ensures shaped { IsShaped «module».now }
    ensures few { length result.now < 2 ^ 32 }
{
    &module.blocks.items
}

/// The block at a place.
pub fn block_at(module: &Module, place: usize) -> &Block
    requires { place < length «module».now.blocks }
    ensures { slice_get «module».now.blocks place ≡ Some result.now }
{
    &module.blocks.items[place]
}

/// The number of instructions of a block, its last one aside.
pub fn body_length(block: &Block) -> usize
    ensures { result ≡ length block.now.body }
{
    block.body.items.len()
}

/// An instruction of a block.
pub fn instruction_at(block: &Block, item: usize) -> &Instr
    requires { item < length block.now.body }
    ensures found { slice_get block.now.body item ≡ Some result.now }
    ensures fits { item + 1 < 2 ^ 64 }
{
    let length = block.body.items.len();
    let inside = item < length;
    prove!(inside);
    &block.body.items[item]
}

/// The phis of a block.
pub fn phis_of(block: &Block) -> &[Phi]
    ensures { result.now ≡ block.now.phis }
{
    &block.phis.items
}

/// The number of labels.
pub fn label_count(module: &Module) -> usize
    ensures { result ≡ length «module».now.labels }
{
    module.labels.items.len()
}

/// The ways out of the block at a place.
pub fn ways_at(ways: &Vec<Ways>, place: usize) -> Ways
    requires { place < length ways.now.items }
    ensures { slice_get ways.now.items place ≡ Some result }
{
    ways[place]
}
