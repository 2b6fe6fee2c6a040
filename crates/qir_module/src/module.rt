//! The module.

ghost use Rattle.std.specs.Prelude.{◌≡◌, ◌<◌, ◌^◌};
ghost use Rattle.qir_module.specs.Items.{block_items as block_items_of, items_of};

use crate::block::Block;
use crate::function::Function;
use crate::profile::Profile;
use crate::sequence::Sequence;
use qq_base::Label;
use std::marker::Model;

/// A module. Each is shaped: see `IsShaped` of `specs/Module.antt`.
#[derive(Debug, Drop)]
pub struct Module {
    pub labels: Sequence<Label>,
    pub blocks: Sequence<Block>,
    pub declarations: Sequence<Function>,
    pub profile: Profile,
    pub qubits: u32,
    pub results: u32,
    pub major: u32,
    pub minor: u32,
    pub dynamic_qubits: bool,
    pub dynamic_results: bool,
}

impl Model for Module {
    ghost use Rattle.qir_module.specs.Module.{Module as ModuleValue, IsShaped};

    ghost Value = { ModuleValue };

    ghost view = { λ m. record {
      labels = m.labels;
      blocks = m.blocks;
      declarations = m.declarations;
      profile = m.profile;
      qubits = m.qubits;
      results = m.results;
      major = m.major;
      minor = m.minor;
      dynamic_qubits = m.dynamic_qubits;
      dynamic_results = m.dynamic_results;
    } };

    ghost invariant = { λ m. IsShaped (record {
      labels = m.labels;
      blocks = m.blocks;
      declarations = m.declarations;
      profile = m.profile;
      qubits = m.qubits;
      results = m.results;
      major = m.major;
      minor = m.minor;
      dynamic_qubits = m.dynamic_qubits;
      dynamic_results = m.dynamic_results;
    }) };
}

/// The number of blocks, phi entries, instructions and last instructions.
pub fn items(module: &Module) -> u64
    ensures { result ≡ items_of «module».now.blocks }
{
    let mut count = 0;
    for block in &module.blocks.items {
        count += block_items(block);
    }
    count
}

/// The items of one block.
fn block_items(block: &Block) -> u64
    requires { block_items_of block.now < 2 ^ 64 }
    ensures { result ≡ block_items_of block.now }
{
    let mut entries = 0;
    for phi in &block.phis.items {
        entries += phi.entries.items.len() as u64;
    }
    entries + block.body.items.len() as u64 + 2
}
