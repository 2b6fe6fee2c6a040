//! Where the cells are at the end of a block.

use crate::operands::Operands;
use std::marker::Model;

/// The operands of the cells at the end of a block, or behind the phis of one: one for each cell.
#[derive(Debug, Drop)]
pub struct CellState {
    pub block: u32,
    pub values: Operands,
}

impl Model for CellState {
    ghost use Rattle.phi_place.specs.State.{CellState as CellStateValue};

    ghost Value = { CellStateValue };

    ghost view = { λ s. record { block = s.block; values = s.values } };
}
