//! The law of cells and their operands. It has no code: its contract is the law.

ghost use Rattle.cell_operands.specs.Operands.{CellsStay};

/// Where the registers below the next one stay, operands below it hold the cells that they held.
pub fn cells_stay()
    ensures { CellsStay }
{}
