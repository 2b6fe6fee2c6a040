//! Rows of operands that wait: of each only the cells that are not 0 are held.

ghost use Rattle.std.specs.Prelude.{◌≡◌, ◌≤◌, ◌^◌, ℕ, false, length, map, pos, IfOk, OnOk};
ghost use Rattle.cell_operands.specs.Operands.{operand_of};
ghost use Rattle.phi_place.specs.Phis.{is_listed};
ghost use Rattle.block_lower.specs.Kept.{placed, picked};

use phi_place::Operands;
use qir_module::Operand;
use qq_base::NoMemory;
use std::alloc::Global;
use std::marker::Model;

/// The operands of the cells at a place that waits, seen as their list: all are 0 or false but for those of the listed
/// cells, which ascend.
#[derive(Drop)]
pub struct Kept {
    count: usize,
    cells: Vec<u32>,
    operands: Vec<Operand>,
}

impl Model for Kept {
    ghost use Rattle.std.specs.Prelude.{List};
    ghost use Rattle.qir_module.specs.declared.instruction.Operand.{Operand as AnOperand};
    ghost use Rattle.block_lower.specs.Kept.{kept_row, IsKept};

    ghost Value = { List AnOperand };

    ghost view = { λ kept. kept_row kept.count kept.cells.items kept.operands.items };

    ghost invariant = { λ kept. IsKept kept.count kept.cells.items kept.operands.items };
}

impl Kept {
    /// The same operands in less room.
    #[tactic(auto, using(crate::proofs::Keeping::gathered_none, crate::proofs::Keeping::gathered_push, crate::proofs::Keeping::gathered_zero, crate::proofs::Keeping::gathered_kept, crate::proofs::Keeping::gathered_row))]
    pub fn of(alloc: Global, row: &Operands) -> Result<Kept, NoMemory>
        ensures { IfOk result (λ kept. kept ≡ row.now) }
    {
        let count = row.len();
        let mut cells = Vec::new(alloc);
        let mut operands = Vec::new(alloc);
        for c in 0..count {
            let operand = row.get(c);
            if operand != Operand::Fixed(0) {
                cells.push(c as u32)?;
                operands.push(operand)?;
            }
        }
        Ok(Kept {
            count,
            cells,
            operands,
        })
    }

    /// The whole row.
    pub fn row(&self, alloc: Global) -> Result<Operands, NoMemory>
        ensures { IfOk result (λ row. row ≡ self.now) }
    {
        let mut row = Operands::zeros(alloc, self.count)?;
        place(&mut row, &self.cells, &self.operands);
        Ok(row)
    }

    /// Where a cell is; behind the last one the constant 0.
    pub fn get(&self, c: u32) -> Operand
        ensures { result ≡ operand_of self.now c }
    {
        match self.cells.binary_search(&c) {
            Ok(place) => self.operands[place],
            Err(_) => Operand::Fixed(0),
        }
    }

    /// Adds the listed cells to others.
    pub fn add_cells(&self, cells: &mut Vec<u32>) -> Result<(), NoMemory>
        ensures keeps { OnOk result ((c : ℕ) → is_listed cells.new.items c ≡ false → is_listed cells.old.items c ≡ false) }
        ensures adds { OnOk result ((c : ℕ) → is_listed cells.new.items c ≡ false → operand_of self.now c ≡ Operand.Fixed (pos 0)) }
    {
        cells.extend_from_slice(&self.cells)?;
        Ok(())
    }

    /// The operands of these cells.
    pub fn pick(&self, alloc: Global, cells: &[u32]) -> Result<Operands, NoMemory>
        requires { length cells.now ≤ 2 ^ 31 }
        ensures { IfOk result (λ row. row ≡ picked cells.now self.now) }
    {
        let mut items = Vec::new(alloc);
        for c in cells {
            items.push(self.get(*c))?;
        }
        Ok(Operands::new(items))
    }
}

/// The cells are at these operands.
#[tactic(auto, using(crate::proofs::Storing::place_one, crate::proofs::Storing::place_none))]
pub fn place(row: &mut Operands, cells: &[u32], operands: &[Operand])
    ensures { row.new ≡ placed cells.now operands.now row.old }
{
    for k in 0..cells.len() {
        if k < operands.len() {
            row.set(cells[k] as usize, operands[k]);
        }
    }
}

/// A way: a block that leads to where it waits, with the operands of the cells at its end.
#[derive(Drop)]
pub struct Way {
    pub block: u32,
    pub values: Kept,
}

impl Model for Way {
    ghost use Rattle.phi_place.specs.State.{CellState as CellStateValue};

    ghost Value = { CellStateValue };

    ghost view = { λ way. record { block = way.block; values = way.values } };
}

impl Way {
    pub fn of(alloc: Global, block: u32, row: &Operands) -> Result<Way, NoMemory>
        ensures { IfOk result (λ way. way ≡ record { block = block; values = row.now }) }
    {
        let values = Kept::of(alloc, row)?;
        Ok(Way { block, values })
    }
}
