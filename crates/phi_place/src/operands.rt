//! The operands of the cells.

ghost use Rattle.std.specs.Prelude.{◌≡◌, ◌≤◌, ◌^◌, length, replicate, slice_set, pos, IfOk};
ghost use Rattle.cell_operands.specs.Operands.{operand_of};

use qir_module::Operand;
use qq_base::NoMemory;
use std::alloc::Global;
use std::marker::Model;

/// Where the cells are: an operand for each, seen as their list. There are at most 2^31.
#[derive(Debug, Drop)]
pub struct Operands {
    items: Vec<Operand>,
}

impl Model for Operands {
    ghost use Rattle.std.specs.Prelude.{List, ◌≤◌, ◌^◌, length};
    ghost use Rattle.qir_module.specs.declared.instruction.Operand.{Operand as AnOperand};

    ghost Value = { List AnOperand };

    ghost view = { λ operands. operands.items.items };

    ghost invariant = { λ operands. length operands.items.items ≤ 2 ^ 31 };
}

impl Operands {
    pub fn new(items: Vec<Operand>) -> Operands
        requires { length items.items ≤ 2 ^ 31 }
        ensures { result ≡ items.items }
    {
        Operands { items }
    }

    /// So many cells, which all are 0 or false.
    pub fn zeros(alloc: Global, count: usize) -> Result<Operands, NoMemory>
        requires { count ≤ 2 ^ 31 }
        ensures { IfOk result (λ operands. operands ≡ replicate count (Operand.Fixed (pos 0))) }
    {
        let items = vec![in alloc; Operand::Fixed(0); count]?;
        Ok(Operands { items })
    }

    /// The number of cells.
    pub fn len(&self) -> usize
        ensures length { result ≡ length self.now }
        ensures few { result ≤ 2 ^ 31 }
    {
        self.items.len()
    }

    /// Where a cell is; behind the last one the constant 0.
    pub fn get(&self, c: usize) -> Operand
        ensures { result ≡ operand_of self.now c }
    {
        if c < self.items.len() {
            self.items[c]
        } else {
            Operand::Fixed(0)
        }
    }

    /// From now on the cell is there, if there is such a cell.
    pub fn set(&mut self, c: usize, operand: Operand)
        ensures { self.new ≡ slice_set self.old c operand }
    {
        if c < self.items.len() {
            self.items[c] = operand;
        }
    }

    /// All operands, in the order of their cells.
    pub fn as_slice(&self) -> &[Operand]
        ensures { result.now ≡ self.now }
    {
        &self.items
    }

    /// The same again.
    pub fn copy(&self, alloc: Global) -> Result<Operands, NoMemory>
        ensures { IfOk result (λ operands. operands ≡ self.now) }
    {
        let items = Vec::from_slice(alloc, &self.items)?;
        Ok(Operands { items })
    }
}
