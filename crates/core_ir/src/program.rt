//! The core of a whole program.

ghost use Rattle.std.specs.Prelude.{◌↔◌, IsTrue};
ghost use Rattle.core_ir.specs.WellFormed.{IsWellFormed};

use crate::expression::{CellKind, CoreExpr};
use crate::statement::CoreStmt;
use crate::well_formed::{
    bodies_stand, exprs_fit, labels_fit, levels_stand, outputs_fit, stmts_fit,
};
use qq_base::Label;
use std::marker::Model;

/// What is recorded at the program's end. Labels and cells are named by their numbers.
#[derive(Clone, Copy, Debug, PartialEq, Eq)]
pub enum Output {
    /// An array of so many records, which follow.
    Array { label: u32, size: u32 },
    /// The truth value of a cell.
    Truth { label: u32, cell: u32 },
    /// The word of a cell.
    Number { label: u32, cell: u32 },
}

/// A program over numbered cells, all of which start as 0 or false.
#[derive(Debug, Drop)]
pub struct Core {
    pub cells: Vec<CellKind>,
    pub exprs: Vec<CoreExpr>,
    pub stmts: Vec<CoreStmt>,
    /// The statements that the program is, in their order.
    pub body: Vec<u32>,
    pub outputs: Vec<Output>,
    pub labels: Vec<Label>,
    /// The number of its qubits.
    pub qubits: u32,
}

impl Model for Core {
    ghost use Rattle.core_ir.specs.Core.{Core as CoreValue};

    ghost Value = { CoreValue };

    ghost view = { λ c. record {
      cells = c.cells.items;
      exprs = c.exprs.items;
      stmts = c.stmts.items;
      body = c.body.items;
      outputs = c.outputs.items;
      labels = c.labels.items;
      qubits = c.qubits;
    } };
}

impl Core {
    /// Whether numbers are in range, kinds agree, statements stand in one body each and the levels that
    /// they name are there: see `IsWellFormed` of `specs/WellFormed.antt`. It accepts any core and takes no
    /// memory. It goes over the statements once for each 65,536 of them; in a core of more, the levels of each
    /// `Leave` and `Again` are looked for over the statements in front of it.
    pub fn well_formed(&self) -> bool
        ensures { IsTrue result ↔ IsWellFormed self.now }
    {
        exprs_fit(self)
            && stmts_fit(self)
            && outputs_fit(self)
            && labels_fit(self)
            && bodies_stand(self)
            && levels_stand(self)
    }
}
