//! What the lowering keeps while it runs.

ghost use Rattle.std.specs.Prelude.{◌≡◌, ◌<◌, ◌^◌, ◌+◌, ◌++◌, length, slice_set, [], ◌∷◌, All, IfOk, OnOk};
ghost use Rattle.core_ir.specs.WellFormed.{Fits};
ghost use Rattle.expr_lower.specs.Coded.{coded};
ghost use Rattle.block_graph.specs.Work.{Ready, Late};
ghost use Rattle.block_graph.specs.Lowering.{closed, add_way, label_at};
ghost use Rattle.block_lower.specs.Kept.{placed};

use crate::kept::{Way, place};
use core_ir::Core;
use expr_lower::laws::few_are_reached;
use expr_lower::lower_expr;
use phi_place::Operands;
use qir_module::{Instr, Last, Operand, Phi, Sequence};
use qq_base::NoMemory;
use std::alloc::Global;
use std::marker::Model;

/// A block whose last instruction names labels. Its phis may be found later, at a place of the late ones.
#[derive(Drop)]
pub struct Draft {
    pub phis: Sequence<Phi>,
    pub late: Option<usize>,
    pub body: Sequence<Instr>,
    pub last: Last,
}

impl Model for Draft {
    ghost use Rattle.block_graph.specs.Work.{Draft as DraftValue};
    ghost use Rattle.block_lower.specs.Parts.{phi_part};

    ghost Value = { DraftValue };

    ghost view = { λ d. record { phis = phi_part d.late d.phis; body = d.body; last = d.last } };
}

/// The block that instructions are appended to, with the operands of the cells.
#[derive(Drop)]
pub struct Open {
    phis: Sequence<Phi>,
    late: Option<usize>,
    body: Sequence<Instr>,
    values: Operands,
}

impl Model for Open {
    ghost use Rattle.block_graph.specs.Work.{Open as OpenValue};
    ghost use Rattle.block_lower.specs.Parts.{phi_part};

    ghost Value = { OpenValue };

    ghost view = { λ o. record { phis = phi_part o.late o.phis; body = o.body; values = o.values } };
}

impl Open {
    /// A block with these phis.
    pub fn new(alloc: Global, phis: Vec<Phi>, values: Operands) -> Open
        ensures { result ≡ record { phis = Ready phis.items; body = []; values = values } }
    {
        Open {
            phis: Sequence { items: phis },
            late: None,
            body: Sequence {
                items: Vec::new(alloc),
            },
            values,
        }
    }

    /// A block whose phis are found later, at a place.
    pub fn late(alloc: Global, place: usize, values: Operands) -> Open
        ensures { result ≡ record { phis = Late place; body = []; values = values } }
    {
        Open {
            phis: Sequence {
                items: Vec::new(alloc),
            },
            late: Some(place),
            body: Sequence {
                items: Vec::new(alloc),
            },
            values,
        }
    }

    pub fn values(&self) -> &Operands
        ensures { result.now ≡ self.now.values }
    {
        &self.values
    }

    /// Appends the code of expressions, and gives their operands.
    pub fn compute(
        &mut self,
        alloc: Global,
        core: &Core,
        exprs: &[u32],
        next: &mut u32,
    ) -> Result<Vec<Operand>, NoMemory>
        requires fits { Fits core.now }
        requires within { All (λ e. e < length core.now.exprs) exprs.now }
        requires small { next.old < 2 ^ 28 }
        ensures code { OnOk result (self.new ≡ record self.old { body = self.old.body ++ (coded core.now exprs.now self.old.values next.old).code }) }
        ensures operands { IfOk result (λ operands. operands.items ≡ (coded core.now exprs.now self.old.values next.old).operands) }
        ensures after { OnOk result (next.new ≡ next.old + length (coded core.now exprs.now self.old.values next.old).code) }
    {
        few_are_reached();
        let cells = self.values.as_slice();
        lower_expr(alloc, core, exprs, cells, next, &mut self.body.items)
    }

    /// One more instruction.
    pub fn push(&mut self, instr: Instr) -> Result<(), NoMemory>
        ensures { OnOk result (self.new ≡ record self.old { body = self.old.body ++ instr ∷ [] }) }
    {
        self.body.items.push(instr)?;
        Ok(())
    }

    /// A cell is at an operand.
    pub fn set(&mut self, c: u32, operand: Operand)
        ensures { self.new ≡ record self.old { values = slice_set self.old.values c operand } }
    {
        self.values.set(c as usize, operand);
    }

    /// The cells are at these operands.
    pub fn store(&mut self, cells: &[u32], operands: &[Operand])
        ensures { self.new ≡ record self.old { values = placed cells.now operands.now self.old.values } }
    {
        place(&mut self.values, cells, operands);
    }

    /// The open block ends.
    pub fn close(self, last: Last) -> (Draft, Operands)
        ensures draft { result.0 ≡ closed self last }
        ensures values { result.1 ≡ self.values }
    {
        let draft = Draft {
            phis: self.phis,
            late: self.late,
            body: self.body,
            last,
        };
        (draft, self.values)
    }
}

/// The end of a block or loop that is open, or the start of a loop that is: its label, its block where that is known, and
/// the ways that lead to it so far.
#[derive(Drop)]
pub struct Level {
    pub label: u32,
    pub block: u32,
    pub ways: Vec<Way>,
}

impl Model for Level {
    ghost use Rattle.block_graph.specs.Work.{Level as LevelValue};

    ghost Value = { LevelValue };

    ghost view = { λ l. record { label = l.label; block = l.block; ways = l.ways.items } };
}

impl Level {
    pub fn label(&self) -> u32
        ensures { result ≡ self.now.label }
    {
        self.label
    }

    /// One more way.
    pub fn add(&mut self, way: Way) -> Result<(), NoMemory>
        ensures { OnOk result (self.new ≡ record self.old { ways = self.old.ways ++ way ∷ [] }) }
    {
        self.ways.push(way)?;
        Ok(())
    }
}

/// The label of the k-th level, counted from the inside.
#[tactic(auto, using(crate::proofs::Levels::label_at_get, crate::proofs::Levels::label_at_past))]
pub fn label_at(levels: &[Level], k: u32) -> u32
    ensures { result ≡ label_at levels.now k }
{
    let place = k as usize;
    if place < levels.len() {
        levels[place].label()
    } else {
        0
    }
}

/// One more way to the k-th level, counted from the inside, if it is there.
#[tactic(auto, using(crate::proofs::Levels::add_way_set, crate::proofs::Levels::add_way_past))]
pub fn add_way(levels: &mut Vec<Level>, k: u32, way: Way) -> Result<(), NoMemory>
    ensures { OnOk result (levels.new.items ≡ add_way levels.old.items k way) }
{
    let place = k as usize;
    if place < levels.len() {
        let level = &mut levels[place];
        level.add(way)?;
    }
    Ok(())
}

/// One more level, the innermost.
pub fn push_level(levels: &mut Vec<Level>, level: Level) -> Result<(), NoMemory>
    ensures { OnOk result (levels.new.items ≡ level ∷ levels.old.items) }
{
    levels.insert(0, level)?;
    Ok(())
}
