//! Small cores that are drawn. Each is well formed by how it is made; that its end is reached is asked behind it.

ghost use Rattle.std.specs.Prelude.{◌≤◌};

use anyhow::Result;
use core_ir::{Body, CellKind, Core, CoreExpr, CoreOp, CoreStmt, GateArg, LeafCall, Output, Pairs};
use qq_base::{GateId, Label, QubitId};
use std::alloc::Global;

/// Numbers that follow one another by Knuth's congruential rule for 64 bits.
#[derive(Clone, Copy, Debug)]
pub struct Source {
    state: u64,
}

impl Source {
    pub fn new(seed: u32) -> Source {
        Source {
            state: u64::from(seed),
        }
    }

    /// A number below a bound, or 0 where that is 0.
    pub fn below(&mut self, bound: u32) -> u32
        ensures { result ≤ bound }
    {
        self.state = self
            .state
            .wrapping_mul(6_364_136_223_846_793_005)
            .wrapping_add(1_442_695_040_888_963_407);
        if bound == 0 {
            return 0;
        }
        let high = u32::try_from(self.state >> 33).unwrap_or(0);
        high % bound
    }

    /// One of some numbers, or 0 where there is none.
    fn one_of(&mut self, numbers: &[u32]) -> u32 {
        let count = u32::try_from(numbers.len()).unwrap_or(0);
        let place = self.below(count) as usize;
        numbers.get(place).copied().unwrap_or(0)
    }
}

/// A core that is being drawn, with its expressions by their kinds.
#[derive(Drop)]
struct Draft {
    alloc: Global,
    source: Source,
    core: Core,
    truths: Vec<u32>,
    numbers: Vec<u32>,
    /// Constants from 1 to 63, which can divide and be amounts of shifts.
    small: Vec<u32>,
}

/// Draws the next core.
pub fn draw(alloc: Global, source: Source) -> Result<(Core, Source)> {
    let core = Core {
        cells: Vec::new(alloc),
        exprs: Vec::new(alloc),
        stmts: Vec::new(alloc),
        body: Vec::new(alloc),
        outputs: Vec::new(alloc),
        labels: vec![in alloc; label(alloc, b"a\0")?, label(alloc, b"b\0")?]?,
        qubits: 3,
    };
    let mut draft = Draft {
        alloc,
        source,
        core,
        truths: Vec::new(alloc),
        numbers: Vec::new(alloc),
        small: Vec::new(alloc),
    };
    draft.draw_cells()?;
    draft.draw_exprs()?;
    let levels = 1 + draft.source.below(4);
    draft.core.body = draft.draw_body(levels, 0, 0)?;
    draft.draw_outputs()?;
    Ok((draft.core, draft.source))
}

fn label(alloc: Global, bytes: &[u8]) -> Result<Label> {
    Ok(Label {
        items: Vec::from_slice(alloc, bytes)?,
    })
}

impl Draft {
    /// One to four cells, the first for a truth value.
    fn draw_cells(&mut self) -> Result<()> {
        self.core.cells.push(CellKind::Truth)?;
        for _ in 0..self.source.below(4) {
            let kind = if self.source.below(2) == 0 {
                CellKind::Truth
            } else {
                CellKind::Number
            };
            self.core.cells.push(kind)?;
        }
        Ok(())
    }

    fn add(&mut self, kind: CellKind, expr: CoreExpr) -> Result<u32> {
        let place = u32::try_from(self.core.exprs.len()).unwrap_or(0);
        self.core.exprs.push(expr)?;
        match kind {
            CellKind::Truth => self.truths.push(place)?,
            CellKind::Number => self.numbers.push(place)?,
        }
        Ok(place)
    }

    /// Each cell, some constants, and up to seven expressions over those that stand.
    fn draw_exprs(&mut self) -> Result<()> {
        for place in 0..self.core.cells.len() {
            if let Some(kind) = self.core.cells.get(place).copied() {
                let cell = u32::try_from(place).unwrap_or(0);
                self.add(kind, CoreExpr::Cell(cell))?;
            }
        }
        self.add(CellKind::Truth, CoreExpr::Truth(true))?;
        self.add(CellKind::Truth, CoreExpr::Truth(false))?;
        self.add(CellKind::Number, CoreExpr::Number(0))?;
        self.add(CellKind::Number, CoreExpr::Number(-3))?;
        for value in [1, 2, 63] {
            let place = self.add(CellKind::Number, CoreExpr::Number(value))?;
            self.small.push(place)?;
        }
        for _ in 0..self.source.below(8) {
            self.draw_expr()?;
        }
        Ok(())
    }

    fn draw_expr(&mut self) -> Result<()> {
        let truth = self.source.one_of(&self.truths);
        let other_truth = self.source.one_of(&self.truths);
        let left = self.source.one_of(&self.numbers);
        let right = self.source.one_of(&self.numbers);
        let small = self.source.one_of(&self.small);
        let number = CellKind::Number;
        match self.source.below(9) {
            0 => self.add(number, CoreExpr::Widen(truth))?,
            1 => self.add(CellKind::Truth, CoreExpr::Narrow(left))?,
            2 => self.add(number, CoreExpr::Choose(truth, left, right))?,
            3 => {
                let last = self.source.one_of(&self.truths);
                let expr = CoreExpr::Choose(last, truth, other_truth);
                self.add(CellKind::Truth, expr)?
            }
            4 => {
                let op = self.bitwise();
                self.add(CellKind::Truth, CoreExpr::Op(op, truth, other_truth))?
            }
            5 => {
                let op = self.comparison();
                self.add(CellKind::Truth, CoreExpr::Op(op, left, right))?
            }
            6 => {
                let op = self.with_small();
                self.add(number, CoreExpr::Op(op, left, small))?
            }
            7 => {
                let op = self.bitwise();
                self.add(number, CoreExpr::Op(op, left, right))?
            }
            _ => {
                let op = self.arithmetic();
                self.add(number, CoreExpr::Op(op, left, right))?
            }
        };
        Ok(())
    }

    fn bitwise(&mut self) -> CoreOp {
        match self.source.below(3) {
            0 => CoreOp::And,
            1 => CoreOp::Or,
            _ => CoreOp::Xor,
        }
    }

    fn arithmetic(&mut self) -> CoreOp {
        match self.source.below(3) {
            0 => CoreOp::Mul,
            1 => CoreOp::Sub,
            _ => CoreOp::Add,
        }
    }

    fn comparison(&mut self) -> CoreOp {
        match self.source.below(10) {
            0 => CoreOp::Eq,
            1 => CoreOp::Ne,
            2 => CoreOp::Slt,
            3 => CoreOp::Sle,
            4 => CoreOp::Sgt,
            5 => CoreOp::Sge,
            6 => CoreOp::Ult,
            7 => CoreOp::Ule,
            8 => CoreOp::Ugt,
            _ => CoreOp::Uge,
        }
    }

    /// An instruction whose right side is a constant.
    fn with_small(&mut self) -> CoreOp {
        match self.source.below(7) {
            0 => CoreOp::Sdiv,
            1 => CoreOp::Srem,
            2 => CoreOp::Udiv,
            3 => CoreOp::Urem,
            4 => CoreOp::Shl,
            5 => CoreOp::Lshr,
            _ => CoreOp::Ashr,
        }
    }

    /// Up to three statements within so many blocks and loops, of which so many are loops.
    #[cycle(drawing)]
    fn draw_body(&mut self, levels: u32, ends: u32, starts: u32) -> Result<Vec<u32>> {
        let mut body = Vec::new(self.alloc);
        for _ in 0..=self.source.below(3) {
            let place = self.core.stmts.len();
            self.core.stmts.push(CoreStmt::Reset(QubitId(0)))?;
            let stmt = self.draw_stmt(levels, ends, starts)?;
            if let Some(old) = self.core.stmts.get_mut(place) {
                *old = stmt;
            }
            body.push(u32::try_from(place).unwrap_or(0))?;
        }
        Ok(body)
    }

    #[cycle(drawing)]
    fn draw_stmt(&mut self, levels: u32, ends: u32, starts: u32) -> Result<CoreStmt> {
        if levels > 0 && self.source.below(3) > 0 {
            return self.draw_nested(levels - 1, ends, starts);
        }
        match self.source.below(8) {
            0 if ends > 0 => Ok(CoreStmt::Leave(self.source.below(ends))),
            1 if starts > 0 => Ok(CoreStmt::Again(self.source.below(starts))),
            0 | 2 => Ok(CoreStmt::Gate(self.draw_gate())),
            3 => Ok(CoreStmt::Measure {
                qubit: QubitId(self.source.below(3)),
                into: self.draw_into(),
            }),
            4 => Ok(CoreStmt::Reset(QubitId(self.source.below(3)))),
            _ => self.draw_pairs(),
        }
    }

    #[cycle(drawing)]
    fn draw_nested(&mut self, levels: u32, ends: u32, starts: u32) -> Result<CoreStmt> {
        let deeper = ends.saturating_add(1);
        match self.source.below(4) {
            0 => Ok(CoreStmt::Block(Body {
                items: self.draw_body(levels, deeper, starts)?,
            })),
            1 => Ok(CoreStmt::Loop(Body {
                items: self.draw_body(levels, deeper, starts.saturating_add(1))?,
            })),
            _ => {
                let test = self.source.one_of(&self.truths);
                let first = self.draw_body(levels, ends, starts)?;
                let second = if self.source.below(3) == 0 {
                    Vec::new(self.alloc)
                } else {
                    self.draw_body(levels, ends, starts)?
                };
                Ok(CoreStmt::If(test, Body { items: first }, Body { items: second }))
            }
        }
    }

    /// No cell, or one for a truth value.
    fn draw_into(&mut self) -> Option<u32> {
        if self.source.below(4) == 0 {
            return None;
        }
        let count = u32::try_from(self.core.cells.len()).unwrap_or(0);
        let cell = self.source.below(count);
        match self.core.cells.get(cell as usize) {
            Some(CellKind::Truth) => Some(cell),
            _ => Some(0),
        }
    }

    fn draw_gate(&mut self) -> LeafCall {
        let first = self.source.below(3);
        let second = (first + 1 + self.source.below(2)) % 3;
        let mut args = [GateArg::Unused; 4];
        let mut qubits = [QubitId(first), QubitId(0), QubitId(0)];
        let gate = match self.source.below(4) {
            0 => 0,
            1 => {
                args[0] = GateArg::Running(self.source.one_of(&self.numbers));
                14
            }
            2 => {
                args[0] = GateArg::Running(self.source.one_of(&self.numbers));
                args[1] = GateArg::Units(-5);
                args[2] = GateArg::Running(self.source.one_of(&self.numbers));
                27
            }
            _ => {
                qubits[1] = QubitId(second);
                15
            }
        };
        LeafCall {
            gate: GateId(gate),
            args,
            qubits,
        }
    }

    /// Up to three pairs, which may name a cell twice.
    fn draw_pairs(&mut self) -> Result<CoreStmt> {
        let mut items = Vec::new(self.alloc);
        for _ in 0..=self.source.below(3) {
            let count = u32::try_from(self.core.cells.len()).unwrap_or(0);
            let cell = self.source.below(count);
            let expr = match self.core.cells.get(cell as usize) {
                Some(CellKind::Number) => self.source.one_of(&self.numbers),
                _ => self.source.one_of(&self.truths),
            };
            items.push((cell, expr))?;
        }
        Ok(CoreStmt::Assign(Pairs { items }))
    }

    /// An array, and each cell.
    fn draw_outputs(&mut self) -> Result<()> {
        let size = u32::try_from(self.core.cells.len()).unwrap_or(0);
        self.core.outputs.push(Output::Array { label: 0, size })?;
        for place in 0..self.core.cells.len() {
            let cell = u32::try_from(place).unwrap_or(0);
            let output = match self.core.cells.get(place) {
                Some(CellKind::Number) => Output::Number { label: 1, cell },
                _ => Output::Truth { label: 1, cell },
            };
            self.core.outputs.push(output)?;
        }
        Ok(())
    }
}
