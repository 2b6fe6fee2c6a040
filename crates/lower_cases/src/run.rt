//! The run of a core, by the structure of its statements.

use crate::values::{values, word_at};
use core_ir::{Core, CoreStmt, GateArg, LeafCall, Output};
use qq_base::{Event, Fate, NoMemory, Record, Step};
use std::alloc::Global;

/// What was seen of a run: its events and records in their order, and how far it came.
#[derive(Debug, Drop)]
pub struct Seen {
    pub steps: Vec<Step>,
    pub fate: Fate,
}

/// Where a statement's run went on.
#[derive(Clone, Copy, Debug)]
enum Flow {
    Next,
    Leave(u32),
    Again(u32),
    Stop(Fate),
}

/// A run.
#[derive(Drop)]
struct Runner<'a> {
    alloc: Global,
    core: &'a Core,
    /// A truth value is 0 or 1.
    cells: Vec<i64>,
    outcomes: &'a [bool],
    turns: u32,
    steps: Vec<Step>,
}

/// The run of a core with these outcomes and turns.
pub fn run_core(
    alloc: Global,
    core: &Core,
    outcomes: &[bool],
    turns: u32,
) -> Result<Seen, NoMemory> {
    let mut cells = Vec::new(alloc);
    for _ in &core.cells {
        cells.push(0)?;
    }
    let mut runner = Runner {
        alloc,
        core,
        cells,
        outcomes,
        turns,
        steps: Vec::new(alloc),
    };
    let flow = runner.run_body(&core.body, core.stmts.len())?;
    let fate = match flow {
        Flow::Stop(fate) => fate,
        _ => {
            runner.record_outputs()?;
            Fate::Ended
        }
    };
    Ok(Seen {
        steps: runner.steps,
        fate,
    })
}

impl<'a> Runner<'a> {
    /// Runs a body, whose statements have bodies of at most so many levels.
    #[cycle(running)]
    fn run_body(&mut self, body: &[u32], levels: usize) -> Result<Flow, NoMemory> {
        for k in body {
            let flow = self.run_numbered(*k, levels)?;
            if !matches!(flow, Flow::Next) {
                return Ok(flow);
            }
        }
        Ok(Flow::Next)
    }

    #[cycle(running)]
    fn run_numbered(&mut self, k: u32, levels: usize) -> Result<Flow, NoMemory> {
        let core = self.core;
        match core.stmts.get(k as usize) {
            Some(stmt) if levels > 0 => self.run_stmt(stmt, levels - 1),
            _ => Ok(Flow::Next),
        }
    }

    #[cycle(running)]
    fn run_stmt(&mut self, stmt: &CoreStmt, levels: usize) -> Result<Flow, NoMemory> {
        match stmt {
            CoreStmt::Assign(pairs) => self.assign(&pairs.items),
            CoreStmt::Gate(leaf) => self.apply_gate(leaf),
            CoreStmt::Reset(qubit) => self.show(Event::Reset { qubit: *qubit }),
            CoreStmt::Measure { qubit, into } => match self.take_outcome() {
                None => Ok(Flow::Stop(Fate::Asked)),
                Some(outcome) => {
                    if let Some(cell) = into {
                        self.store(*cell, if outcome { 1 } else { 0 });
                    }
                    self.show(Event::Measure {
                        qubit: *qubit,
                        outcome,
                    })
                }
            },
            CoreStmt::If(test, first, second) => {
                let words = values(self.alloc, self.core, &self.cells)?;
                if word_at(&words, *test) == 1 {
                    self.run_body(&first.items, levels)
                } else {
                    self.run_body(&second.items, levels)
                }
            }
            CoreStmt::Block(body) => {
                let flow = self.run_body(&body.items, levels)?;
                Ok(behind_end(flow))
            }
            CoreStmt::Loop(body) => self.run_loop(&body.items, levels),
            CoreStmt::Leave(level) => Ok(Flow::Leave(*level)),
            CoreStmt::Again(level) => Ok(Flow::Again(*level)),
        }
    }

    /// Runs a loop: its body, again for each turn that is spent on the way back to its start.
    #[cycle(running)]
    fn run_loop(&mut self, body: &[u32], levels: usize) -> Result<Flow, NoMemory> {
        for _ in 0..=self.turns {
            let flow = self.run_body(body, levels)?;
            match flow {
                Flow::Again(0) => {
                    if self.turns == 0 {
                        return Ok(Flow::Stop(Fate::Turning));
                    }
                    self.turns -= 1;
                }
                Flow::Again(level) => return Ok(Flow::Again(level - 1)),
                _ => return Ok(behind_end(flow)),
            }
        }
        Ok(Flow::Stop(Fate::Turning))
    }

    fn take_outcome(&mut self) -> Option<bool> {
        match self.outcomes {
            [] => None,
            [outcome, rest @ ..] => {
                self.outcomes = rest;
                Some(*outcome)
            }
        }
    }

    fn show(&mut self, event: Event) -> Result<Flow, NoMemory> {
        self.steps.push(Step::Event(event))?;
        Ok(Flow::Next)
    }

    fn store(&mut self, cell: u32, word: i64) {
        if let Some(place) = self.cells.get_mut(cell as usize) {
            *place = word;
        }
    }

    /// All values are those of the cells before.
    fn assign(&mut self, pairs: &[(u32, u32)]) -> Result<Flow, NoMemory> {
        let words = values(self.alloc, self.core, &self.cells)?;
        for (cell, expr) in pairs {
            self.store(*cell, word_at(&words, *expr));
        }
        Ok(Flow::Next)
    }

    fn apply_gate(&mut self, leaf: &LeafCall) -> Result<Flow, NoMemory> {
        let words = values(self.alloc, self.core, &self.cells)?;
        let [first, second, third, fourth] = leaf.args;
        self.show(Event::Gate {
            gate: leaf.gate,
            args: [
                units(&words, first),
                units(&words, second),
                units(&words, third),
                units(&words, fourth),
            ],
            qubits: leaf.qubits,
        })
    }

    fn record_outputs(&mut self) -> Result<(), NoMemory> {
        let core = self.core;
        for output in &core.outputs {
            let record = match *output {
                Output::Array { label, size } => Record::Array { label, size },
                Output::Truth { label, cell } => Record::Bool {
                    label,
                    value: word_at(&self.cells, cell) == 1,
                },
                Output::Number { label, cell } => Record::Int {
                    label,
                    value: word_at(&self.cells, cell),
                },
            };
            self.steps.push(Step::Record(record))?;
        }
        Ok(())
    }
}

/// Where a run goes on that comes out of a block, or out of a loop and not back to its start.
fn behind_end(flow: Flow) -> Flow {
    match flow {
        Flow::Leave(0) => Flow::Next,
        Flow::Leave(level) => Flow::Leave(level - 1),
        other => other,
    }
}

fn units(words: &[i64], arg: GateArg) -> i64 {
    match arg {
        GateArg::Unused => 0,
        GateArg::Units(units) => units,
        GateArg::Running(expr) => word_at(words, expr),
    }
}
