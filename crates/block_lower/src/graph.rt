//! The graph while it is made, and the steps that make it.

ghost use Rattle.std.specs.Prelude.{◌≡◌, ◌<◌, ◌≤◌, ◌^◌, ◌+◌, ◌++◌, ◌∷◌, ℕ, length, map, [], All, IfOk, OnOk, slice_set};
ghost use Rattle.std.specs.List.Sorted.{IsStrictlyIncreasing};
ghost use Rattle.qir_module.specs.Module.{IsShaped};
ghost use Rattle.core_ir.specs.Tree.{body_of};
ghost use Rattle.core_ir.specs.WellFormed.{Fits, PairFits, LeafFits};
ghost use Rattle.phi_place.specs.Phis.{is_listed};
ghost use Rattle.expr_lower.specs.Coded.{coded};
ghost use Rattle.block_graph.specs.Lowering.{when_open, assign_work, gate_work, reset_work, measure_work, leave_work, again_work, open_end, close_end, start_needs, open_loop, close_start, open_first, fall_work, fall_ways, open_second, join_bodies, first_operand, branch_last, first_work, end_work, record_call, module_of};
ghost use Rattle.block_lower.specs.Parts.{IsSmall, AreLater, joined, looped};

use crate::calls::{
    gate_call, initialize_call, leaf_exprs, measure_call, pair_cells, pair_exprs, read_call,
    record_call, reset_call,
};
use crate::exits::start_cells;
use crate::joins::{enter_loop, join_ways, start_ways};
use crate::kept::{Kept, Way};
use crate::settle::{declarations, settle_all};
use crate::work::{Draft, Level, Open, add_way, label_at, push_level};
use core_ir::{CellKind, Core, LeafCall};
use phi_place::Operands;
use qir_module::{Last, Module, Operand, Phi, Profile, Sequence};
use qq_base::{Label, NoMemory, QubitId};
use std::alloc::Global;
use std::marker::Model;

/// The blocks so far, the open block, and what is still to be settled.
#[derive(Drop)]
pub struct Work {
    alloc: Global,
    done: Vec<Draft>,
    now: Option<Open>,
    next: u32,
    results: u32,
    targets: Vec<u32>,
    lates: Vec<Sequence<Phi>>,
    ends: Vec<Level>,
    starts: Vec<Level>,
}

impl Model for Work {
    ghost use Rattle.block_graph.specs.Work.{Work as WorkValue};

    ghost Value = { WorkValue };

    ghost view = { λ w. record {
      done = w.done.items;
      now = w.now;
      next = w.next;
      results = w.results;
      targets = w.targets.items;
      lates = w.lates.items;
      ends = w.ends.items;
      starts = w.starts.items;
    } };
}

/// What the end of a loop needs of its start: where its phis go, the cells that have one, and their first register.
#[derive(Drop)]
pub struct LoopStart {
    late: usize,
    cells: Vec<u32>,
    next: u32,
}

/// What the second body of a choice needs: its label and that of the join, and where the cells were.
#[derive(Drop)]
pub struct Choice {
    second: u32,
    pub join: u32,
    values: Kept,
}

impl Work {
    /// A block that initializes the run-time system, with all cells 0 or false.
    pub fn new(alloc: Global, core: &Core) -> Result<Work, NoMemory>
        requires { Fits core.now }
        ensures { IfOk result (λ w. w ≡ first_work (length core.now.cells)) }
    {
        let values = Operands::zeros(alloc, core.cells.len())?;
        let mut open = Open::new(alloc, Vec::new(alloc), values);
        open.push(initialize_call(alloc)?)?;
        Ok(Work {
            alloc,
            done: Vec::new(alloc),
            now: Some(open),
            next: 0,
            results: 0,
            targets: Vec::new(alloc),
            lates: Vec::new(alloc),
            ends: Vec::new(alloc),
            starts: Vec::new(alloc),
        })
    }

    #[tactic(auto, using(crate::proofs::Ranges::pairs_within, crate::proofs::Storing::stored_is))]
    #[inline(never)]
    pub fn assign(&mut self, core: &Core, pairs: &[(u32, u32)]) -> Result<(), NoMemory>
        requires fits { Fits core.now }
        requires pairs { All (PairFits core.now) pairs.now }
        requires small { IsSmall self.old }
        ensures { OnOk result (self.new ≡ when_open self.old.now self.old (assign_work (coded core.now) pairs.now self.old)) }
    {
        match self.now.take() {
            None => Ok(()),
            Some(mut open) => {
                let exprs = pair_exprs(self.alloc, pairs)?;
                let operands = open.compute(self.alloc, core, &exprs, &mut self.next)?;
                let cells = pair_cells(self.alloc, pairs)?;
                open.store(&cells, &operands);
                self.now = Some(open);
                Ok(())
            }
        }
    }

    #[tactic(auto, using(crate::proofs::Ranges::leaf_within))]
    #[inline(never)]
    pub fn gate(&mut self, core: &Core, leaf: &LeafCall) -> Result<(), NoMemory>
        requires fits { Fits core.now }
        requires leaf { LeafFits core.now leaf.now }
        requires small { IsSmall self.old }
        ensures { OnOk result (self.new ≡ when_open self.old.now self.old (gate_work (coded core.now) leaf.now self.old)) }
    {
        match self.now.take() {
            None => Ok(()),
            Some(mut open) => {
                let exprs = leaf_exprs(self.alloc, leaf)?;
                let operands = open.compute(self.alloc, core, &exprs, &mut self.next)?;
                open.push(gate_call(self.alloc, leaf, &operands)?)?;
                self.now = Some(open);
                Ok(())
            }
        }
    }

    #[inline(never)]
    pub fn reset(&mut self, qubit: QubitId) -> Result<(), NoMemory>
        ensures { OnOk result (self.new ≡ when_open self.old.now self.old (reset_work qubit self.old)) }
    {
        match self.now.take() {
            None => Ok(()),
            Some(mut open) => {
                open.push(reset_call(self.alloc, qubit)?)?;
                self.now = Some(open);
                Ok(())
            }
        }
    }

    #[inline(never)]
    pub fn measure(&mut self, qubit: QubitId, into: Option<u32>) -> Result<(), NoMemory>
        requires { IsSmall self.old }
        ensures { OnOk result (self.new ≡ when_open self.old.now self.old (measure_work qubit into self.old)) }
    {
        match self.now.take() {
            None => Ok(()),
            Some(mut open) => {
                let id = self.results;
                open.push(measure_call(self.alloc, qubit, id)?)?;
                if let Some(c) = into {
                    open.push(read_call(self.alloc, self.next, id)?)?;
                    open.set(c, Operand::Register(self.next));
                    self.next += 1;
                }
                self.results += 1;
                self.now = Some(open);
                Ok(())
            }
        }
    }

    /// A way to the end of the k-th enclosing block or loop.
    #[inline(never)]
    pub fn leave(&mut self, k: u32) -> Result<(), NoMemory>
        requires { IsSmall self.old }
        ensures { OnOk result (self.new ≡ when_open self.old.now self.old (leave_work k self.old)) }
    {
        match self.now.take() {
            None => Ok(()),
            Some(open) => {
                let block = self.done.len() as u32;
                let (draft, values) = open.close(Last::Jump(label_at(&self.ends, k)));
                let way = Way::of(self.alloc, block, &values)?;
                add_way(&mut self.ends, k, way)?;
                self.done.push(draft)?;
                Ok(())
            }
        }
    }

    /// A way back to the start of the k-th enclosing loop.
    #[inline(never)]
    pub fn again(&mut self, k: u32) -> Result<(), NoMemory>
        requires { IsSmall self.old }
        ensures { OnOk result (self.new ≡ when_open self.old.now self.old (again_work k self.old)) }
    {
        match self.now.take() {
            None => Ok(()),
            Some(open) => {
                let block = self.done.len() as u32;
                let (draft, values) = open.close(Last::Jump(label_at(&self.starts, k)));
                let way = Way::of(self.alloc, block, &values)?;
                add_way(&mut self.starts, k, way)?;
                self.done.push(draft)?;
                Ok(())
            }
        }
    }

    pub fn alloc(&self) -> Global {
        self.alloc
    }

    /// The open block, which is taken out.
    pub fn take_open(&mut self) -> Option<Open>
        ensures value { result ≡ self.old.now }
        ensures work { self.new ≡ record self.old { now = None } }
    {
        self.now.take()
    }

    /// The open block is put back.
    pub fn put_open(&mut self, here: Open)
        ensures { self.new ≡ record self.old { now = Some here } }
    {
        self.now = Some(here);
    }

    /// The join of these ways, under a label.
    fn join(&mut self, kinds: &[CellKind], label: u32, ways: &[Way]) -> Result<(), NoMemory>
        requires some { 0 < length ways.now }
        requires kinds { length kinds.now ≤ 2 ^ 31 }
        requires small { IsSmall self.old }
        ensures { OnOk result (self.new ≡ joined kinds.now label ways.now self.old) }
    {
        let block = self.done.len() as u32;
        let (phis, values) = join_ways(self.alloc, ways, kinds, &mut self.next)?;
        settle(&mut self.targets, label, block);
        self.now = Some(Open::new(self.alloc, phis, values));
        Ok(())
    }

    /// A block or loop whose end is open.
    #[inline(never)]
    pub fn open_end(&mut self) -> Result<(), NoMemory>
        requires { IsSmall self.old }
        ensures { OnOk result (self.new ≡ open_end self.old) }
    {
        let label = self.targets.len() as u32;
        self.targets.push(0)?;
        let ways = Vec::new(self.alloc);
        push_level(
            &mut self.ends,
            Level {
                label,
                block: 0,
                ways,
            },
        )
    }

    /// The innermost end: the block in which the ways to it join.
    #[tactic(auto, using(crate::proofs::Placing::joined_is))]
    #[inline(never)]
    pub fn close_end(&mut self, kinds: &[CellKind]) -> Result<(), NoMemory>
        requires kinds { length kinds.now ≤ 2 ^ 31 }
        requires small { IsSmall self.old }
        ensures { OnOk result (self.new ≡ close_end kinds.now self.old.ends self.old) }
    {
        if self.ends.is_empty() {
            return Ok(());
        }
        let level = self.ends.remove(0);
        if level.ways.is_empty() {
            return Ok(());
        }
        self.join(kinds, level.label, &level.ways)
    }

    /// The start of a loop with this body, behind the block that was open.
    #[tactic(auto, using(crate::proofs::Placing::looped_is))]
    #[inline(never)]
    pub fn open_loop(
        &mut self,
        core: &Core,
        body: &[u32],
        least: usize,
        here: Open,
    ) -> Result<LoopStart, NoMemory>
        requires fits { Fits core.now }
        requires within { All (AreLater least (length core.now.stmts)) body.now }
        requires small { IsSmall self.old }
        ensures work { IfOk result (λ start. self.new ≡ open_loop core.now.cells (is_listed start.cells.items) self.old here) }
        ensures late { IfOk result (λ start. start.late ≡ length self.old.lates) }
        ensures next { IfOk result (λ start. start.next ≡ self.old.next) }
        ensures ascends { IfOk result (λ start. IsStrictlyIncreasing start.cells.items) }
        ensures cells { IfOk result (λ start. (c : ℕ) → is_listed start.cells.items c ≡ start_needs core.now.exprs (body_of core.now.stmts body.now) here.values c) }
    {
        let next = self.next;
        let late = self.lates.len();
        let cells = start_cells(self.alloc, core, body, least, here.values())?;
        self.begin_loop(&core.cells, &cells, here)?;
        Ok(LoopStart { late, cells, next })
    }

    /// The start of a loop with phis of these cells.
    fn begin_loop(&mut self, kinds: &[CellKind], cells: &[u32], here: Open) -> Result<(), NoMemory>
        requires kinds { length kinds.now ≤ 2 ^ 31 }
        requires ascends { IsStrictlyIncreasing cells.now }
        requires small { IsSmall self.old }
        ensures { OnOk result (self.new ≡ looped kinds.now (is_listed cells.now) self.old here) }
    {
        let late = self.lates.len();
        let block = self.done.len() as u32;
        let label = self.targets.len() as u32;
        let (draft, values) = here.close(Last::Jump(label));
        let entry = Way::of(self.alloc, block, &values)?;
        let (phis, values) = enter_loop(self.alloc, &entry, cells, kinds, &mut self.next)?;
        self.push_start(draft, Sequence { items: phis })?;
        self.push_loop(label, entry)?;
        self.now = Some(Open::late(self.alloc, late, values));
        Ok(())
    }

    /// The block in front of a loop, the labels of the loop's start, which begins behind it, and of its end, and the phis
    /// of the start.
    fn push_start(&mut self, draft: Draft, phis: Sequence<Phi>) -> Result<(), NoMemory>
        requires { length self.old.done < 2 ^ 28 }
        ensures { OnOk result (self.new ≡ record self.old {
          done = self.old.done ++ draft ∷ [];
          targets = self.old.targets ++ (length self.old.done + 1) ∷ 0 ∷ [];
          lates = self.old.lates ++ phis ∷ [];
        }) }
    {
        let block = self.done.len() as u32;
        self.done.push(draft)?;
        self.targets.push(block + 1)?;
        self.targets.push(0)?;
        self.lates.push(phis)?;
        Ok(())
    }

    /// The levels of a loop: its end, and its start with the way from in front.
    fn push_loop(&mut self, label: u32, entry: Way) -> Result<(), NoMemory>
        requires { (label < 2 ^ 28) × (entry.block < 2 ^ 28) }
        ensures { OnOk result (self.new ≡ record self.old {
          ends = record { label = label + 1; block = 0; ways = [] } ∷ self.old.ends;
          starts = record { label = label; block = entry.block + 1; ways = entry ∷ [] } ∷ self.old.starts;
        }) }
    {
        let end = Level {
            label: label + 1,
            block: 0,
            ways: Vec::new(self.alloc),
        };
        push_level(&mut self.ends, end)?;
        let block = entry.block + 1;
        let ways = vec![in self.alloc; entry]?;
        let start = Level { label, block, ways };
        push_level(&mut self.starts, start)
    }

    /// The phis of the innermost start, with all ways to it.
    #[inline(never)]
    pub fn close_start(&mut self, kinds: &[CellKind], start: LoopStart) -> Result<(), NoMemory>
        requires kinds { length kinds.now ≤ 2 ^ 31 }
        requires ascends { IsStrictlyIncreasing start.cells.items }
        requires small { start.next < 2 ^ 28 }
        ensures { OnOk result (self.new ≡ close_start kinds.now (is_listed start.cells.items) start.late start.next self.old.starts self.old) }
    {
        if self.starts.is_empty() {
            return Ok(());
        }
        let level = self.starts.remove(0);
        let phis = start_ways(self.alloc, &level.ways, &start.cells, kinds, start.next)?;
        settle_phis(&mut self.lates, start.late, Sequence { items: phis });
        Ok(())
    }
}

impl Work {
    /// The block that chooses, and the first body of the choice.
    #[inline(never)]
    pub fn open_first(
        &mut self,
        core: &Core,
        holds: bool,
        test: u32,
        here: Open,
    ) -> Result<Choice, NoMemory>
        requires fits { Fits core.now }
        requires within { test < length core.now.exprs }
        requires small { IsSmall self.old }
        ensures work { OnOk result (self.new ≡ open_first (coded core.now) holds test self.old here) }
        ensures second { IfOk result (λ r. r.second ≡ length self.old.targets + 1) }
        ensures join { IfOk result (λ r. r.join ≡ length self.old.targets + 2) }
        ensures values { IfOk result (λ r. r.values ≡ here.values) }
    {
        let mut open = here;
        let label = self.targets.len() as u32;
        let values = Kept::of(self.alloc, open.values())?;
        let operands = open.compute(self.alloc, core, &[test], &mut self.next)?;
        let last = branch_last(holds, first_operand(&operands), label);
        let (draft, other) = open.close(last);
        self.done.push(draft)?;
        self.push_targets()?;
        self.now = Some(Open::new(self.alloc, Vec::new(self.alloc), other));
        Ok(Choice {
            second: label + 1,
            join: label + 2,
            values,
        })
    }

    /// The labels of a choice: of its first body, which begins here, of its second body and of its join.
    fn push_targets(&mut self) -> Result<(), NoMemory>
        requires { length self.old.done < 2 ^ 32 }
        ensures { OnOk result (self.new ≡ record self.old { targets = self.old.targets ++ length self.old.done ∷ 0 ∷ 0 ∷ [] }) }
    {
        let block = self.done.len() as u32;
        self.targets.push(block)?;
        self.targets.push(0)?;
        self.targets.push(0)?;
        Ok(())
    }

    /// The end of a body of a choice: its way to the join.
    fn fall(&mut self, label: u32, ways: &mut Vec<Way>) -> Result<(), NoMemory>
        requires { IsSmall self.old }
        ensures work { OnOk result (self.new ≡ fall_work label self.old) }
        ensures ways { OnOk result (ways.new.items ≡ ways.old.items ++ fall_ways self.old self.old.now) }
    {
        match self.now.take() {
            None => Ok(()),
            Some(open) => {
                let block = self.done.len() as u32;
                let (draft, values) = open.close(Last::Jump(label));
                self.done.push(draft)?;
                ways.push(Way::of(self.alloc, block, &values)?)?;
                Ok(())
            }
        }
    }

    fn open_second(&mut self, label: u32, values: Operands)
        requires { IsSmall self.old }
        ensures { self.new ≡ open_second label values self.old }
    {
        settle(&mut self.targets, label, self.done.len() as u32);
        self.now = Some(Open::new(self.alloc, Vec::new(self.alloc), values));
    }

    /// From the first body of a choice to the second: the way where the first ends, if it does.
    #[inline(never)]
    pub fn turn(&mut self, choice: Choice) -> Result<Vec<Way>, NoMemory>
        requires small { IsSmall self.old }
        requires behind { IsSmall (fall_work choice.join self.old) }
        ensures work { OnOk result (self.new ≡ open_second choice.second choice.values (fall_work choice.join self.old)) }
        ensures ways { IfOk result (λ r. r.items ≡ fall_ways self.old self.old.now) }
    {
        let mut ways = Vec::new(self.alloc);
        self.fall(choice.join, &mut ways)?;
        let values = choice.values.row(self.alloc)?;
        self.open_second(choice.second, values);
        Ok(ways)
    }

    /// Behind the second body of a choice.
    #[tactic(auto, using(crate::proofs::Placing::joined_is, crate::proofs::Rising::bodies_small, crate::proofs::Rising::joining_small))]
    #[inline(never)]
    pub fn join_bodies(
        &mut self,
        kinds: &[CellKind],
        label: u32,
        ways: Vec<Way>,
    ) -> Result<(), NoMemory>
        requires kinds { length kinds.now ≤ 2 ^ 31 }
        requires small { IsSmall (join_bodies kinds.now label ways.items self.old) }
        ensures { OnOk result (self.new ≡ join_bodies kinds.now label ways.items self.old) }
    {
        if ways.is_empty() {
            return Ok(());
        }
        let mut ways = ways;
        self.fall(label, &mut ways)?;
        self.join(kinds, label, &ways)?;
        Ok(())
    }

    /// The program ends here, where a way leads here: its outputs are recorded.
    pub fn end(&mut self, core: &Core) -> Result<(), NoMemory>
        ensures { OnOk result (self.new ≡ when_open self.old.now self.old (end_work core.now.outputs self.old)) }
    {
        match self.now.take() {
            None => Ok(()),
            Some(mut open) => {
                record_outputs(self.alloc, core, &mut open)?;
                let (draft, _) = open.close(Last::Return(0));
                self.done.push(draft)?;
                Ok(())
            }
        }
    }
}

impl Work {
    /// The module, with labels and phis settled.
    pub fn into_module(self, core: &Core) -> Result<Module, NoMemory>
        requires blocks { length self.done < 2 ^ 32 }
        requires shaped { IsShaped (module_of core.now self) }
        ensures { IfOk result (λ m. m ≡ module_of core.now self) }
    {
        let alloc = self.alloc;
        let labels = copy_labels(alloc, &core.labels)?;
        let blocks = settle_all(alloc, self.done, &self.targets, &self.lates)?;
        let declarations = declarations(alloc, &blocks)?;
        Ok(Module {
            labels: Sequence { items: labels },
            blocks: Sequence { items: blocks },
            declarations: Sequence {
                items: declarations,
            },
            profile: Profile::Adaptive,
            qubits: core.qubits,
            results: self.results,
            major: 2,
            minor: 0,
            dynamic_qubits: false,
            dynamic_results: false,
        })
    }
}

fn copy_labels(alloc: Global, labels: &[Label]) -> Result<Vec<Label>, NoMemory>
    ensures { IfOk result (λ copies. copies.items ≡ labels.now) }
{
    let mut copies = Vec::new(alloc);
    for label in labels {
        let items = Vec::from_slice(alloc, &label.items)?;
        copies.push(Label { items })?;
    }
    Ok(copies)
}

fn record_outputs(alloc: Global, core: &Core, here: &mut Open) -> Result<(), NoMemory>
    ensures { OnOk result (here.new ≡ record here.old { body = here.old.body ++ map (record_call here.old.values) core.now.outputs }) }
{
    for output in &core.outputs {
        let instr = record_call(alloc, here.values(), *output)?;
        here.push(instr)?;
    }
    Ok(())
}

/// The last instruction of the block that chooses: the first body is the one where the test holds, or the other.
fn branch_last(holds: bool, test: Operand, label: u32) -> Last
    requires { label < 2 ^ 28 }
    ensures { result ≡ branch_last holds test label }
{
    if holds {
        Last::Branch(test, label, label + 1)
    } else {
        Last::Branch(test, label + 1, label)
    }
}

fn first_operand(operands: &[Operand]) -> Operand
    ensures { result ≡ first_operand operands.now }
{
    match operands {
        [operand, ..] => *operand,
        [] => Operand::Fixed(0),
    }
}

/// The block of a label is known.
fn settle(targets: &mut Vec<u32>, label: u32, block: u32)
    ensures { targets.new.items ≡ slice_set targets.old.items label block }
{
    let place = label as usize;
    if place < targets.len() {
        targets[place] = block;
    }
}

/// The phis of a loop's start are known.
fn settle_phis(lates: &mut Vec<Sequence<Phi>>, place: usize, phis: Sequence<Phi>)
    ensures { lates.new.items ≡ slice_set lates.old.items place phis }
{
    if place < lates.len() {
        lates[place] = phis;
    }
}
