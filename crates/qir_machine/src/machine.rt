//! The machine.

ghost use Rattle.std.specs.Prelude.{◌≡◌, ℕ, ◌+◌, ◌<◌, Bool, Option, MatchOption, MatchBool, IfOk};
ghost use Rattle.qir_module.specs.Machine.{machine_run};
ghost use Rattle.qir_module.specs.Passes.{Passes};
ghost use Rattle.qir_machine.specs.Remaining.{Run, remaining};
ghost use Rattle.qir_machine.specs.Steps.{AreSame, IsStep, RecordsComeLast};
ghost use Rattle.qir_machine.specs.Ready.{items_here, IsNext, IsLater, IsAtEnd, Shows};

use crate::effect::instruction_effect;
use crate::layout::{find_ways, room_for};
use crate::memory::Memory;
use crate::parts::{
    block_at, blocks_of, body_length, instruction_at, label_count, phis_of, ways_at,
};
use crate::perform::{asks, perform};
use crate::phis::{empty_buffer, enter_phis};
use crate::value::Value;
use crate::ways::{Exit, Ways, take_exit};
use qir_module::Module;
use qq_base::{NoMemory, Step};
use std::alloc::Global;
use std::marker::Model;

/// A run of a module, from one step to the next.
#[derive(Drop)]
pub struct Machine<'m> {
    module: &'m Module,
    /// The ways out of each block, by its place.
    ways: Vec<Ways>,
    memory: Memory,
    /// Room for what the phis of one block take.
    buffer: Vec<Value>,
    block: usize,
    item: usize,
}

impl<'m> Model for Machine<'m> {
    ghost use Rattle.std.specs.Prelude.{length};
    ghost use Rattle.qir_machine.specs.Remaining.{Run as RunValue};
    ghost use Rattle.qir_machine.specs.Ready.{IsReady};

    ghost Value = { RunValue };

    ghost view = { λ m. record {
      of = m.«module».now;
      block = m.block;
      item = m.item;
      registers = m.memory.registers.items;
      results = m.memory.results.items;
    } };

    ghost invariant = { λ m. IsReady
        (record {
          of = m.«module».now;
          block = m.block;
          item = m.item;
          registers = m.memory.registers.items;
          results = m.memory.results.items;
        })
        m.ways.items (length m.buffer.items) };
}

impl<'m> Machine<'m> {
    /// A run of the module at its start, with all memory that it takes.
    pub fn open(alloc: Global, module: &'m Module) -> Result<Machine<'m>, NoMemory>
        requires { Passes «module».now }
        ensures same_module { IfOk result (λ machine. machine.of ≡ «module».now) }
        ensures whole_run { IfOk result (λ machine. AreSame (remaining machine) (machine_run «module».now)) }
    {
        let blocks = blocks_of(module);
        let room = room_for(blocks);
        let ways = find_ways(alloc, blocks)?;
        let memory = Memory::empty(alloc, room.registers, room.results)?;
        let buffer = empty_buffer(alloc, room.phis)?;
        Ok(Machine {
            module,
            ways,
            memory,
            buffer,
            block: 0,
            item: 0,
        })
    }

    /// Whether an instruction is left of the block, other than its last one.
    fn has_instruction(&self) -> bool
        ensures { MatchBool result
            (self.now.item < items_here self.now) (self.now.item ≡ items_here self.now) }
    {
        let module = self.module;
        self.item < body_length(block_at(module, self.block))
    }

    /// Runs one instruction: None where it shows nothing.
    fn run_instruction(&mut self, outcome: Option<bool>) -> Option<Step>
        requires { self.old.item < items_here self.old }
        ensures { MatchOption result
            (IsNext self.old self.new) (λ step. Shows self.old outcome step self.new) }
    {
        let module = self.module;
        let instr = instruction_at(block_at(module, self.block), self.item);
        let effect = instruction_effect(&self.memory, label_count(module), instr);
        if asks(effect, outcome) {
            return Some(Step::Ask);
        }
        let step = perform(&mut self.memory, effect, outcome);
        self.item += 1;
        step
    }

    /// Runs the instructions of the block up to the first that shows something: None where none does.
    fn run_block(&mut self, outcome: Option<bool>) -> Option<Step>
        ensures { MatchOption result
            (IsAtEnd self.old self.new) (λ step. Shows self.old outcome step self.new) }
    {
        'instructions: while self.has_instruction() {
            if let Some(step) = self.run_instruction(outcome) {
                return Some(step);
            }
        }
        None
    }

    /// Runs the last instruction of the block: None where it jumps forwards.
    fn leave_block(&mut self) -> Option<Step>
        requires { self.old.item ≡ items_here self.old }
        ensures { (outcome : Option Bool) → MatchOption result
            (IsLater self.old self.new) (λ step. Shows self.old outcome step self.new) }
    {
        let module = self.module;
        let block = block_at(module, self.block);
        match take_exit(&self.memory, block.last, ways_at(&self.ways, self.block)) {
            Exit::Ends => Some(Step::Done),
            Exit::Enters(place) => {
                let place = place as usize;
                let later = self.block < place;
                let phis = phis_of(block_at(module, place));
                if !enter_phis(&mut self.memory, &mut self.buffer, phis, block.name) {
                    unreachable!();
                }
                self.block = place;
                self.item = 0;
                if later {
                    return None;
                }
                Some(Step::Turn)
            }
            Exit::Nowhere => unreachable!(),
        }
    }

    /// Runs up to the next event, record, question or turn, or to the end. An outcome is used exactly by a
    /// measurement; a question comes exactly where a measurement is next and no outcome was given, and changes
    /// nothing; a turn is a jump to a block that does not stand later in the text. Behind a record there are only
    /// records.
    pub fn step(&mut self, outcome: Option<bool>) -> Step
        ensures same_module { self.new.of ≡ self.old.of }
        ensures step { IsStep (remaining self.old) outcome result (remaining self.new) }
        ensures records_last { RecordsComeLast result (remaining self.new) }
    {
        'forwards: loop {
            if let Some(step) = self.run_block(outcome) {
                return step;
            }
            if let Some(step) = self.leave_block() {
                return step;
            }
        }
    }
}
