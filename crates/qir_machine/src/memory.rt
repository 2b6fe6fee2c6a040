//! What a run stores: the values of registers and the outcomes in results.

ghost use Rattle.std.specs.Prelude.{◌≡◌, ◌<◌, length, replicate, IfOk, None};
ghost use Rattle.std.specs.Option.{option_map};
ghost use Rattle.qir_module.specs.Machine.{word_in, truth_in, value_in, with_register, with_result};
ghost use Rattle.qir_machine.specs.Remaining.{value_of};
ghost use Rattle.qir_machine.specs.Memory.{state_of};

use crate::value::Value;
use qir_module::Operand;
use qq_base::NoMemory;
use std::alloc::Global;

/// A place for each register and each result of a module, by their numbers; a place that nothing was stored
/// in yet is None.
#[derive(Debug, Drop)]
pub struct Memory {
    pub registers: Vec<Option<Value>>,
    pub results: Vec<Option<bool>>,
}

impl Memory {
    /// So many registers and results, in which nothing is stored.
    pub fn empty(alloc: Global, registers: usize, results: usize) -> Result<Memory, NoMemory>
        ensures registers { IfOk result (λ memory. memory.registers.items ≡ replicate registers None) }
        ensures results { IfOk result (λ memory. memory.results.items ≡ replicate results None) }
    {
        let registers: Vec<Option<Value>> = vec![in alloc; None; registers]?;
        let results: Vec<Option<bool>> = vec![in alloc; None; results]?;
        Ok(Memory { registers, results })
    }

    /// What a register holds, if anything.
    fn register(&self, register: u32) -> Option<Value>
        ensures { option_map value_of result ≡ (state_of self.now).registers register }
    {
        match self.registers.get(register as usize) {
            Some(held) => *held,
            None => None,
        }
    }

    /// The outcome in a result, if it was measured.
    pub fn outcome(&self, number: u32) -> Option<bool>
        ensures { result ≡ (state_of self.now).results number }
    {
        match self.results.get(number as usize) {
            Some(held) => *held,
            None => None,
        }
    }

    /// The operand as a word, if it is one.
    pub fn word(&self, operand: Operand) -> Option<i64>
        ensures { result ≡ word_in (state_of self.now) operand }
    {
        match operand {
            Operand::Register(register) => match self.register(register) {
                Some(Value::Word(word)) => Some(word),
                Some(Value::Truth(_)) => None,
                None => None,
            },
            Operand::Fixed(word) => Some(word),
        }
    }

    /// The operand as a truth value, if it is one.
    pub fn truth(&self, operand: Operand) -> Option<bool>
        ensures { result ≡ truth_in (state_of self.now) operand }
    {
        match operand {
            Operand::Register(register) => match self.register(register) {
                Some(Value::Truth(truth)) => Some(truth),
                Some(Value::Word(_)) => None,
                None => None,
            },
            Operand::Fixed(0) => Some(false),
            Operand::Fixed(1) => Some(true),
            Operand::Fixed(_) => None,
        }
    }

    /// The operand as a truth value or as a word, if it is one.
    pub fn value(&self, truth: bool, operand: Operand) -> Option<Value>
        ensures { option_map value_of result ≡ value_in (state_of self.now) truth operand }
    {
        if truth {
            match self.truth(operand) {
                Some(value) => Some(Value::Truth(value)),
                None => None,
            }
        } else {
            match self.word(operand) {
                Some(value) => Some(Value::Word(value)),
                None => None,
            }
        }
    }

    /// Stores a value in a register.
    pub fn store(&mut self, register: u32, value: Value)
        requires { register < length self.old.registers.items }
        ensures state { state_of self.new ≡ with_register (state_of self.old) register (value_of value) }
        ensures registers { length self.new.registers.items ≡ length self.old.registers.items }
        ensures results { length self.new.results.items ≡ length self.old.results.items }
    {
        self.registers[register as usize] = Some(value);
    }

    /// Stores an outcome in a result.
    pub fn measure(&mut self, number: u32, outcome: bool)
        requires { number < length self.old.results.items }
        ensures state { state_of self.new ≡ with_result (state_of self.old) number outcome }
        ensures registers { length self.new.registers.items ≡ length self.old.registers.items }
        ensures results { length self.new.results.items ≡ length self.old.results.items }
    {
        self.results[number as usize] = Some(outcome);
    }
}
