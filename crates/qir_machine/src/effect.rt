//! What an instruction does.

ghost use Rattle.std.specs.Prelude.{◌≡◌, ℕ, ◌<◌};
ghost use Rattle.std.specs.Option.{option_map};
ghost use Rattle.qir_module.specs.Machine.{State, truth_in, word_in, value_in, op_value, extended, truncated, selected, stored, effect_of};
ghost use Rattle.qir_machine.specs.Remaining.{value_of};
ghost use Rattle.qir_machine.specs.Memory.{state_of};
ghost use Rattle.qir_machine.specs.Effect.{effect_from, IsRoomFor, StaysWithin};

use crate::call::call_effect;
use crate::memory::Memory;
use crate::value::Value;
use crate::words::{operate_truths, operate_words};
use qir_module::{Instr, Opcode, Operand};
use qq_base::{GateId, QubitId, Record};

/// What an instruction does.
#[derive(Clone, Copy, Debug)]
pub enum Effect {
    Nothing,
    /// A value is stored in a register.
    Assign(u32, Value),
    Gate {
        gate: GateId,
        args: [i64; 4],
        qubits: [QubitId; 3],
    },
    Reset(QubitId),
    Record(Record),
    /// A qubit is measured, and the outcome is stored in a result.
    Measure {
        qubit: u32,
        result: u32,
    },
    /// What it reads is not there, or not of its type.
    Stuck,
}

/// The value of a binary instruction, if it has one.
fn operate(memory: &Memory, op: Opcode, truth: bool, left: Operand, right: Operand) -> Option<Value>
    ensures { option_map value_of result ≡ op_value (state_of memory.now) op truth left right }
{
    if truth {
        match (memory.truth(left), memory.truth(right)) {
            (Some(left), Some(right)) => operate_truths(op, left, right),
            _ => None,
        }
    } else {
        match (memory.word(left), memory.word(right)) {
            (Some(left), Some(right)) => operate_words(op, left, right),
            _ => None,
        }
    }
}

/// The value 0 or 1 of a truth value, if it is one.
fn extend(memory: &Memory, from: Operand) -> Option<Value>
    ensures { option_map value_of result ≡ extended (truth_in (state_of memory.now) from) }
{
    match memory.truth(from) {
        Some(truth) => Some(Value::Word(if truth { 1 } else { 0 })),
        None => None,
    }
}

/// The truth value of the lowest bit of a word, if it is one.
fn truncate(memory: &Memory, from: Operand) -> Option<Value>
    ensures { option_map value_of result ≡ truncated (word_in (state_of memory.now) from) }
{
    match memory.word(from) {
        Some(word) => Some(Value::Truth(word.cast_unsigned() % 2 == 1)),
        None => None,
    }
}

/// One of two values, by a truth value, if all three can be read.
fn choose(memory: &Memory, truth: bool, test: Operand, yes: Operand, no: Operand) -> Option<Value>
    ensures { option_map value_of result
        ≡ selected (truth_in (state_of memory.now) test)
        (value_in (state_of memory.now) truth yes) (value_in (state_of memory.now) truth no) }
{
    match (
        memory.truth(test),
        memory.value(truth, yes),
        memory.value(truth, no),
    ) {
        (Some(test), Some(yes), Some(no)) => Some(if test { yes } else { no }),
        _ => None,
    }
}

/// A value is stored in a register, if there is one.
fn assign(register: u32, value: Option<Value>) -> Effect
    ensures runs { (s : State) → effect_from s result ≡ stored s register (option_map value_of value) }
    ensures room { (registers results : ℕ) → register < registers → StaysWithin registers results result }
{
    match value {
        Some(value) => Effect::Assign(register, value),
        None => Effect::Stuck,
    }
}

/// What an instruction does, where there are so many labels.
pub fn instruction_effect(memory: &Memory, labels: usize, instr: &Instr) -> Effect
    ensures runs { effect_from (state_of memory.now) result
        ≡ effect_of labels (state_of memory.now) instr.now }
    ensures room { (registers results : ℕ)
        → IsRoomFor registers results instr.now → StaysWithin registers results result }
{
    match instr {
        Instr::Op {
            register,
            op,
            truth,
            left,
            right,
        } => assign(*register, operate(memory, *op, *truth, *left, *right)),
        Instr::Zext { register, from } => assign(*register, extend(memory, *from)),
        Instr::Trunc { register, from } => assign(*register, truncate(memory, *from)),
        Instr::Select {
            register,
            truth,
            test,
            yes,
            no,
        } => assign(*register, choose(memory, *truth, *test, *yes, *no)),
        Instr::Call {
            register,
            function,
            args,
        } => call_effect(memory, labels, *register, *function, &args.items),
    }
}
