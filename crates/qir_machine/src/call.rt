//! What a call does.

ghost use Rattle.std.specs.Int.{w64, cast_unsigned};
ghost use Rattle.std.specs.Prelude.{◌≡◌, ℕ, ◌<◌, ◌%◌, ◌^◌, ℤ, List, [], ◌∷◌, Option, Some, None};
ghost use Rattle.qq_base.specs.declared.run.QubitId.{QubitId};
ghost use Rattle.qir_module.specs.Functions.{row_of};
ghost use Rattle.qir_module.specs.Machine.{State, row_effect};
ghost use Rattle.qir_module.specs.declared.instruction.Arg.{Arg};
ghost use Rattle.qir_module.specs.declared.instruction.Instr.TheVariants.{Call};
ghost use Rattle.qir_machine.specs.Memory.{state_of};
ghost use Rattle.qir_machine.specs.Effect.{effect_from, IsRoomFor, StaysWithin};
ghost use Rattle.qir_machine.specs.Call.{IsGiven};

use crate::effect::Effect;
use crate::given::{Arguments, read_arguments};
use crate::memory::Memory;
use crate::value::Value;
use qir_module::{Arg, Function};
use qq_base::{GateId, QubitId, Record};

/// The first word.
fn first_word(all: &Arguments) -> i64
    ensures { (word : ℤ) (others : List ℤ) → all.now.words ≡ word ∷ others → result ≡ word }
{
    all.words[0]
}

/// The first id.
fn first_id(all: &Arguments) -> QubitId
    ensures { (id : QubitId) (others : List QubitId) → all.now.ids ≡ id ∷ others → result ≡ id }
{
    all.ids[0]
}

/// The second id.
fn second_id(all: &Arguments) -> QubitId
    ensures { (first id : QubitId) (others : List QubitId)
        → all.now.ids ≡ first ∷ id ∷ others → result ≡ id }
{
    all.ids[1]
}

/// The low 32 bits of a word.
fn low_bits(word: i64) -> u32
    ensures { result ≡ cast_unsigned w64 word % 2 ^ 32 }
{
    (word.cast_unsigned() % 0x1_0000_0000) as u32
}

/// What a function does that is called for no value.
fn call_task(function: Function, all: &Arguments) -> Effect
    requires { function.0 < 37 }
    ensures runs { (labels : ℕ) (s : State) (args : List Arg)
        → IsGiven labels s function args all.now
        → effect_from s result ≡ row_effect labels s (row_of function.0) None args }
    ensures room { (labels : ℕ) (s : State) (args : List Arg) (registers results : ℕ)
        → IsGiven labels s function args all.now
        → IsRoomFor registers results (Call None function args)
        → StaysWithin registers results result }
{
    match function.0 {
        // Initialize.
        0 => Effect::Nothing,
        // A result is read for its value.
        1 => Effect::Stuck,
        2 => Effect::Record(Record::Array {
            label: all.label,
            size: low_bits(first_word(all)),
        }),
        3 => Effect::Record(Record::Bool {
            label: all.label,
            value: all.truth,
        }),
        4 => Effect::Record(Record::Int {
            label: all.label,
            value: first_word(all),
        }),
        5 => Effect::Reset(first_id(all)),
        6 => Effect::Measure {
            qubit: first_id(all).0,
            result: second_id(all).0,
        },
        place => Effect::Gate {
            gate: GateId(place - 7),
            args: all.words,
            qubits: all.ids,
        },
    }
}

/// What a function does that is called for its value: the outcome in a result is read.
fn call_value(memory: &Memory, register: u32, function: Function, all: &Arguments) -> Effect
    requires { function.0 < 37 }
    ensures runs { (labels : ℕ) (args : List Arg)
        → IsGiven labels (state_of memory.now) function args all.now
        → effect_from (state_of memory.now) result
        ≡ row_effect labels (state_of memory.now) (row_of function.0) (Some register) args }
    ensures room { (registers results : ℕ) → register < registers → StaysWithin registers results result }
{
    if function.0 != 1 {
        return Effect::Stuck;
    }
    match memory.outcome(first_id(all).0) {
        Some(outcome) => Effect::Assign(register, Value::Truth(outcome)),
        None => Effect::Stuck,
    }
}

/// What a call does, where there are so many labels.
pub fn call_effect(
    memory: &Memory,
    labels: usize,
    register: Option<u32>,
    function: Function,
    args: &[Arg],
) -> Effect
    ensures runs { effect_from (state_of memory.now) result
        ≡ row_effect labels (state_of memory.now) (row_of function.0) register args.now }
    ensures room { (registers results : ℕ)
        → IsRoomFor registers results (Call register function args.now)
        → StaysWithin registers results result }
{
    let Some(row) = function.row() else {
        return Effect::Stuck;
    };
    let Some(all) = read_arguments(memory, labels, row.takes, args) else {
        return Effect::Stuck;
    };
    match register {
        Some(register) => call_value(memory, register, function, &all),
        None => call_task(function, &all),
    }
}
