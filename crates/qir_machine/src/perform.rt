//! An effect is taken.

ghost use Rattle.std.specs.Prelude.{◌≡◌, ◌↔◌, IsTrue, length};
ghost use Rattle.qir_module.specs.Machine.{Later};
ghost use Rattle.qir_machine.specs.Memory.{state_of};
ghost use Rattle.qir_machine.specs.Effect.{effect_from, StaysWithin, IsStuck, IsAsking};
ghost use Rattle.qir_machine.specs.Performed.{IsPerformed};

use crate::effect::Effect;
use crate::memory::Memory;
use qq_base::{Event, QubitId, Step};

/// Whether an effect is a measurement for which no outcome is given.
pub fn asks(effect: Effect, outcome: Option<bool>) -> bool
    ensures { IsTrue result ↔ IsAsking effect outcome }
{
    match (effect, outcome) {
        (Effect::Measure { .. }, None) => true,
        _ => false,
    }
}

/// Takes an effect: None where it shows nothing.
pub fn perform(memory: &mut Memory, effect: Effect, outcome: Option<bool>) -> Option<Step>
    requires goes { ¬ IsStuck effect }
    requires given { ¬ IsAsking effect outcome }
    requires room { StaysWithin (length memory.old.registers.items) (length memory.old.results.items) effect }
    ensures performed { (later : Later) → IsPerformed
        (effect_from (state_of memory.old) effect) later outcome result (state_of memory.new) }
    ensures registers { length memory.new.registers.items ≡ length memory.old.registers.items }
    ensures results { length memory.new.results.items ≡ length memory.old.results.items }
{
    match effect {
        Effect::Nothing => None,
        Effect::Assign(register, value) => {
            memory.store(register, value);
            None
        }
        Effect::Gate { gate, args, qubits } => Some(Step::Event(Event::Gate {
            gate,
            args,
            qubits,
        })),
        Effect::Reset(qubit) => Some(Step::Event(Event::Reset { qubit })),
        Effect::Record(record) => Some(Step::Record(record)),
        Effect::Measure { qubit, result } => match outcome {
            Some(outcome) => {
                memory.measure(result, outcome);
                Some(Step::Event(Event::Measure {
                    qubit: QubitId(qubit),
                    outcome,
                }))
            }
            None => unreachable!(),
        },
        Effect::Stuck => unreachable!(),
    }
}
