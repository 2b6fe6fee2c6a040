//! The run of a module on the machine.

ghost use Rattle.qir_module.specs.Passes.{Passes};

use crate::run::Seen;
use qir_machine::Machine;
use qir_module::Module;
use qq_base::{Event, Fate, NoMemory, Step};
use std::alloc::Global;

/// More steps than a run of a small module has.
const MOST_STEPS: u32 = 1_000_000;

/// The run of a module with these outcomes and turns; None where it has too many steps.
pub fn run_module(
    alloc: Global,
    module: &Module,
    outcomes: &[bool],
    turns: u32,
) -> Result<Option<Seen>, NoMemory>
    requires { Passes «module».now }
{
    let mut machine = Machine::open(alloc, module)?;
    let mut steps = Vec::new(alloc);
    let mut outcomes = outcomes;
    let mut turns = turns;
    for _ in 0..MOST_STEPS {
        let step = machine.step(outcomes.first().copied());
        let fate = match step {
            Step::Ask => Fate::Asked,
            Step::Done => Fate::Ended,
            Step::Turn => {
                if turns > 0 {
                    turns -= 1;
                    continue;
                }
                Fate::Turning
            }
            _ => {
                if let Step::Event(Event::Measure { .. }) = step {
                    outcomes = outcomes.get(1..).unwrap_or(&[]);
                }
                steps.push(step)?;
                continue;
            }
        };
        return Ok(Some(Seen { steps, fate }));
    }
    Ok(None)
}
