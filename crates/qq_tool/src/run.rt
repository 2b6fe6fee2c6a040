//! The run of a module, shown on a sink.

ghost use Rattle.qir_machine.specs.Remaining.{remaining};
ghost use Rattle.std.specs.Prelude.{◌≡◌};
ghost use Rattle.qir_module.specs.Machine.{machine_run};
ghost use Rattle.qir_module.specs.Module.{IsShaped};
ghost use Rattle.qir_module.specs.Passes.{Passes};
ghost use Rattle.qq_tool.specs.declared.status.Status.{Status};
ghost use Rattle.qq_tool.specs.Answer.{change};
ghost use Rattle.qq_tool.specs.Status.{IsStatusOfFate};
ghost use Rattle.qq_tool.specs.Tasks.{bits_of};
ghost use Rattle.qq_tool.specs.Playing.{IsPlayed};
ghost use Rattle.qq_tool.specs.Told.{IsTold};
ghost use Rattle.run_text.specs.Shown.{shown, ending_of};

use crate::status::Status;
use qir_machine::Machine;
use qir_machine::laws::passing_module_is_never_stuck;
use qir_module::Module;
use qq_base::{Fate, Label};
use qq_streams::Sink;
use run_text::Show;
use run_text::laws::texts_are_joined;
use std::alloc::Global;

/// Runs a module until its fate is known, and puts what it shows on its way. Gives None where a write failed.
fn play<O: Sink>(machine: &mut Machine<'_>, show: &mut Show<'_>, out: &mut O) -> Option<Fate>
    ensures { IsPlayed
        (record { remains = remaining machine.old; going = show.old; taken = O.taken out.old; faults = O.faults out.old }) result
        (record { remains = remaining machine.new; going = show.new; taken = O.taken out.new; faults = O.faults out.new }) }
{
    texts_are_joined();
    while !show.has_failed() {
        let step = machine.step(show.outcome());
        if let Some(fate) = show.take(out, step) {
            return Some(fate);
        }
    }
    None
}

/// The status of a run by its fate.
fn status_of(fate: Fate) -> Status
    ensures { IsStatusOfFate (ending_of fate) result }
{
    match fate {
        Fate::Ended => Status::Success,
        Fate::Asked => Status::Asked,
        Fate::Turning => Status::Turning,
    }
}

/// The labels of a module.
fn labels_of(module: &Module) -> &[Label]
    ensures labels { result.now ≡ «module».now.labels }
    ensures shaped { IsShaped «module».now }
{
    &module.labels.items
}

/// Shows the run of a module for these outcomes, each the digit 0 or 1, and so many turns. All memory is taken before
/// the first line.
pub fn show_run<O: Sink>(
    alloc: Global,
    module: &Module,
    outcomes: &[u8],
    turns: u32,
    out: &mut O,
) -> Status
    requires { Passes «module».now }
    ensures told { IsTold (IsStatusOfFate (machine_run «module».now (bits_of outcomes.now) turns).fate)
        (shown «module».now.labels (machine_run «module».now (bits_of outcomes.now) turns))
        (change (O.taken out.old) (O.taken out.new) (O.faults out.old) (O.faults out.new)) result }
    // The run has a status, whatever is answered.
    ensures settled { (status : Status) × IsStatusOfFate (machine_run «module».now (bits_of outcomes.now) turns).fate status }
{
    passing_module_is_never_stuck();
    texts_are_joined();
    let labels = labels_of(module);
    let Ok(mut machine) = Machine::open(alloc, module) else {
        return Status::OutOfMemory;
    };
    let mut show = Show::new(labels, outcomes, turns);
    match play(&mut machine, &mut show, out) {
        None => Status::WriteFault,
        Some(fate) => {
            show.finish(out, fate);
            if show.has_failed() {
                Status::WriteFault
            } else {
                status_of(fate)
            }
        }
    }
}
