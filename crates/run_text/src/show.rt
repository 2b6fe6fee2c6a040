//! Runs on their way to a sink, step by step.

ghost use Rattle.std.specs.Prelude.{◌≡◌, List, ℕ, Bool, map, nat_eq, false, []};
ghost use Rattle.run_text.specs.Printing.{Prints, desk, unused};
ghost use Rattle.run_text.specs.Showing.{next_outcome, outcomes_behind, IsTaken};
ghost use Rattle.run_text.specs.Shown as s;
ghost use Rattle.qir_machine.specs.Steps.{Remains, IsStep, RecordsComeLast};

use crate::printer::Printer;
use qq_base::{Event, Fate, Label, Step};
use qq_streams::Sink;
use std::marker::Model;

/// A run that is shown: the labels of its records, and the outcomes and turns that are left for it.
#[derive(Drop)]
pub struct Show<'r> {
    labels: &'r [Label],
    /// The digits 0 and 1.
    outcomes: &'r [u8],
    turns: u32,
    printer: Printer,
}

impl<'r> Model for Show<'r> {
    ghost use Rattle.std.specs.Prelude.{map, nat_eq};
    ghost use Rattle.run_text.specs.Showing.{Going};

    ghost Value = { Going };

    ghost view = { λ s. record {
      labels = s.labels.now;
      outcomes = map (nat_eq 49) s.outcomes.now;
      turns = s.turns;
      pending = s.printer;
    } };
}

/// The outcomes behind an event.
fn left_behind<'r>(event: &Event, outcomes: &'r [u8]) -> &'r [u8]
    ensures { result.now ≡ outcomes_behind event.now outcomes.now }
{
    match event {
        Event::Measure { .. } => match outcomes.split_first() {
            Some((_, rest)) => rest,
            None => outcomes,
        },
        Event::Gate { .. } | Event::Reset { .. } => outcomes,
    }
}

impl<'r> Show<'r> {
    /// The start of a run with these labels, for these outcomes, each the digit 0 or 1, and so many turns.
    pub fn new(labels: &'r [Label], outcomes: &'r [u8], turns: u32) -> Show<'r>
        ensures { result ≡ record { labels = labels.now; outcomes = map (nat_eq 49) outcomes.now; turns = turns; pending = unused } }
    {
        Show {
            labels,
            outcomes,
            turns,
            printer: Printer::new(),
        }
    }

    /// Whether a write has failed.
    pub fn has_failed(&self) -> bool
        ensures { result ≡ self.now.pending.failed }
    {
        self.printer.has_failed()
    }

    /// The outcome that the next step is given.
    pub fn outcome(&self) -> Option<bool>
        ensures { result ≡ next_outcome self.now }
    {
        match self.outcomes.first() {
            Some(digit) => Some(*digit == b'1'),
            None => None,
        }
    }

    /// Takes over what a step of the run answered, which was given `outcome`. Gives the fate where the run is over.
    pub fn take<O: Sink>(&mut self, out: &mut O, step: Step) -> Option<Fate>
        ensures { (before behind : Remains) → IsStep before (next_outcome self.old) step behind → RecordsComeLast step behind
            → (text : List ℕ)
            × Prints (desk (O.taken out.old) (O.faults out.old) self.old.pending) text (desk (O.taken out.new) (O.faults out.new) self.new.pending)
            × IsTaken before self.old result behind self.new text }
    {
        match step {
            Step::Event(event) => {
                self.outcomes = left_behind(&event, self.outcomes);
                self.printer.event(out, &event);
                None
            }
            Step::Record(record) => {
                self.printer.record(out, self.labels, &record);
                None
            }
            Step::Ask => Some(Fate::Asked),
            Step::Turn if self.turns == 0 => Some(Fate::Turning),
            Step::Turn => {
                self.turns -= 1;
                None
            }
            Step::Done => Some(Fate::Ended),
        }
    }

    /// Writes what waits, and the line of the fate.
    pub fn finish<O: Sink>(&mut self, out: &mut O, fate: Fate)
        ensures prints { Prints (desk (O.taken out.old) (O.faults out.old) self.old.pending) (s.fate_line (s.ending_of fate)) (desk (O.taken out.new) (O.faults out.new) self.new.pending) }
        ensures empty { self.new.pending.failed ≡ false → self.new.pending.waiting ≡ [] }
    {
        self.printer.fate(out, fate);
        self.printer.flush(out);
    }
}
