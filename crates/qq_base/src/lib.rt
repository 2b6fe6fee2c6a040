// What all layers of the compiler speak of: places in a text, the rules and refusals, qubits and gates,
// label texts, and what a run shows (its fate, its events and its output records).
//
// It stands on nothing. The layers above use the numbers and names of the rules, which are those of the
// table in `specs/Rule.antt`, and `Seen` of `specs/Seen.antt`: what was seen of a run.
#![tactic(auto)]

mod label;
mod refusal;
mod rule;
mod run;

pub use label::Label;
pub use refusal::{Fault, NoMemory, Refusal, Span};
pub use rule::Rule;
pub use run::{Event, Fate, GateId, QubitId, Record, Step};
