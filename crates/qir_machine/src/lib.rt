// The machine that runs a module of QIR, from one event, record, question or turn to the next.
//
// It stands on `qir_module`, whose definition `machine_run` says what a module does, and on `qq_base` for the steps
// of a run. `specs/Remaining.antt` says what remains of a run where it stands, and `specs/Steps.antt` which answers
// a step may give. The layer above uses the clauses of `Machine::open` (what remains at the start is the module's
// run) and of `Machine::step` (each answer is a step of what remains), and the laws of `laws`.
#![tactic(auto)]

mod call;
mod effect;
mod given;
pub mod laws;
mod layout;
mod machine;
mod memory;
mod parts;
mod perform;
mod phis;
mod value;
mod ways;
mod words;

pub use machine::Machine;
