// The checker of QIR's Adaptive Profile: whether a module keeps the twenty rules, or which rule it breaks first.
//
// It stands on `qq_base`, `gate_table` and `qir_module`. The layers above use the contract of `check`, in the terms of
// `Passes` and `broken` of `qir_module`.
#![tactic(auto)]

mod calls;
mod carried;
mod checker;
mod constants;
mod first;
mod first_broken;
mod head;
mod item;
mod jumps;
mod laws;
mod lost;
mod mentions;
mod names;
mod phis;
mod place;
mod records;
mod registers;
mod rounds;
mod rows;
mod rule;
mod table;
mod visit;
mod walk;
mod ways;

pub use checker::{CheckFault, check};
pub use laws::passes_or_is_broken;
pub use rule::CheckRule;
