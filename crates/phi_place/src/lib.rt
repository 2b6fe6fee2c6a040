// Where control flow joins: which cells a part of a program assigns, and the phis by which the operands of
// several ways become those of one block. A join makes a phi exactly where two ways have different
// operands, and a loop opens with a phi for each listed cell.
//
// A join takes time by its ways and by the cells that it is given, a loop's start by the cells that it is given. A caller
// leaves out those that no joined body assigns: of a state it passes the other operands, and their kinds.
//
// It stands on `core_ir` and `qir_module`. The layer above uses the contracts of `assigned`, `join_phis` and
// `header_phis`, the exact phis of `specs/Phis.antt`, and the law of `laws`: after the phis taken from a way the
// new operands hold what the way's held.
#![tactic(auto)]

mod cells;
mod join;
pub mod laws;
mod operands;
mod state;
#[cfg(test)]
mod tests;

pub use cells::assigned;
pub use join::{header_phis, join_phis, start_phis};
pub use operands::Operands;
pub use state::CellState;
