// Modules of QIR's Adaptive Profile, as values: labels, blocks with their phis, instructions and last
// instructions, declarations and flags.
//
// It stands on `qq_base` and, for the gates among the functions that a module may call, on `gate_table`. The
// layers above use the invariant of `Module`, which is `IsShaped` of `specs/Module.antt`, the table of functions
// (`Functions`) with `Function::row` and `Function::by_name`, and the definitions of this crate over modules: the
// canonical text (`Written`), the order of its numbers (`Numbered`), the run of the machine (`Machine`) and the
// count of its items (`Items`).
#![tactic(auto)]

mod block;
mod function;
mod instruction;
pub mod laws;
mod module;
mod profile;
mod sequence;
#[cfg(test)]
mod tests;

pub use block::{Block, Phi};
pub use function::{Function, FunctionRow, Kind};
pub use instruction::{Arg, Instr, Last, Opcode, Operand};
pub use module::{Module, items};
pub use profile::Profile;
pub use sequence::Sequence;
