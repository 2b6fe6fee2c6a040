// The structured core: a program over numbered cells, between the tree of the source and the blocks of a
// module. Its statements stand in lists of numbers (arenas); the definitions see them as an inductive
// program (`specs/Tree.antt`), and give its run (`core_run` of `specs/Run.antt`), its ways and open cells
// (`specs/Ways.antt`), its size (`specs/Size.antt`), and what it means that a core is well formed and fits
// the limits (`IsWellFormed`, `Fits` of `specs/WellFormed.antt`).
//
// It stands on `qir_module`, whose machine gives words, truth values and instruction words their meaning.
// The layers above use these definitions and the contract of `Core::well_formed`.
#![tactic(auto)]

mod around;
mod body;
mod expression;
mod kind;
pub mod laws;
mod program;
mod standing;
mod statement;
#[cfg(test)]
mod tests;
mod well_formed;

pub use expression::{CellKind, CoreExpr};
pub use program::{Core, Output};
pub use qir_module::Opcode as CoreOp;
pub use statement::{Body, CoreStmt, GateArg, LeafCall, Pairs};
