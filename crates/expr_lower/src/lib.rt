// Straight instructions for expressions of the core. The expressions that are reached are taken in the order of
// their numbers, each once: a constant is a fixed operand, a cell is where the state has it, and each
// other expression is one instruction.
//
// It stands on `core_ir` and `qir_module`. The layer above uses the contract of `lower_expr`, whose words stand in
// `specs/Lowered.antt`: its answer is that of one function, `coded` of `specs/Coded.antt`. And it uses the laws of `laws`:
// what that function's code computes, that a block goes on behind straight instructions, and that no more expressions are
// reached than there are.
#![tactic(auto)]

mod emit;
pub mod laws;
mod lower;
mod reached;
#[cfg(test)]
mod tests;

pub use lower::lower_expr;
