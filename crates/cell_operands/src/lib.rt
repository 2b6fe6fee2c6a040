// Where the cells of a core are while a module runs: each has an operand, a register or a fixed value, that has the
// cell's value.
//
// It stands on `core_ir` for cells and their values, and on `qir_module` for operands and the machine's state. The layers
// above use the words of `specs/Operands.antt`, and the law of `laws`: cells stay where they are while only further
// registers are assigned.
#![tactic(auto)]

pub mod laws;
