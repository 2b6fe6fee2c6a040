// Cores as text, one a line: a notation for the programs that try the layers between a core and its blocks, and for what
// they print. It is no part of the product.
//
// A core is seven fields with ` | ` between two. Where a field has parts, `, ` stands between two of them; expressions,
// statements, labels and cells are numbered from 0 in the order of their fields.
//
// - The cells: of each its kind, `n` for a word or `t` for a truth value.
// - The expressions: `Cell 0`, `Truth 1`, `Number -7`, an instruction and two expressions as `Add 0 1`, `Widen 2`,
//   `Narrow 3`, `Choose 4 0 1`.
// - The statements: `set 0=4 1=3` gives cells the values of expressions; `gate rz 5 on 0` and `gate rz =2 on 0` apply a gate
//   to qubits, with a number of units or the value of an expression; `reset 0`; `measure 0` and `measure 0 into 1`;
//   `if 2 then 3 4 else 5` with the numbers of statements, as in `block 1 2` and `loop 1 2`; `leave 0` and `again 0`.
// - The statements that the program is.
// - The outputs: `array 0 2`, `truth 1 0` and `number 2 1`, each with its label and then the size or the cell.
// - The labels, without blanks and without the byte 0 at their ends.
// - How many qubits there are.
//
// It stands on `core_ir`, and on `gate_table` for the names of gates. The programs use `read_core`, `show_core` and the
// readers of single fields.
#![tactic(auto)]

mod digits;
mod read;
mod show;
mod statement;

pub use digits::{fixed, number, numbers};
pub use read::{exprs, kind, kinds, read_core};
pub use show::show_core;
pub use statement::statements;
