// Gate calls of a program: what the walk and the run of a source program take for the expansion of a call.
//
// The definitions of `source_meaning` have the expansion as a parameter. Here it is given by that of `gate_flatten`, so that all layers
// that walk or run programs cite one. It stands on `gate_flatten` and `gate_arguments` for calls of gates and for what names mean in
// their bodies, on `source_meaning` for the parameter, on `const_eval` and `scope_env` for what names stand for in the open
// scopes, on `gate_lists` for instructions, on `expr_names` for the names that an expression asks, and on `qasm_ast` for trees.
//
// The layers above use:
//
// - `expand` (`specs/Calls.antt`), the expansion of a gate call where the open scopes are these;
// - the law `definitions_are_found`, that the number of a gate tells its definition, and what is seen in its body;
// - the law `calls_are_alike`: a call gives the same list with the same cost, or breaks the same rule, wherever the names that it
//   asks mean the same and definitions are the same, whatever their numbers are (`specs/Alike.antt`);
// - `worked_gate_calls`, which checks the definitions against calls worked by hand.
#![tactic(auto)]

mod laws;

pub use laws::{calls_are_alike, definitions_are_found, worked_gate_calls};
