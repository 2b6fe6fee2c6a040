// The arguments of calls of gates, and what names mean where a gate is called.
//
// It stands on `qq_base` for rules and places, on `qasm_ast` for programs and their trees, on `qasm_types`, `angle_arith` and
// `word_arith` for angles and the operators on them, on `const_eval` for constants and the environment of a call, on
// `alias_resolve` for what brackets select, on `scope_env` for the names of parameters, and on `gate_lists` for the budget of
// a walk and for turns.
//
// The layer above uses:
//
// - of `constant_at`, `whole_at` and `indexes_at`, that they answer the walks of constants of `const_eval` within a budget;
// - of `arguments_at`, that it answers `arguments_walk` of `specs/Arguments.antt` in the scope of a gate's body, whatever units
//   its run-time parameters have (`answer`), and which turns it makes (`kept`, `args`, `grown`, `fit`);
// - of `units_at`, that it answers the units of an argument of a gate of the target table (`answer`), and of which turn (`named`);
// - of `Scope`, that its methods answer what names mean (`scope_seen` of `specs/Seen.antt`), and that a called definition is
//   one, and an operand has few qubits, and one where it is single (`fits`, `one`, `few`);
// - of `body_scope`, that it gives the scope of a gate's body of `specs/Scope.antt`, or the first parameter that stands twice
//   (`answer`), and that the environment answers for all names there (`names`, `callables`, `operands`, `turns`).
#![tactic(auto)]

mod argument;
mod constants;
mod nodes;
mod scope;
mod turn;
mod units;

pub use argument::arguments_at;
pub use constants::{constant_at, indexes_at, whole_at};
pub use scope::{Argument, Body, Given, Scope, Signature, body_scope};
pub use units::units_at;
