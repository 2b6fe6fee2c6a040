// Calls of gates: the instructions of the target table that a call is, with what its walk costs, or the first rule that it breaks.
//
// It stands on `qq_base` for rules and places, on `qasm_ast` for programs and their trees, on `gate_table` for the gates of the
// target, on `const_eval` for constants, walks and what environments mean, on `alias_resolve` for what brackets select, on
// `scope_env` for the qubits that an application has in front of another, on `gate_lists` for lists of instructions under
// modifiers, and on `gate_arguments` for arguments and for the scopes of bodies. The rows of `worked_calls` have fractions of pi from
// `angle_arith`.
//
// The layers above use:
//
// - of `expand`, that it answers the list and the cost that the definitions give, or their first refusal, whatever units the
//   run-time arguments have (`exact`, by `due_call` of `specs/Seen.antt`), and which turns the list has (`turns`);
// - the trait `CallEnv`, whose meaning is, beside the finite maps of `GateEnv`, the list of the arguments of the outermost call
//   (`specs/Outer.antt`), and `Serves` of `specs/Serves.antt`, what is asked of an environment;
// - `Expansion` and its parts, which `gate_lists` defines.
//
// What a call of a gate is stands in `specs/Expand.antt`, with `specs/Modifiers.antt` and `specs/Applications.antt`. `worked_calls` checks
// the definitions against calls worked by hand. `specs/Served.antt` serves private contracts alone.
#![tactic(auto)]

mod applications;
mod call;
mod environment;
mod gate;
mod laws;
mod modifiers;
mod named;
mod operands;
mod outermost;
mod ready_call;
mod walk;

pub use environment::{CallEnv, OuterArg};
pub use gate_lists::{Expansion, GateArg, LeafCall, TurnExpr};
pub use laws::worked_calls;
pub use outermost::expand;
