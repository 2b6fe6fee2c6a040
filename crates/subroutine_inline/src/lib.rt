// Calls of subroutines: what a call binds up to its classical arguments, with what its walk costs, or the first rule that it breaks.
//
// It stands on `qq_base` for rules and places, on `qasm_ast` for programs and their trees, on `qasm_types` for the types of
// parameters, on `const_eval` for constants, walks and what environments mean, on `alias_resolve` for what brackets select, on
// `gate_lists` for the budget of a walk, and on `gate_arguments` for what names mean where a call stands and in a definition.
//
// The layer above uses:
//
// - of `bind_call`, that it answers what the walk of the call gives (`due_binding` of `specs/Bound.antt`), which is `binding_walk`
//   of `const_eval` by the maps of an environment; and that what is bound is of the program (`BindingFits` of `specs/Seen.antt`);
// - `Serves` of `specs/Serves.antt`, what is asked of an environment.
//
// A value that is taken from a subroutine without one is refused by the caller, before the call: `bind_call` is not told whether a
// value is taken.
#![tactic(auto)]

mod arguments;
mod binding;
mod called;
mod counted;
mod indexes;
mod laws;
mod operand;
mod parameters;
mod widths;

pub use binding::{Binding, bind_call};
pub use laws::worked_calls;
