// What a program of the source language means: which rule its walk refuses it by and where, what it costs, what its run
// shows, and what is left to do in the middle of a run.
//
// It has definitions alone, so that the layers that walk and run programs cite the same ones. It stands on `qasm_ast` for
// programs as trees, on `const_eval` for what names stand for and for expressions, with their walks and their values, on
// `qasm_types` for types and values, on `scope_env` for the open scopes, on `alias_resolve` for what brackets select, on
// `gate_table` for the names of gates, and on `gate_lists` for instructions. The expansion of a gate call is a parameter
// (`Expands` in `specs/GateCalls.antt`).
//
// The layers above use:
//
// - of statements `walk_at` (`specs/Walk.antt`) and `run_at` (`specs/Run.antt`);
// - of a body `are_fixed_in`, by which a `for` is static (`specs/ConstantUses.antt`);
// - of programs `walked`, `outputs`, `labels`, `width`, `sites`, `source_run` and `source_halt` (`specs/Source.antt`);
// - of the middle of a run `remaining_run` and `rest_seen` (`specs/Remaining.antt`).
//
// `longer_runs_go_on` is a law of runs: more turns and further outcomes change no run that ended, and take no event back from
// another; `all_is_left_at_first`, that what is left in front of the first statement is the whole run. `worked_refusals`, `worked_sums` and `worked_runs` check the definitions against programs worked by hand.
#![tactic(auto)]

mod laws;

pub use laws::{
    all_is_left_at_first, longer_runs_go_on, worked_refusals, worked_runs, worked_sums,
};
