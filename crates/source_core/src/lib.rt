// Which core a program of the source is elaborated to, as functions on trees.
//
// It has definitions alone, in the shape of those of `source_meaning`: each part of the walk of a program has a part here, which refuses
// what the walk refuses, comes to the same sums, and makes statements of the core. It stands on `source_meaning` for the walk, on
// `expr_parts` for expressions over cells, on `gate_lists` for the turns of a gate call, and on `core_ir` for what the core does.
//
// The layers above use:
//
// - of a core as a tree its run, `body_run` (`specs/CoreRun.antt`);
// - of statements `makes_at` (`specs/Makes.antt`), with the cells of names (`specs/Cells.antt`) and the ways of jumps (`specs/Jumps.antt`);
// - of programs `elaborated`, `recorded_outputs` and `made_run` (`specs/Elaborated.antt`).
//
// `elaboration_follows_the_walk` is a law of programs: what is refused, and what the rest comes to, is what the walk of `source_meaning`
// says. `worked_cores` checks on the programs that are worked by hand there that the core shows what the program shows.
#![tactic(auto)]

mod laws;

pub use laws::{elaboration_follows_the_walk, joined_bodies_run_in_order, worked_cores};
