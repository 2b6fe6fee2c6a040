// The open scopes of a program while it is walked or run: what names stand for.
//
// `OpenNames` holds the scopes of one program: the global one, and within it those that are open. A name is looked up by its number,
// and a look-up takes as many steps as scopes are open. What names stand for are constants, variables with a content of any type,
// counters of loops, qubits, rows of the target table, gates and subroutines (`Slot`). A definition is held as the number of its
// statement, so that nothing of a program is copied.
//
// Contracts see it as a `Standing` (`specs/Standing.antt`): the program, and its names by their numbers. Of these `scopes_of` makes the
// open scopes with the texts of names, and `things` those of the definitions of programs, with the trees of the program. The names
// that a program has without declaring them are among them whether or not they occur in it (`specs/Texts.antt`).
//
// It stands on `qasm_ast` for programs, on `scope_env` for one scope and for the open scopes as definitions have them, on `const_eval`
// for what names stand for and for the trait `Constants`, on `source_meaning` for the names of every program, on `qasm_types` and
// `angle_arith` for types and constants, and on `qq_base`. The layers above use:
//
// - of `OpenNames::new`, that the things are the predefined ones, and of `open`, `close` and `declare`, the scopes with one scope or
//   one name more or less; that `Redeclared` comes exactly where the innermost scope has the name, and that what is refused changes
//   nothing; of `include`, the scopes with the names of the library;
// - of `find` and `is_here`, that they answer what the definitions of the same name say of the open scopes;
// - of `cells` and `qubits`, the cells in scope and the qubits declared so far, which are kept and not counted again;
// - that it is an environment of constant expressions (`meanings` in `specs/Meanings.antt`), which answers for each name of the program
//   (`names_have_meanings`);
// - the law `things_follow_slots`: what is said of the open scopes holds of the things in them.
#![tactic(auto)]

mod counts;
mod environment;
mod laws;
mod names;
mod scope;
mod slot;
mod standard;

pub use laws::{names_have_meanings, things_follow_slots};
pub use names::OpenNames;
pub use slot::{Register, Slot};
