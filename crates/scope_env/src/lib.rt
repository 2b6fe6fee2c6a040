//! Scopes of names: what a name means at a place of a program.
//!
//! Constants, cells and the values of a run all stand under names in scopes that open and close, and an inner
//! scope may hide a name of an outer one. `Scopes` holds such scopes over values of any type.
//!
//! The crate stands on `qq_base` and on `indexmap`, whose map holds the names of one scope. A contract sees
//! `Scopes` as a list of scopes, innermost first, and each scope as a list of pairs of a name and a value, newest
//! first. `find`, `declare` and `close` of `specs/Scopes.antt` are functions on such lists, over any content, so
//! that a layer above states its own meaning with them. The layer above uses:
//!
//! - of `Scopes::find`, that it gives what the innermost scope that has the name declares;
//! - of `Scopes::declare`, that an Ok declares the name (`ok`), that a refused value is handed back and nothing is
//!   changed (`err`, `returned`), and that `Redeclared` comes exactly where the innermost scope has the name
//!   (`redeclared`);
//! - of `Scopes::open` and `Scopes::close`, the list with one scope more or less;
//! - the laws `declarations_are_found`, `unknown_names_are_nowhere` (nothing is found exactly where no scope has
//!   the name), `scopes_are_restored` and `values_are_mapped`;
//! - of `specs/OpenScopes.antt`, the open scopes of a program in the form in which the definitions of its walk and its run
//!   have them, with the laws `new_names_are_found`, `bodies_are_left` and `things_are_mapped`.
#![tactic(auto)]

mod laws;
mod scope;
mod scopes;
#[cfg(test)]
mod tests;

pub use laws::{
    bodies_are_left, declarations_are_found, new_names_are_found, scopes_are_restored,
    things_are_mapped, unknown_names_are_nowhere, values_are_mapped,
};
pub use scope::DeclareFault;
pub use scopes::Scopes;
