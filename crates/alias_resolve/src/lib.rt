//! What index brackets select of a register: `q[i]`, `q[a:b]`, `q[a:s:b]` and `q[{i, j}]`, one behind another.
//!
//! `positions` gives the places in a register of so many positions, `qubits_of` the qubits at them. Both take the
//! values of the indexes, and answer the first fault by the place of its bracket, and of its member in a set.
//!
//! The crate stands on `qq_base`. The layer above uses of both calls that an Ok is exactly what the brackets select
//! (`ok`), and that a fault other than want of memory is exactly the first one (`err`), by `positions_of` and
//! `selected_of` of `specs/Places.antt`; and of `positions` that all places are in the register (`within`) and fewer than
//! 2^32 (`few`). The law `ranges_go_by_their_step` says number by number what a range is, `ranges_count_by_steps` how many
//! numbers it has and which stands where, and `range_places_differ` that no place comes twice in one range.
#![tactic(auto)]

mod bracket;
mod index;
mod laws;
mod number;
mod range;
mod select;
mod select_places;
#[cfg(test)]
mod tests;

pub use index::{IndexValue, MemberList};
pub use laws::{range_places_differ, ranges_count_by_steps, ranges_go_by_their_step};
pub use select::{QubitList, SelectFault, Selection};
pub use select_places::{positions, qubits_of};
