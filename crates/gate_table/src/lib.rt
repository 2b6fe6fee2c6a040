// The target table: the gates of the target's instruction set, by their rows from 0, with what each takes, its
// inverse, the gate that it is under a control, and the names by which a source text calls them.
//
// It stands on `qq_base`, for the number of a gate. `specs/Table.antt` has the table as it is read, and the layers
// above use its columns: `target` holds them, the methods of `Table` read them, and `by_name` finds the gate of a
// source name. The laws of `laws` say that the names differ, that the inverse of an inverse is the gate, and
// that a control adds one qubit.
#![tactic(auto)]

pub mod laws;
mod table;
#[cfg(test)]
mod tests;

pub use table::{CtlRow, InvRow, Row, Table, target};
