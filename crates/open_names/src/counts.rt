//! How many cells and qubits the names in open scopes have.
ghost use Rattle.std.specs.Prelude.{◌≡◌, ◌+◌};
ghost use Rattle.open_names.specs.Slots.{cells_of_slot, qubits_of_slot};
ghost use Rattle.open_names.specs.Counted.{counted};

use crate::slot::Slot;

/// Sums, counted up to 2^64 - 1.
#[derive(Clone, Copy, Debug, PartialEq, Eq)]
pub struct Counts {
    pub cells: u64,
    pub qubits: u64,
}

impl Counts {
    /// The sums with those of one name more.
    pub fn with<A>(self, slot: &Slot<A>) -> Counts
        ensures cells { result.cells ≡ counted (self.cells + cells_of_slot slot.now) }
        ensures qubits { result.qubits ≡ counted (self.qubits + qubits_of_slot slot.now) }
    {
        Counts {
            cells: self.cells.saturating_add(slot.cells()),
            qubits: self.qubits.saturating_add(slot.qubits()),
        }
    }
}
