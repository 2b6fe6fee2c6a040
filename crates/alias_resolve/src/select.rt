//! What is selected, and why nothing is.

use qq_base::QubitId;
use std::alloc::{AllocError, AllocFailed};

/// Places in a register, each from 0 below the register's length.
#[derive(Debug, Drop)]
pub struct Selection {
    pub places: Vec<u32>,
    /// Whether this is one position alone and no register.
    pub single: bool,
}

/// Qubits of a register.
#[derive(Debug, Drop)]
pub struct QubitList {
    pub ids: Vec<QubitId>,
    /// Whether this is one qubit alone and no register.
    pub single: bool,
}

/// Why nothing is selected. `index` is the bracket's place in the list, from 0.
#[derive(Clone, Copy, Debug, PartialEq, Eq)]
pub enum SelectFault {
    /// Want of memory.
    Memory,
    /// A position is not in the register. `member` is its place in the set, or 0 where the bracket holds no set.
    IndexRange { index: u32, member: u32 },
    /// The step of a range is 0.
    StepZero { index: u32 },
    /// The bracket stands behind a single position.
    NotRegister { index: u32 },
}

impl From<AllocError> for SelectFault {
    ghost use Rattle.alias_resolve.specs.declared.select.SelectFault.TheVariants.{Memory};
    ghost use Rattle.std.specs.Prelude.{◌≡◌};

    ghost from_gives = { λ _ fault. fault ≡ Memory };

    fn from(_error: AllocError) -> SelectFault {
        SelectFault::Memory
    }
}

impl<T: Drop> From<AllocFailed<T>> for SelectFault {
    ghost use Rattle.alias_resolve.specs.declared.select.SelectFault.TheVariants.{Memory};
    ghost use Rattle.std.specs.Prelude.{◌≡◌};

    ghost from_gives = { λ _ fault. fault ≡ Memory };

    fn from(_error: AllocFailed<T>) -> SelectFault {
        SelectFault::Memory
    }
}
