//! Refusals of a source text, with their places, and want of memory.

use crate::rule::Rule;
use std::alloc::{AllocError, AllocFailed};

/// A place in a text. Both numbers count from 1; a column is one character, and a line ends after LF.
#[derive(Clone, Copy, Debug, PartialEq, Eq)]
pub struct Span {
    pub line: u32,
    pub column: u32,
}

/// A rule that a source text breaks, and where.
#[derive(Clone, Copy, Debug, PartialEq, Eq)]
pub struct Refusal {
    pub rule: Rule,
    pub at: Span,
}

/// Want of memory.
#[derive(Clone, Copy, Debug, PartialEq, Eq)]
pub struct NoMemory;

impl From<AllocError> for NoMemory {
    fn from(_error: AllocError) -> NoMemory {
        NoMemory
    }
}

impl<T: Drop> From<AllocFailed<T>> for NoMemory {
    fn from(_error: AllocFailed<T>) -> NoMemory {
        NoMemory
    }
}

/// Why a call over a source text gives nothing: want of memory, or a refusal of the text.
#[derive(Clone, Copy, Debug, PartialEq, Eq)]
pub enum Fault {
    Memory,
    Refused(Refusal),
}

impl From<NoMemory> for Fault {
    ghost use Rattle.qq_base.specs.declared.refusal.Fault.TheVariants.{Memory};
    ghost use Rattle.std.specs.Prelude.{◌≡◌};

    ghost from_gives = { λ _ fault. fault ≡ Memory };

    fn from(_error: NoMemory) -> Fault {
        Fault::Memory
    }
}
