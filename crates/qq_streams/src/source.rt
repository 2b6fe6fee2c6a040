//! Sources of bytes.

ghost use Rattle.std.specs.Prelude.{ℕ, ◌≤◌, List, length, Option, IfOk, OnErr};
ghost use Rattle.std.specs.Io.KnownBytes.{ReadConsumes};
ghost use Rattle.qq_streams.specs.Faults.{HasRisen};

use thiserror::Error;

/// A read failed. What there was to read is still there.
#[derive(Clone, Copy, Debug, PartialEq, Eq, Error)]
#[error("a read failed")]
pub struct SourceFault;

/// A source of bytes.
pub trait Source {
    /// The bytes that are still to come, or None where the source does not tell.
    ghost left: { Self → Option (List ℕ) };

    /// How many faults there were. It never falls, and stays at 2^64 - 1 once it is there.
    ghost faults: { Self → ℕ };

    /// Moves bytes from the front of what is left into the front of the piece, and gives their number. It
    /// is 0, for a piece that is not empty, exactly at the end of the input. A fault leaves what is left as
    /// it was, and comes only where the count of faults rose in this call.
    fn read(&mut self, piece: &mut [u8]) -> Result<usize, SourceFault>
        ensures bound { IfOk result (λ n. n ≤ length piece.new) }
        ensures bytes { ReadConsumes (left self.old) (left self.new) result piece.new }
        ensures fault { OnErr result (HasRisen (faults self.old) (faults self.new)) }
        ensures count { faults self.old ≤ faults self.new };
}
