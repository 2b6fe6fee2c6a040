//! Sinks of bytes.

ghost use Rattle.std.specs.Prelude.{ℕ, ◌≤◌, ◌<◌, List, length, Option, IfOk, OnErr};
ghost use Rattle.std.specs.Io.KnownBytes.{WriteAppends};
ghost use Rattle.qq_streams.specs.Faults.{HasRisen};

use thiserror::Error;

/// A write failed. Nothing of it was taken.
#[derive(Clone, Copy, Debug, PartialEq, Eq, Error)]
#[error("a write failed")]
pub struct SinkFault;

/// A sink of bytes.
pub trait Sink {
    /// The bytes that were taken, or None where the sink does not tell.
    ghost taken: { Self → Option (List ℕ) };

    /// How many faults there were. It never falls, and stays at 2^64 - 1 once it is there.
    ghost faults: { Self → ℕ };

    /// Takes bytes from the front of the piece, at least one where it is not empty, and gives their number.
    /// A fault takes nothing, and comes only where the count of faults rose in this call.
    fn write(&mut self, piece: &[u8]) -> Result<usize, SinkFault>
        ensures bound { IfOk result (λ n. n ≤ length piece.now) }
        ensures progress { 0 < length piece.now → IfOk result (λ n. 0 < n) }
        ensures bytes { WriteAppends (taken self.old) (taken self.new) result piece.now }
        ensures fault { OnErr result (HasRisen (faults self.old) (faults self.new)) }
        ensures count { faults self.old ≤ faults self.new };
}
