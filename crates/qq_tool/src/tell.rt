//! Writing what is due.

ghost use Rattle.std.specs.Prelude.{◌≡◌, ◌≢◌};
ghost use Rattle.qq_tool.specs.Answer.{change};
ghost use Rattle.qq_tool.specs.Told.{IsTold};

use crate::status::Status;
use qq_streams::{Sink, write_all};

/// Writes a text, and answers the status, or that a write failed.
pub fn tell<W: Sink>(sink: &mut W, text: &[u8], status: Status) -> Status
    requires write_fault { status ≢ Status.WriteFault }
    requires memory { status ≢ Status.OutOfMemory }
    ensures told { IsTold (λ answer. answer ≡ status) text.now (change (W.taken sink.old) (W.taken sink.new) (W.faults sink.old) (W.faults sink.new)) result }
    ensures no_memory { result ≢ Status.OutOfMemory }
{
    match write_all(sink, text) {
        Ok(()) => status,
        Err(_) => Status::WriteFault,
    }
}
