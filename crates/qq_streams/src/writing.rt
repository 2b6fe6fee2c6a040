//! Writing a text to its end.

ghost use Rattle.std.specs.Prelude.{◌≤◌, length, take, OnOk, IfErr, OnErr};
ghost use Rattle.std.specs.Io.KnownBytes.{Appends};
ghost use Rattle.qq_streams.specs.Faults.{HasRisen};

use crate::sink::{Sink, SinkFault};
use thiserror::Error;

/// A write failed behind the first `written` bytes.
#[derive(Clone, Copy, Debug, PartialEq, Eq, Error)]
#[error("a write failed behind {written} bytes")]
pub struct WriteFault {
    pub written: usize,
}

/// Writes all the bytes, or answers a fault, only where the sink's count of faults rose in this call. Then
/// the first `written` bytes went out, and no others.
pub fn write_all<O: Sink>(sink: &mut O, bytes: &[u8]) -> Result<(), WriteFault>
    ensures all { OnOk result (Appends (O.taken sink.old) (O.taken sink.new) bytes.now) }
    ensures part { IfErr result (λ e. Appends (O.taken sink.old) (O.taken sink.new) (take e.written bytes.now)) }
    ensures within { IfErr result (λ e. e.written ≤ length bytes.now) }
    ensures fault { OnErr result (HasRisen (O.faults sink.old) (O.faults sink.new)) }
    ensures count { O.faults sink.old ≤ O.faults sink.new }
{
    let mut written = 0;
    while written < bytes.len() {
        let rest = &bytes[written..];
        match sink.write(rest) {
            Err(SinkFault) => return Err(WriteFault { written }),
            Ok(count) => written += count,
        }
    }
    Ok(())
}
