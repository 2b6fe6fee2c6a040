//! Reading a source to its end.

ghost use Rattle.std.specs.Prelude.{ℕ, ◌+◌, ◌≤◌, ◌<◌, List, length, IfOk, OnErr, IsErrOf};
ghost use Rattle.std.specs.Io.KnownBytes.{Consumes, IsAtEnd};
ghost use Rattle.qq_streams.specs.Faults.{HasRisen};

use crate::source::{Source, SourceFault};
use std::alloc::Global;
use thiserror::Error;

/// Why a source was not read to its end.
#[derive(Clone, Copy, Debug, PartialEq, Eq, Error)]
pub enum ReadAllFault {
    #[error("out of memory")]
    Memory,
    #[error("a read failed")]
    ReadFault,
    #[error("the input is too long")]
    TooLong,
}

/// How many bytes are asked for at once.
const PIECE: usize = 4096;

/// Reads all that is left, of at most `limit` bytes. `TooLong` comes exactly where more than `limit` bytes
/// came, as soon as they did; `ReadFault` only where the source's count of faults rose in this call;
/// `Memory` for want of memory. After each of the three some bytes from the front of what was left are
/// gone, after `ReadFault` at most `limit`, and after `TooLong` more, by at most a piece.
pub fn read_all<S: Source>(
    alloc: Global,
    source: &mut S,
    limit: u64,
) -> Result<Vec<u8>, ReadAllFault>
    ensures bytes { IfOk result (λ bytes. Consumes (S.left source.old) (S.left source.new) bytes.items) }
    ensures end { IfOk result (λ bytes. IsAtEnd (S.left source.new)) }
    ensures within { IfOk result (λ bytes. length bytes.items ≤ limit) }
    ensures too_long { IsErrOf result ReadAllFault.TooLong → (front : List ℕ) ×
        Consumes (S.left source.old) (S.left source.new) front × (limit < length front) × (length front ≤ limit + PIECE) }
    ensures fault { IsErrOf result ReadAllFault.ReadFault → HasRisen (S.faults source.old) (S.faults source.new) }
    ensures cut { IsErrOf result ReadAllFault.ReadFault → (front : List ℕ) ×
        Consumes (S.left source.old) (S.left source.new) front × (length front ≤ limit) }
    ensures moved { OnErr result ((front : List ℕ) × Consumes (S.left source.old) (S.left source.new) front) }
    ensures count { S.faults source.old ≤ S.faults source.new }
{
    let mut bytes = Vec::new(alloc);
    let mut piece = [0u8; PIECE];
    while bytes.len() as u64 <= limit {
        match source.read(&mut piece) {
            Err(SourceFault) => return Err(ReadAllFault::ReadFault),
            Ok(0) => return Ok(bytes),
            Ok(count) => {
                if bytes.extend_from_slice(&piece[..count]).is_err() {
                    return Err(ReadAllFault::Memory);
                }
            }
        }
    }
    Err(ReadAllFault::TooLong)
}
