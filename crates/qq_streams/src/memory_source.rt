//! A source in memory.

ghost use Rattle.std.specs.Prelude.{◌≡◌, ◌+◌, ◌-◌, ◌^◌, ◌≤◌, ◌↔◌, min, length, Contains, IfOk, IsErr, OnErr, Some, is_ok, if◌then◌else◌};
ghost use Rattle.std.specs.Io.KnownBytes.{ReadConsumes};
ghost use Rattle.qq_streams.specs.Faults.{HasRisen, raised};

use crate::failing::is_failing;
use crate::source::{Source, SourceFault};
use std::marker::Model;

/// A source over bytes in memory. The calls with the given numbers, counted from 0, fail.
#[derive(Drop)]
pub struct MemorySource {
    bytes: Vec<u8>,
    position: usize,
    failing: Vec<u32>,
    calls: u64,
    faults: u64,
}

impl Model for MemorySource {
    ghost use Rattle.std.specs.Prelude.{◌≤◌, length, drop};
    ghost use Rattle.qq_streams.specs.Memory.{SourceState};

    ghost Value = { SourceState };

    ghost view = { λ s. record {
      left = drop s.position s.bytes.items;
      failing = s.failing.items;
      calls = s.calls;
      faults = s.faults;
    } };

    ghost invariant = { λ s. s.position ≤ length s.bytes.items };
}

impl MemorySource {
    /// A source over all the bytes; the calls whose numbers, counted from 0, stand in `failing` fail.
    pub fn new(bytes: Vec<u8>, failing: Vec<u32>) -> MemorySource
        ensures { result ≡ record { left = bytes.items; failing = failing.items; calls = 0; faults = 0 } }
    {
        MemorySource {
            bytes,
            position: 0,
            failing,
            calls: 0,
            faults: 0,
        }
    }
}

impl Source for MemorySource {
    ghost left = { λ s. Some s.left };

    ghost faults = { λ s. s.faults };

    /// Moves as many bytes as there are and the piece has room for, or fails where this call is to fail.
    fn read(&mut self, piece: &mut [u8]) -> Result<usize, SourceFault>
        ensures bound { IfOk result (λ n. n ≤ length piece.new) }
        ensures bytes { ReadConsumes (Some self.old.left) (Some self.new.left) result piece.new }
        ensures fault { OnErr result (HasRisen self.old.faults self.new.faults) }
        ensures count { self.old.faults ≤ self.new.faults }
        ensures fails { IsErr result ↔ Contains self.old.failing self.old.calls }
        ensures moves { IfOk result (λ n. n ≡ min (length piece.old) (length self.old.left)) }
        ensures calls { self.new.calls ≡ min (self.old.calls + 1) (2 ^ 64 - 1) }
        ensures failing { self.new.failing ≡ self.old.failing }
        ensures faults { self.new.faults ≡ (if is_ok result then self.old.faults else raised self.old.faults) }
    {
        let call = self.calls;
        self.calls = self.calls.saturating_add(1);
        if is_failing(&self.failing, call) {
            self.faults = self.faults.saturating_add(1);
            return Err(SourceFault);
        }
        let left = &self.bytes[self.position..];
        let count = left.len().min(piece.len());
        piece[..count].copy_from_slice(&left[..count]);
        self.position += count;
        Ok(count)
    }
}
