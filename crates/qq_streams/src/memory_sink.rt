//! A sink in memory.

ghost use Rattle.std.specs.Prelude.{◌≡◌, ◌+◌, ◌-◌, ◌^◌, ◌<◌, ◌≤◌, ◌↔◌, ◌⊎◌, [], min, length, Contains, IfOk, IsErr, IsTrue, OnErr, Some, is_ok, if◌then◌else◌};
ghost use Rattle.std.specs.Io.KnownBytes.{WriteAppends};
ghost use Rattle.qq_streams.specs.Faults.{HasRisen, raised};

use crate::failing::is_failing;
use crate::sink::{Sink, SinkFault};
use qq_base::NoMemory;
use std::alloc::Global;
use std::marker::Model;

/// A sink into memory of a fixed size. The calls with the given numbers, counted from 0, fail.
#[derive(Drop)]
pub struct MemorySink {
    taken: Vec<u8>,
    room: usize,
    piece: usize,
    failing: Vec<u32>,
    calls: u64,
    faults: u64,
}

impl Model for MemorySink {
    ghost use Rattle.std.specs.Prelude.{◌<◌, ◌≤◌, vec_capacity, length};
    ghost use Rattle.qq_streams.specs.Memory.{SinkState};

    ghost Value = { SinkState };

    ghost view = { λ s. record {
      taken = s.taken.items;
      room = s.room;
      piece = s.piece;
      failing = s.failing.items;
      calls = s.calls;
      faults = s.faults;
    } };

    ghost invariant = { λ s. (0 < s.piece) × (length s.taken.items ≤ s.room) × (s.room ≤ vec_capacity s.taken) };
}

impl MemorySink {
    /// A sink of so many bytes in all, and at most `piece` in a call; the calls whose numbers, counted from
    /// 0, stand in `failing` fail. The memory is taken here.
    pub fn new(
        alloc: Global,
        room: usize,
        piece: usize,
        failing: Vec<u32>,
    ) -> Result<MemorySink, NoMemory>
        requires { 0 < piece }
        ensures { IfOk result (λ sink. sink ≡ record {
          taken = [];
          room = room;
          piece = piece;
          failing = failing.items;
          calls = 0;
          faults = 0;
        }) }
    {
        let taken = Vec::with_capacity(alloc, room)?;
        Ok(MemorySink {
            taken,
            room,
            piece,
            failing,
            calls: 0,
            faults: 0,
        })
    }

    /// The bytes that were taken.
    pub fn bytes(&self) -> &[u8]
        ensures { result.now ≡ self.now.taken }
    {
        &self.taken
    }
}

impl Sink for MemorySink {
    ghost taken = { λ s. Some s.taken };

    ghost faults = { λ s. s.faults };

    /// Takes as many bytes as there are and the piece and the room allow. It fails where this call is to
    /// fail, and where bytes come and no room is left.
    fn write(&mut self, piece: &[u8]) -> Result<usize, SinkFault>
        ensures bound { IfOk result (λ n. n ≤ length piece.now) }
        ensures progress { 0 < length piece.now → IfOk result (λ n. 0 < n) }
        ensures bytes { WriteAppends (Some self.old.taken) (Some self.new.taken) result piece.now }
        ensures fault { OnErr result (HasRisen self.old.faults self.new.faults) }
        ensures count { self.old.faults ≤ self.new.faults }
        ensures fails { IsErr result ↔ (Contains self.old.failing self.old.calls
            ⊎ ((0 < length piece.now) × (length self.old.taken ≡ self.old.room))) }
        ensures takes { IfOk result (λ n. n ≡ min (length piece.now) (min self.old.piece (self.old.room - length self.old.taken))) }
        ensures calls { self.new.calls ≡ min (self.old.calls + 1) (2 ^ 64 - 1) }
        ensures failing { self.new.failing ≡ self.old.failing }
        ensures kept { (self.new.room ≡ self.old.room) × (self.new.piece ≡ self.old.piece) }
        ensures faults { self.new.faults ≡ (if is_ok result then self.old.faults else raised self.old.faults) }
    {
        let call = self.calls;
        self.calls = self.calls.saturating_add(1);
        let room = self.room - self.taken.len();
        if refuses(&self.failing, call, room, piece.len()) {
            self.faults = self.faults.saturating_add(1);
            return Err(SinkFault);
        }
        let count = piece.len().min(self.piece).min(room);
        match self.taken.extend_from_slice(&piece[..count]) {
            Ok(()) => Ok(count),
            Err(_) => unreachable!(),
        }
    }
}

/// Whether a call with this number is to fail, or bytes are offered and there is no room.
fn refuses(failing: &[u32], call: u64, room: usize, offered: usize) -> bool
    ensures { IsTrue result ↔ (Contains failing.now call ⊎ ((0 < offered) × (room ≡ 0))) }
{
    is_failing(failing, call) || (offered > 0 && room == 0)
}
