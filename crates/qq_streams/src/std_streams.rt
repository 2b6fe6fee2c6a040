//! The adapters over the standard library's readers and writers. They tell no bytes: what a real file,
//! pipe or terminal gives or takes is trusted.

ghost use Rattle.std.specs.Prelude.{◌≡◌, ◌≤◌, ◌<◌, length, IfOk, OnErr, None, is_ok, if◌then◌else◌};
ghost use Rattle.std.specs.Io.KnownBytes.{ReadConsumes, WriteAppends};
ghost use Rattle.qq_streams.specs.Faults.{HasRisen, raised};

use crate::sink::{Sink, SinkFault};
use crate::source::{Source, SourceFault};
use std::io::{Read, Write};

/// A source over a reader. Each error of the reader is a fault.
#[derive(Drop)]
pub struct StdSource<R> {
    reader: R,
    faults: u64,
}

impl<R: Read> StdSource<R> {
    /// A source over the reader, with no faults so far.
    pub fn new(reader: R) -> StdSource<R>
        ensures { ⟦<StdSource<R> as Source>⟧.faults result ≡ 0 }
    {
        StdSource { reader, faults: 0 }
    }
}

impl<R: Read> Source for StdSource<R> {
    ghost left = { λ _. None };

    ghost faults = { λ s. s.faults };

    fn read(&mut self, piece: &mut [u8]) -> Result<usize, SourceFault>
        ensures bound { IfOk result (λ n. n ≤ length piece.new) }
        ensures bytes { ReadConsumes None None result piece.new }
        ensures fault { OnErr result (HasRisen (⟦<StdSource<R> as Source>⟧.faults self.old) (⟦<StdSource<R> as Source>⟧.faults self.new)) }
        ensures count { ⟦<StdSource<R> as Source>⟧.faults self.old ≤ ⟦<StdSource<R> as Source>⟧.faults self.new }
        // The count rises exactly where a fault is answered.
        ensures faults { ⟦<StdSource<R> as Source>⟧.faults self.new ≡ (if is_ok result
            then ⟦<StdSource<R> as Source>⟧.faults self.old
            else raised (⟦<StdSource<R> as Source>⟧.faults self.old)) }
    {
        match self.reader.read(piece) {
            Ok(count) => Ok(count),
            Err(_) => {
                self.faults = self.faults.saturating_add(1);
                Err(SourceFault)
            }
        }
    }
}

/// A sink over a writer. Each error of the writer is a fault, and so is a write that takes nothing of a
/// piece that is not empty.
#[derive(Drop)]
pub struct StdSink<W> {
    writer: W,
    faults: u64,
}

impl<W: Write> StdSink<W> {
    /// A sink over the writer, with no faults so far.
    pub fn new(writer: W) -> StdSink<W>
        ensures { ⟦<StdSink<W> as Sink>⟧.faults result ≡ 0 }
    {
        StdSink { writer, faults: 0 }
    }
}

impl<W: Write> Sink for StdSink<W> {
    ghost taken = { λ _. None };

    ghost faults = { λ s. s.faults };

    fn write(&mut self, piece: &[u8]) -> Result<usize, SinkFault>
        ensures bound { IfOk result (λ n. n ≤ length piece.now) }
        ensures progress { 0 < length piece.now → IfOk result (λ n. 0 < n) }
        ensures bytes { WriteAppends None None result piece.now }
        ensures fault { OnErr result (HasRisen (⟦<StdSink<W> as Sink>⟧.faults self.old) (⟦<StdSink<W> as Sink>⟧.faults self.new)) }
        ensures count { ⟦<StdSink<W> as Sink>⟧.faults self.old ≤ ⟦<StdSink<W> as Sink>⟧.faults self.new }
        // The count rises exactly where a fault is answered.
        ensures faults { ⟦<StdSink<W> as Sink>⟧.faults self.new ≡ (if is_ok result
            then ⟦<StdSink<W> as Sink>⟧.faults self.old
            else raised (⟦<StdSink<W> as Sink>⟧.faults self.old)) }
    {
        match self.writer.write(piece) {
            Ok(count) if count > 0 || piece.is_empty() => Ok(count),
            _ => {
                self.faults = self.faults.saturating_add(1);
                Err(SinkFault)
            }
        }
    }
}
