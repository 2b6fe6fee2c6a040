//! Text on its way to a sink, by pieces.

ghost use Rattle.std.specs.Prelude.{◌≡◌, ◌<◌, [], ◌∷◌, false, length, decimal};
ghost use Rattle.std.specs.Fmt.{signed_decimal};
ghost use Rattle.run_text.specs.Printing.{Prints, desk, unused};

use arrayvec::ArrayVec;
use itoa::Buffer;
use qq_streams::{Sink, write_all};
use std::marker::Model;

/// Text that waits to be written. Where a write fails, nothing is written from then on, and what the sink took is
/// a part of the text from its front. It takes no memory.
#[derive(Drop)]
pub struct Printer {
    waiting: ArrayVec<u8, 4096>,
    failed: bool,
}

impl Model for Printer {
    ghost use Rattle.run_text.specs.Printing.{Pending};

    ghost Value = { Pending };

    ghost view = { λ p. record { waiting = p.waiting.items; failed = p.failed } };
}

impl Printer {
    /// A printer that holds nothing.
    pub fn new() -> Printer
        ensures { result ≡ unused }
    {
        Printer {
            waiting: ArrayVec::new(),
            failed: false,
        }
    }

    /// Whether a write has failed.
    pub fn has_failed(&self) -> bool
        ensures { result ≡ self.now.failed }
    {
        self.failed
    }

    /// Writes what waits.
    pub fn flush<O: Sink>(&mut self, out: &mut O)
        ensures prints { Prints (desk (O.taken out.old) (O.faults out.old) self.old) [] (desk (O.taken out.new) (O.faults out.new) self.new) }
        ensures empty { self.new.failed ≡ false → self.new.waiting ≡ [] }
    {
        if !self.failed {
            match write_all(out, self.waiting.as_slice()) {
                Ok(()) => self.waiting.clear(),
                Err(_) => self.failed = true,
            }
        }
    }

    /// Writes what waits where there is no room for a byte more.
    fn make_room<O: Sink>(&mut self, out: &mut O)
        ensures prints { Prints (desk (O.taken out.old) (O.faults out.old) self.old) [] (desk (O.taken out.new) (O.faults out.new) self.new) }
        ensures room { self.new.failed ≡ false → length self.new.waiting < 4096 }
    {
        if self.waiting.is_full() {
            self.flush(out);
        }
    }

    /// Puts a byte behind what waits.
    fn put_byte<O: Sink>(&mut self, out: &mut O, byte: u8)
        ensures { Prints (desk (O.taken out.old) (O.faults out.old) self.old) (byte ∷ []) (desk (O.taken out.new) (O.faults out.new) self.new) }
    {
        self.make_room(out);
        if !self.failed {
            self.waiting.push(byte);
        }
    }

    /// Puts a text behind what waits.
    pub fn put<O: Sink>(&mut self, out: &mut O, text: &[u8])
        ensures { Prints (desk (O.taken out.old) (O.faults out.old) self.old) text.now (desk (O.taken out.new) (O.faults out.new) self.new) }
    {
        for byte in text {
            self.put_byte(out, *byte);
        }
    }

    /// Puts a whole number from 0 on, in decimal.
    pub fn put_number<O: Sink>(&mut self, out: &mut O, number: u32)
        ensures { Prints (desk (O.taken out.old) (O.faults out.old) self.old) (decimal number) (desk (O.taken out.new) (O.faults out.new) self.new) }
    {
        let mut buffer = Buffer::new();
        self.put(out, buffer.format(number).as_bytes());
    }

    /// Puts a whole number that may be below 0, in decimal.
    pub fn put_signed<O: Sink>(&mut self, out: &mut O, number: i64)
        ensures { Prints (desk (O.taken out.old) (O.faults out.old) self.old) (signed_decimal number) (desk (O.taken out.new) (O.faults out.new) self.new) }
    {
        let mut buffer = Buffer::new();
        self.put(out, buffer.format(number).as_bytes());
    }
}
