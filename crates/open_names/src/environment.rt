//! What expressions ask of open names.
ghost use Rattle.std.specs.Prelude.{◌≡◌};
ghost use Rattle.const_eval.specs.Seen.{meaning_of};
ghost use Rattle.open_names.specs.Slots.{meaning_of_slot};
ghost use Rattle.open_names.specs.Meanings.{meanings};

use crate::names::OpenNames;
use crate::slot::Slot;
use const_eval::{Constants, Lookup};

impl<'p, A: Drop> Constants for OpenNames<'p, A> {
    ghost names = { meanings };

    fn lookup(&self, name: u32) -> Lookup<'_> {
        match self.find(name) {
            Some(slot) => meaning(slot),
            None => Lookup::Unknown,
        }
    }
}

/// What a name means that stands for this.
fn meaning<A>(slot: &Slot<A>) -> Lookup<'_>
    ensures { meaning_of result ≡ meaning_of_slot slot.now }
{
    match slot {
        Slot::Fixed(value) => Lookup::Value(value),
        Slot::Variable(_, _) => Lookup::Variable,
        Slot::Counter(_, _) => Lookup::Variable,
        _ => Lookup::Other,
    }
}
