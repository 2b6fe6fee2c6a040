//! The ways out of a block.

ghost use Rattle.std.specs.Prelude.{◌≡◌};
ghost use Rattle.qir_machine.specs.Memory.{state_of};
ghost use Rattle.qir_machine.specs.Ready.{to_place, exit_of};

use crate::memory::Memory;
use qir_module::Last;

/// The places of the blocks that the last instruction of a block names, if they are there.
#[derive(Clone, Copy, Debug)]
pub struct Ways {
    pub first: Option<u32>,
    pub second: Option<u32>,
}

/// What the last instruction of a block does.
#[derive(Clone, Copy, Debug)]
pub enum Exit {
    Ends,
    /// The block at a place is entered.
    Enters(u32),
    /// It reads what is not there, or names no block.
    Nowhere,
}

/// The way to a place, if it is there.
fn entered(place: Option<u32>) -> Exit
    ensures { result ≡ to_place place }
{
    match place {
        Some(place) => Exit::Enters(place),
        None => Exit::Nowhere,
    }
}

/// What a last instruction does.
pub fn take_exit(memory: &Memory, last: Last, ways: Ways) -> Exit
    ensures { result ≡ exit_of (state_of memory.now) last ways }
{
    match last {
        Last::Jump(_) => entered(ways.first),
        Last::Branch(test, _, _) => match memory.truth(test) {
            Some(true) => entered(ways.first),
            Some(false) => entered(ways.second),
            None => Exit::Nowhere,
        },
        Last::Return(_) => Exit::Ends,
    }
}
