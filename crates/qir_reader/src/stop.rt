//! Why a part of a module is not read.

use qq_base::NoMemory;
use std::alloc::AllocFailed;

/// Why a part is not read. The cursor stands at the token that fails, or at the end of the text.
#[derive(Clone, Copy, Debug)]
pub(crate) enum Stop {
    Memory,
    /// No part goes on so.
    Syntax,
    /// A part goes on so, but for the value of the token.
    Value,
}

impl From<NoMemory> for Stop {
    ghost use Rattle.qir_reader.specs.declared.stop.Stop.TheVariants.{Memory};
    ghost use Rattle.std.specs.Prelude.{◌≡◌};

    ghost from_gives = { λ _ stop. stop ≡ Memory };

    fn from(_error: NoMemory) -> Stop {
        Stop::Memory
    }
}

impl<T: Drop> From<AllocFailed<T>> for Stop {
    ghost use Rattle.qir_reader.specs.declared.stop.Stop.TheVariants.{Memory};
    ghost use Rattle.std.specs.Prelude.{◌≡◌};

    ghost from_gives = { λ _ stop. stop ≡ Memory };

    fn from(_error: AllocFailed<T>) -> Stop {
        Stop::Memory
    }
}
