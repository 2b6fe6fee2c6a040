//! The items of blocks.

use qir_module::{Instr, Last, Phi};

/// An item of a block.
#[derive(Clone, Copy)]
pub(crate) enum Item<'a> {
    Phi(&'a Phi),
    Instr(&'a Instr),
    Last(Last),
}
