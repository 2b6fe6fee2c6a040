// What the names of an expression mean.
ghost use Rattle.std.specs.Prelude.{[], ◌∷◌};
ghost use Rattle.const_eval.specs.Meaning.{Held};
ghost use Rattle.const_eval.specs.Seen.{constant_of};

use crate::library::constant;
use crate::typed::Typed;
use const_eval::{Const, Constants, Lookup};
use std::alloc::{AllocError, Global};

/// What the two names mean: that with the number 0 the left operand, and that with the number 1 the right one.
#[derive(Drop)]
pub struct Names {
    left: Const,
    right: Const,
}

impl Constants for Names {
    ghost names = { λ names. (0, Held (constant_of names.left)) ∷ (1, Held (constant_of names.right)) ∷ [] };

    #[tactic(auto, using(crate::proofs::Named::first_found, crate::proofs::Named::second_found, crate::proofs::Named::no_further))]
    fn lookup(&self, name: u32) -> Lookup<'_> {
        match name {
            0 => Lookup::Value(&self.left),
            1 => Lookup::Value(&self.right),
            _ => Lookup::Unknown,
        }
    }
}

impl Names {
    /// Names that mean these operands, where they are constants.
    pub fn new(alloc: Global, left: Typed, right: Typed) -> Result<Option<Names>, AllocError> {
        let left = constant(alloc, left)?;
        let right = constant(alloc, right)?;
        match (left, right) {
            (Some(left), Some(right)) => Ok(Some(Names { left, right })),
            _ => Ok(None),
        }
    }
}
