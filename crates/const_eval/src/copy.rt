// Copies of constants.
ghost use Rattle.std.specs.Prelude.{◌≡◌, IfOk};
ghost use Rattle.const_eval.specs.Seen.{constant_of};

use crate::constant::{BitRegister, Const};
use qasm_ast::BitText;
use qq_base::NoMemory;
use std::alloc::Global;

/// A copy of the bits of a bit string.
pub(crate) fn copied_bits(alloc: Global, bits: &BitText) -> Result<BitText, NoMemory>
    ensures { IfOk result (λ copy. copy ≡ bits.now) }
{
    Ok(BitText {
        items: Vec::from_slice(alloc, &bits.items)?,
    })
}

impl BitRegister {
    /// The same bits once more.
    pub(crate) fn copied(&self, alloc: Global) -> Result<BitRegister, NoMemory>
        ensures { IfOk result (λ copy. copy.text ≡ self.now.text) }
    {
        Ok(BitRegister {
            text: copied_bits(alloc, &self.text)?,
        })
    }
}

impl Const {
    /// The same constant once more.
    pub fn copied(&self, alloc: Global) -> Result<Const, NoMemory>
        ensures { IfOk result (λ copy. constant_of copy ≡ constant_of self.now) }
    {
        match self {
            Const::Whole(number) => Ok(Const::Whole(*number)),
            Const::Pi(fraction) => Ok(Const::Pi(*fraction)),
            Const::Bool(truth) => Ok(Const::Bool(*truth)),
            Const::Bits(bits) => Ok(Const::Bits(bits.copied(alloc)?)),
            Const::Angle(angle) => Ok(Const::Angle(*angle)),
        }
    }
}
