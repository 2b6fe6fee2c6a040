//! Names by their numbers, and the bytes of tokens.

ghost use Rattle.std.specs.Prelude.{◌≡◌, ◌⊎◌, ◌<◌, ◌^◌, ◌++◌, ◌∷◌, [], Some, length, slice_get, IfOk, IfErr};
ghost use Rattle.qasm_lexer.specs.Sizes.{bytes_of};
ghost use Rattle.qasm_parser.specs.State.{IsSpelled};
ghost use Rattle.qasm_parser.specs.declared.stop.Stop.TheVariants.{Memory};

use crate::stop::Stop;
use indexmap::IndexSet;
use qasm_ast::Word;
use qasm_lexer::Token;
use std::alloc::Global;

/// The bytes of a token.
pub fn spelling<'x>(text: &'x [u8], token: Token) -> &'x [u8]
    requires { IsSpelled text.now token }
    ensures { result.now ≡ bytes_of text.now token }
{
    &text[token.start as usize..token.end as usize]
}

/// Gives the number of the name that is spelled by these bytes, a new one where it is new.
pub fn intern(alloc: Global, names: &mut IndexSet<Word>, spelling: &[u8]) -> Result<u32, Stop>
    requires room { length names.old.keys < 2 ^ 32 }
    ensures found { IfOk result (λ k. slice_get names.new.keys k ≡ Some spelling.now) }
    ensures kept { IfOk result (λ k. (names.new.keys ≡ names.old.keys) ⊎ (names.new.keys ≡ names.old.keys ++ spelling.now ∷ [])) }
    ensures memory { IfErr result (λ e. e ≡ Memory) }
    ensures err { IfErr result (λ e. names.new.keys ≡ names.old.keys) }
{
    let word = match Vec::from_slice(alloc, spelling) {
        Ok(items) => Word { items },
        Err(_) => return Err(Stop::Memory),
    };
    match names.insert_full(word) {
        Ok((place, _)) => Ok(place as u32),
        Err(_) => Err(Stop::Memory),
    }
}
