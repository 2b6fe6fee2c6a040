//! The laws of writing and reading. No program calls these functions: the contract of each is a law, and a body
//! names the laws that it follows from.

ghost use Rattle.std.specs.Prelude.{◌≡◌, Result, Ok};
ghost use Rattle.qir_module.specs.Module.{Module, IsShaped};
ghost use Rattle.qir_module.specs.Tokens.{Breach};
ghost use Rattle.qir_module.specs.Spoilt.{IsTextOf, IsTextAnswer};
ghost use Rattle.qir_module.specs.Written.{written};

use qir_lexer::texts_have_one_answer;
use qir_module::laws::function_names_differ;
use qir_text_tokens::{
    canonical_texts_have_tokens, decimals_are_numerals, escaped_bytes_are_meant,
    functions_have_names,
};

/// The canonical text of a shaped module spells it.
pub fn written_modules_are_read()
    ensures { (m : Module) → IsShaped m → IsTextOf (written m) m }
{
    canonical_texts_have_tokens();
    decimals_are_numerals();
    escaped_bytes_are_meant();
    function_names_differ();
    functions_have_names();
}

/// What is rightly answered of the canonical text of a shaped module is the module, and no breach of a rule.
pub fn canonical_texts_are_answered()
    ensures { (m : Module) (answer : Result Module Breach) → IsShaped m → IsTextAnswer (written m) answer → answer ≡ Ok m }
{
    written_modules_are_read();
    texts_have_one_answer();
}

/// Shaped modules with one canonical text are one module.
pub fn canonical_texts_differ()
    ensures { (m n : Module) → IsShaped m → IsShaped n → written m ≡ written n → m ≡ n }
{
    written_modules_are_read();
    texts_have_one_answer();
}
