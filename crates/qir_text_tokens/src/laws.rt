//! The laws of the tokens of canonical texts. No program calls these functions: the contract of each is a law, and a
//! body names the law that it follows from.

ghost use Rattle.std.specs.Prelude.{◌≡◌, ℕ, List, Ok, Some, All};
ghost use Rattle.std.specs.Fmt.{decimal};
ghost use Rattle.std.specs.List.{flat_map};
ghost use Rattle.qir_module.specs.declared.function.Function.{Function};
ghost use Rattle.qir_module.specs.Functions.{Row, row_of};
ghost use Rattle.qir_module.specs.Module.{Module, IsShaped, IsNumber, IsByte, IsFunction};
ghost use Rattle.qir_module.specs.Text.{escaped};
ghost use Rattle.qir_module.specs.Tokens.{Token, Tokens, IsWord, bytes_meant};
ghost use Rattle.qir_module.specs.Words.{Numeral, text_of};
ghost use Rattle.qir_module.specs.Written.{written};
ghost use Rattle.qir_text_tokens.specs.Signs.{kinds_of, module_tokens};

use qir_lexer::tokens_are_right;

/// The canonical text of a shaped module has these tokens.
pub fn canonical_texts_have_tokens()
    ensures { (m : Module) → IsShaped m → (tokens : List Token) × Tokens (written m) (Ok tokens) × (kinds_of tokens ≡ module_tokens m) }
{
    tokens_are_right();
}

/// The decimal digits of a number are its numeral.
pub fn decimals_are_numerals()
    ensures { (n : ℕ) → IsNumber n → text_of (decimal n) ≡ Numeral n }
{}

/// The bytes of a label are what its escaped bytes mean.
pub fn escaped_bytes_are_meant()
    ensures { (bytes : List ℕ) → All IsByte bytes → bytes_meant (flat_map escaped bytes) ≡ bytes }
{}

/// Each function has a row in the table, and its name is a word.
pub fn functions_have_names()
    ensures { (function : Function) → IsFunction function → (row : Row) × (row_of function.0 ≡ Some row) × IsWord row.name }
{}
