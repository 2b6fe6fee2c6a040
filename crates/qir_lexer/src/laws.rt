//! The laws of the grammar of QIR text. They have no code: each contract is a law.

ghost use Rattle.std.specs.Prelude.{◌≡◌, ℕ, false, List, Result};
ghost use Rattle.qir_module.specs.Module.{Module};
ghost use Rattle.qir_module.specs.Tokens.{Token, Breach, Tokens};
ghost use Rattle.qir_module.specs.Grammar.{module_part};
ghost use Rattle.qir_module.specs.Spoilt.{IsTextOf, IsRefused, IsAnswer, IsSpoilt, IsTextAnswer};
ghost use Rattle.qir_module.specs.Lexer.{lexed};
ghost use Rattle.qir_module.specs.Reader.{answer, read_text};

/// What the reader of lists answers of the tokens of a text is right: they are this module, or are refused by
/// this rule and there.
pub fn answers_are_right()
    ensures { (text : List ℕ) (tokens : List Token) → IsAnswer text tokens (answer text tokens) }
{}

/// Tokens are one module at most.
pub fn modules_are_one()
    ensures { (tokens : List Token) (m n : Module) → (module_part false).derives tokens m → (module_part false).derives tokens n → m ≡ n }
{}

/// Tokens are refused by one rule and at one place at most.
pub fn refusals_are_one()
    ensures { (text : List ℕ) (tokens : List Token) (a b : Breach) → IsRefused text tokens a → IsRefused text tokens b → a ≡ b }
{}

/// No tokens are a module and refused.
pub fn modules_are_not_refused()
    ensures { (text : List ℕ) (tokens : List Token) (m : Module) (breach : Breach) →
        (module_part false).derives tokens m → IsRefused text tokens breach → ⊥ }
{}

/// The tokens of a text as a function of lists are those of the definition.
pub fn tokens_are_right()
    ensures { (text : List ℕ) → Tokens text (lexed text) }
{}

/// A text has one list of tokens, or one first breach of a rule of tokens.
pub fn readings_are_one()
    ensures { (text : List ℕ) (a b : Result (List Token) Breach) → Tokens text a → Tokens text b → a ≡ b }
{}

/// What is answered of a text is right: it spells this module, or is spoilt by this rule and there.
pub fn texts_are_answered()
    ensures { (text : List ℕ) → IsTextAnswer text (read_text text) }
{}

/// A text spells one module at most, is spoilt by one rule and at one place at most, and is not both.
pub fn texts_have_one_answer()
    ensures one_module { (text : List ℕ) (m n : Module) → IsTextOf text m → IsTextOf text n → m ≡ n }
    ensures one_breach { (text : List ℕ) (a b : Breach) → IsSpoilt text a → IsSpoilt text b → a ≡ b }
    ensures not_both { (text : List ℕ) (m : Module) (breach : Breach) → IsTextOf text m → IsSpoilt text breach → ⊥ }
{}
