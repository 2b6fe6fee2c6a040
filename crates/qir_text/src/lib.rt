// The law of writing and reading: the canonical text of a module spells it.
//
// It stands on the definitions of `qir_module` (which text a module is written as, which tokens a text has, and which
// module tokens are), on the tokens of canonical texts (`qir_text_tokens`), and on two laws: no two functions have one
// name (`qir_module`), and a text has one answer (`qir_lexer`). The functions here are laws and have no code of their
// own. The layers above, the reader and the tool, use `written_modules_are_read`, by which the canonical text of a
// shaped module spells it, and `canonical_texts_are_answered`, by which what is read from that text is the module.
//
// The tokens of a canonical text are known by their kinds. `proofs/Making.antt` has the ways to make a part of the
// grammar of tokens of some kinds, wherever they stand; `ItemParts` and `ModuleParts` make the parts of a module, and
// `Known` tells a function by its name.
#![tactic(auto)]

mod laws;

pub use laws::{canonical_texts_are_answered, canonical_texts_differ, written_modules_are_read};
