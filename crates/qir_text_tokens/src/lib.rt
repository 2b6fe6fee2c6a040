// The tokens of the canonical text of a module.
//
// It stands on the definitions of `qir_module` (which text a module is written as, and which tokens a text has) and on
// a law of `qir_lexer`: the tokens that the lexer on lists finds are those of the definition. The functions here are
// laws and have no code of their own. The layer above, `qir_text`, uses `canonical_texts_have_tokens`, and what the
// other three say of numerals, labels and names.
//
// `specs/Signs.antt` lists the tokens of each part by their kinds. `proofs/Passages.antt` says which tokens stand between
// two places of a text, so that parts compose; a text of characters that are all known is read by computation.
// `Numerals`, `Ends` and `Names` read the tokens with a number, a quoted text or a name, `Items` the items of a block,
// and `Texts` the module.
#![tactic(auto)]

mod laws;

pub use laws::{
    canonical_texts_have_tokens, decimals_are_numerals, escaped_bytes_are_meant,
    functions_have_names,
};
