// The tokens of QIR text, and the laws of its grammar.
//
// It stands on `qir_module`, whose `specs/Tokens.antt` says what a token is and which tokens a text has, and on
// `qq_base` for places. `next_token` finds one token and takes no memory; `qir_tokens` finds all of them. The layer
// above, the reader, uses the contract of `next_token` and the laws, which say that each text has one list of tokens
// or one first breach of a rule, and that each list of tokens is a module or is refused, by one rule at one place.
#![tactic(auto)]

mod laws;
mod lexer;
mod piece;
mod rule;
mod scan;
#[cfg(test)]
mod tests;
mod token;

pub use laws::{
    answers_are_right, modules_are_not_refused, modules_are_one, readings_are_one,
    refusals_are_one, texts_are_answered, texts_have_one_answer, tokens_are_right,
};
pub use lexer::{MOST_BYTES, end_of, next_token, qir_tokens};
pub use rule::{TextFault, TextRefusal, TextRule};
pub use token::{QirKind, QirToken};
