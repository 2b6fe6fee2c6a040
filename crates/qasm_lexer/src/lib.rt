// The tokens of a source text: what is spelled at each place, by the longest spelling, or the first
// refusal.
//
// It stands on `qq_base` for places and refusals, and on `unicode` for the general categories of the
// characters of names. The layers above use the tokens of a whole text.
#![tactic(auto)]

mod gaps;
mod laws;
mod lexer;
mod numbers;
mod pieces;
mod scan;
mod tables;
#[cfg(test)]
mod tests;
mod token;

pub use laws::{
    texts_have_a_reading, texts_have_one_reading, tokens_are_bounded, written_tokens_are_read,
};
pub use lexer::{MOST_BYTES, end_of, lex, next_token};
pub use token::{Keyword, Mark, Token, TokenKind};
