// Expressions of a source text, read exactly from its tokens.
//
// It stands on `qasm_lexer` for the tokens, on `qasm_ast` for the nodes and the tree, and on
// `grammar_parts`, by whose parts the grammar is stated (`specs/Grammar.antt`), with the limits on levels
// and on chains. The layer above uses `parse_expr`: it takes the longest list of tokens that begins an
// expression, and answers its node and the place behind it, or the refusal at the token behind that list.
// A parser of statements calls the functions of `parts`.
#![tactic(auto)]

mod add;
mod expression;
mod laws;
mod parse;
pub mod parts;
mod refusal;
mod sees;
mod stop;

pub use expression::{LEVELS, parse_expr};
pub use laws::{
    bits_are_digits, expressions_are_read_exactly, expressions_have_one_tree,
    expressions_take_a_token, tokens_are_cut, worked_rows,
};
