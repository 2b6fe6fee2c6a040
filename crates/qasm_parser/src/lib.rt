// Expressions of a source text, read from its tokens by a parser that is one value.
//
// A `Parser` holds a text, its tokens, how many of them were taken, and the lists of names, expressions and
// statements that are being read. Contracts see it as a `State` (`specs/State.antt`): the text, the tokens,
// those that are left, and the lists. What always holds of it is its invariant (`specs/Inside.antt`): the
// tokens are those of the text, and for each token that is left there is a number for one more name and one
// more node. Only the methods of `parser.rt` reach the fields.
//
// A method that reads has one clause, `Reads shows reader self.old result self.new`. It names the reader of
// lists that it follows (`qasm_expr/specs/Reader.antt`), which is told exact by the laws of `qasm_expr`, and
// what its answer stands for (`specs/Shows.antt`). At `Ok` the reader gives that value and the tokens that are
// left; at an error the parser stands at the token that does not go on, so that an error has no place of its
// own. Want of memory alone has no cause.
//
// The lists only grow, at an error too (`Longer`): a parser may go on with lists of which nothing is known.
// So what an answer stands for is told in a form that lasts (`Lasts`): it holds whatever comes behind what is
// in the lists, and however deep a tree is looked at. Nothing has to be shown again where they grow.
//
// The counts are told by the two numbers of `After`, a part of each `Reads`. The names have grown by no more
// than the tokens that were taken, and so have the nodes, those of expressions and of statements together,
// with so many tokens to spare. `Takes` is `Reads` with one token to spare: a mark, a word, a name, a type,
// or what stands in brackets. A new node costs one, so the node of an operator, a name, a call or a cast is
// paid by its own token, and that it has a number of 32 bits follows. No test of a length is needed, and
// none answers want of memory.
//
// It stands on `qasm_lexer` for the tokens, on `qasm_ast` for the nodes and their trees, and on `qasm_expr`
// for the grammar and its readers. `parse_expr` has the contract that it has in `qasm_expr`. No layer calls
// it yet: it is to take the place of the parser there, and a parser of statements is to call the methods.
#![tactic(auto)]

mod expr;
mod expression;
mod kinds;
mod literal;
mod names;
mod parser;
mod refusal;
mod stop;
#[cfg(test)]
mod tests;
mod tokens;

pub use expression::{LEVELS, parse_expr};
pub use parser::Parser;
pub use stop::Stop;
