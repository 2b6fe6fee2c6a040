// Modules from their text: a reader of QIR text.
//
// It stands on `qir_lexer` for the tokens of a text and its refusals, and on `qir_module` for modules and for the
// definitions of what a text of a module is (`specs/Tokens.antt`, `Words.antt`, `Grammar.antt`, `Spoilt.antt`). The layers
// above use the contract of `read_module`.
#![tactic(auto)]

mod block;
mod bytes;
mod class;
mod cursor;
mod declaration;
mod ending;
mod instruction;
mod operand;
mod peek;
mod reader;
mod stop;
mod words;

pub use reader::read_module;
