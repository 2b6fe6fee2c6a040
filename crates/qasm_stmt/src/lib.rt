// The parser of programs: the tree of the tokens of a text, or the rule and the place of its refusal.
//
// It stands on `qasm_grammar`, by whose readers of lists each function here is stated, on `qasm_expr` for
// expressions and types, on `qasm_lexer` for the tokens and on `qasm_ast` for the tree. `parse_program` goes
// through `whole` (the version and all statements), `statements` (one cycle of calls, of which each passes a
// level), `declarations`, `actions`, `gates` and `calls` (single lines), down to `operands`, `parameters`,
// `names` and `expressions`. `arena` has the lists that grow on the way; `specs/Seen.antt` says what a part that
// was read stands for. Where reading stops, `refusal` finds the rule. The layer above uses `parse_program` alone.
#![tactic(auto)]

mod actions;
mod arena;
mod begins;
mod block;
mod calls;
mod declarations;
mod expressions;
mod gates;
mod names;
mod operands;
mod parameters;
mod program;
mod refusal;
mod statements;
mod turns;
mod whole;
mod words;

pub use program::parse_program;
