// The grammar of statements and programs, and readers of lists of tokens that read them exactly.
//
// It stands on `qasm_expr` for the grammar of expressions and types, on `qasm_lexer` for the tokens, on
// `qasm_ast` for the tree, and on `grammar_parts`, by whose parts the grammar is stated: `specs/Parts.antt` and
// `specs/Grammar.antt` have it, with the limits on levels and on chains, and `specs/Reader.antt` a reader beside
// each part. `specs/Stops.antt` says by which rule a list of tokens is refused that is no program, and where. The
// functions here are the laws. The layer above, `qasm_stmt`, has the parser.
#![tactic(auto)]

mod laws;

pub use laws::{
    answers_are_right, expressions_are_low, programs_are_not_refused, programs_are_read_exactly,
    programs_fit_their_room, programs_have_one_tree, refusals_are_one, worked_refusals,
    worked_rows,
};
