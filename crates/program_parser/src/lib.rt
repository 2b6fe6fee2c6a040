// Statements and programs of a source text, read from its tokens.
//
// Each function takes a `Parser` of `qasm_parser`, and has one clause: `Parses look reader parser.old result
// parser.new`, or `Takes`, where it takes a token at least. It names the reader of lists that it follows
// (`qasm_grammar/specs/Reader.antt`), and what its answer stands for (`specs/Shows.antt`). At `Ok` the reader
// gives that value and the tokens that are left. At an error the parser stands at the token that does not go
// on. Want of memory alone has no cause. `stmt` and `member`, whose own node costs the token that is spare, also say
// that fewer tokens are left.
//
// The lists of the parser only grow. So what an answer stands for is told of every world, lists that go on from
// those of the parser (`specs/World.antt`), and lasts: nothing has to be shown again where the lists grow.
//
// `parse_program` goes through `whole` (the version and all statements), `statements` (one cycle of calls, of which
// each passes a level), `declarations`, `named` (actions, and what begins with a name), `actions`, `gates` and
// `calls`, down to `turns`, `parameters`, `lists`, `operands` and `parts`; `begins` tells a part by its first token.
// Where reading stops, `refusal` finds the rule. The layer above uses `parse_program` alone, whose contract is that
// of `qasm_stmt`. No layer calls it yet: it is to take the place of the parser there.
//
// It stands on `qasm_parser` for the parser and for expressions, on `qasm_grammar` for the grammar of statements and
// its readers, and on `qasm_ast` for the tree.
#![tactic(auto)]

mod actions;
mod begins;
mod block;
mod calls;
mod declarations;
mod gates;
mod inclusion;
mod lists;
mod named;
mod operands;
mod parameters;
mod parts;
mod program;
mod refusal;
mod statements;
mod turns;
mod whole;

pub use program::parse_program;
