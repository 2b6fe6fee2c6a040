// Lists of instructions: what the modifiers of a call of a gate make of the list of the gate, with what the walk costs; the turns
// that the instructions name, and the answer that a list is.
//
// It stands on `qq_base` for rules and places, on `gate_table` for the gates of the target, on `word_arith` for words of 64 bits,
// and on `const_eval` for walks with their costs and for answers that may be refused.
//
// The layers above use:
//
// - of `modified_list`, that it answers the list that `modified_list` of `specs/Modifiers.antt` defines, with its cost, or its first
//   refusal, whatever the turns of the list are worth (`exact`); of `control_count`, how many operands are controls;
// - of `finished`, that the answer is seen as the instructions of the list (`exact`), and which turns it has (`turns`);
// - the types that pass through a walk: `Budget`, what may still be spent, `Turns`, the turns that were made, of which each names
//   earlier ones and no argument twice, and `Member`, an instruction with its turns by their places.
//
// `specs/Paid.antt` says how a call answers for a walk (`AnswersWithin`), and has the laws of walks that follow one another;
// `specs/Growing.antt` says what a walk leaves of the turns (`Grows`). The law `inverses_of_lists_return` is about the definitions.
#![tactic(auto)]

mod answer;
mod budget;
mod expansion;
mod laws;
mod list;
mod member;
mod modified;
mod refusing;
#[cfg(test)]
mod tests;
mod turns;
mod work;

pub use answer::finished;
pub use budget::Budget;
pub use expansion::{Expansion, GateArg, LeafCall, TurnExpr};
pub use laws::inverses_of_lists_return;
pub use list::append;
pub use member::{Amount, Member};
pub use modified::{Modified, control_count, modified_list};
pub use refusing::{push, refused};
pub use turns::Turns;
pub use work::Work;
