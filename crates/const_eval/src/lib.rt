// Constants: whether an expression is constant, and what a constant expression is worth. Beside them stand the definitions of
// all other expressions, for the layers that walk and run programs.
//
// It stands on `qq_base` for rules and places, on `qasm_ast` for programs and their trees, on `qasm_types` for the tables
// of casts and operators and the values of types, on `angle_arith` and `word_arith` for exact arithmetic, on
// `alias_resolve` for what brackets select, and on `scope_env` for the open scopes of a program.
//
// The layers above use:
//
// - of `is_constant`, that it is true exactly where every name in the expression means a constant and the expression
//   holds no call (`is_constant` in `specs/IsConstant.antt`);
// - of `const_value`, that it answers what the expression is worth, or the first rule that it breaks with its place
//   (`constant_value` in `specs/ConstValue.antt`), and of `const_cast`, that it answers the cast or the rule that it breaks
//   (`cast_of_constant` in `specs/ConstCast.antt`); `Answers` in `specs/Answers.antt` says how a call answers for a
//   definition. `worked_constants` checks the definitions against rows worked by hand;
// - of `refusal_of_fault`, that it answers the rule by which brackets select nothing, and its place;
// - the traits `Constants` and `GateEnv`: the environments of expressions and of calls, whose meanings are finite maps;
// - of the definitions what names stand for (`specs/Things.antt`); `Walk`, a walk with its cost (`specs/Walk.antt`), and the walks
//   `constant_walk`, `indexes_walk` and `type_walk` (`specs/ConstantWalk.antt`), `expr_walk` and `cast_walk` (`specs/ExprWalk.antt`),
//   `operand_walk` (`specs/Operands.antt`), those of conditions and ranges (`specs/Ranges.antt`) and of a call of a subroutine up to its
//   body (`binding_walk` and `arguments_walk` in `specs/Binding.antt`); `is_fixed_by` and `is_static` (`specs/ConstantPlaces.antt`); and
//   `evaluated`, the value of an expression in a run (`specs/Values.antt`). `worked_expressions` checks them against rows worked
//   by hand, and `budgets_are_kept`, `walks_are_joined` and `constants_are_constant` are laws of them.
#![tactic(auto)]

mod cast;
mod constancy;
mod constant;
mod copy;
mod environment;
mod evaluate;
mod index;
mod kind;
mod laws;
mod number;
mod numbers;
mod operator;
mod part;
mod refusing;
mod register;
mod unary;
mod whole;
mod width;

pub use cast::const_cast;
pub use constancy::is_constant;
pub use constant::{AngleCount, BitRegister, Const, WholeNumber};
pub use environment::{Callable, Constants, GateEnv, Lookup, Qubits, Visible};
pub use evaluate::const_value;
pub use index::refusal_of_fault;
pub use laws::{
    budgets_are_kept, constants_are_constant, walks_are_joined, worked_constants,
    worked_expressions,
};
