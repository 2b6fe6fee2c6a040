// The types of expressions, and the two tables of the language: which casts there are, and at which types each operator
// takes its operands.
//
// It stands on `qasm_ast` for the operators, on `word_arith` for the values of a word type, and on the definitions of
// `angle_arith` for fractions of pi. No call takes memory or refuses.
//
// The layers above use:
//
// - of `cast_of`, that it is true exactly where the table of casts has the row (`HasCast` in `specs/Casts.antt`);
// - of `operator_type` and `unary_type`, that an answer is a row of the table of operators and each row is the answer
//   (`row`), so that None comes exactly where there is no row (`none`): `HasRow` and `HasUnaryRow` in
//   `specs/Operators.antt`, with the word type at which operands meet in `specs/Words.antt`;
// - of these three also that they are the functions of `specs/Plans.antt` (`test`, `plan`), for a layer that computes, whose
//   plans are rows by the law `plans_are_rows`;
// - of `cells`, the number of a variable's cells;
// - that the types of an `Operand` and of an `OpPlan` are types of the language (`IsType` in `specs/Types.antt`): a word's
//   width is from 1 to 64, an angle's from 1 to 32.
//
// `specs/Values.antt` has the values of the types, and what casts and operators give, for the layers that compute them
// (`cast`, `result_of`, `apply_unary`); `worked_values` checks it against rows worked by hand. That a cast gives a value of its
// type, and an operator one of the type that its row has as the result, are the laws `casts_give_values`,
// `operators_give_values` and `unary_operators_give_values` (`specs/Laws.antt`).
//
// `Ty` is a plain enum, of which such a fact cannot be said in its declaration; it is part of the structs that hold one.
#![tactic(auto)]

mod cast;
mod laws;
mod operand;
mod operator;
mod plan;
#[cfg(test)]
mod tests;
mod ty;
mod word;

pub use cast::cast_of;
pub use laws::{
    casts_give_values, operators_give_values, plans_are_rows, unary_operators_give_values,
    worked_values,
};
pub use operand::{OpPlan, Operand};
pub use operator::{operator_type, unary_type};
pub use ty::{Ty, cells};
