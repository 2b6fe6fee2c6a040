// Values in the middle of a run of a source program: what variables, constants and expressions over them are worth.
//
// It stands on `const_eval` for constants, their casts and the definitions of values in a run, on `qasm_types` for types, their
// values and the tables of casts and operators, on `word_arith` for words, on `qasm_ast` for the names of operators, on
// `angle_arith` for fractions of pi, and on `qq_base` for want of memory.
//
// A `TypedValue` is seen as a value with its type (`seen` in `specs/Seen.antt`). The contracts are the definitions of
// `const_eval`, `specs/Values.antt`, for all values; no program has to be accepted for them. The layers above use:
//
// - of `value_of_constant`, that it is the constant with its type;
// - of `cast_value`, that it gives the value cast to a type that can be written (`cast_to`), of `zero_value`, that it gives the
//   zero of the type (`zero_of`), and of `holds`, whether a condition of the value holds (`holds`);
// - of `unary_value`, that it gives what the operator gives (`unary_on`).
#![tactic(auto)]

mod bits;
mod cast;
mod constant;
mod kind;
mod number;
mod unary;
mod value;

pub use cast::{cast_value, holds, zero_value};
pub use constant::value_of_constant;
pub use unary::unary_value;
pub use value::{Register, TypedValue, Word};
