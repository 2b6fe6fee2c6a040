// Names in expressions: what an expression or an operand is depends on what the names in it mean, and on no other name.
//
// It has laws alone. It stands on `qasm_ast` for trees and programs, and on `const_eval` for the definitions of expressions. A layer whose
// environment answers for the names of its program has by them what the definitions say of the open scopes, in which other names
// stand too, as those of the standard library.
//
// The layers above use:
//
// - `NamesAre` of `specs/Names.antt`, which says of what kind the names in a tree are;
// - the law `expressions_rest_on_their_names`: where two ways to say what names mean agree on the names in a tree, its constancy, its
//   constant, its walk and its value are the same, and so are what brackets, types and operands are (`specs/Laws.antt`);
// - the law `programs_name_their_names`, that each name in an expression of a program is one of its names.
#![tactic(auto)]

mod laws;

pub use laws::{expressions_rest_on_their_names, programs_name_their_names};
