// What the elaboration makes of an expression, as a function on its tree, and that this has the value of the expression.
//
// It stands on `const_eval` for the walk and the values of expressions, and on `cell_exprs` for casts and operators over cells. The layer above,
// whose code follows the function `parts_of` of `specs/TreeParts.antt`, uses the environment of an expression (`ExprEnv`), what it means that a
// store agrees with the values of names (`Agrees` of `specs/Variables.antt`), and the law `tree_parts_have_values`: in each such store the parts
// have the cells of the expression's value, if each constant that is met is a value of its type (`AreSound` of `specs/TreeLaw.antt`).
#![tactic(auto)]

mod environment;
mod laws;

pub use environment::{ExprEnv, Variable};
pub use laws::tree_parts_have_values;
