//! What the elaboration makes of a tree.
ghost use Rattle.expr_parts.specs.TreeLaw.{TreePartsHaveValues};

use cell_exprs::{
    cast_parts_have_values, fixed_parts_have_values, operator_parts_have_values, rows_take_casts,
    scaled_parts_have_values, shifted_parts_have_values, unary_parts_have_values,
};
use const_eval::constants_are_constant;
use machine_words::numbers_are_kept;
use qasm_types::{
    casts_give_values, operators_give_values, plans_are_rows, unary_operators_give_values,
};

/// The parts of an expression have the cells of its value.
pub fn tree_parts_have_values()
    ensures { TreePartsHaveValues }
{
    fixed_parts_have_values();
    cast_parts_have_values();
    operator_parts_have_values();
    scaled_parts_have_values();
    shifted_parts_have_values();
    unary_parts_have_values();
    rows_take_casts();
    plans_are_rows();
    casts_give_values();
    operators_give_values();
    unary_operators_give_values();
    constants_are_constant();
    numbers_are_kept();
}
