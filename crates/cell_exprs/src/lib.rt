// Casts and operators of the source as expressions over the cells of the core.
//
// It stands on `qasm_types` for values and for what casts and operators give, on `core_ir` for expressions over cells, and on
// `machine_words` for what instructions give on words. The layer above, which elaborates expressions, uses the laws: where parts
// have the cells of values, the parts of a cast or of an operator on them have the cells of what it gives (`specs/Parts.antt` has
// the parts, `specs/CellValues.antt` the cells of a value).
#![tactic(auto)]

mod laws;

pub use laws::{
    cast_parts_have_values, fixed_parts_have_values, operator_parts_have_values, rows_take_casts,
    scaled_parts_have_values, shifted_parts_have_values, unary_parts_have_values,
};
