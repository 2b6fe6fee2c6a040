// A plain reading of the tables of operators and casts.

mod casts;
mod constants;
mod numbers;
mod rows;
mod values;

pub use casts::{cast, has_cast};
pub use constants::{Answer, Spot, binary_constant, cast_constant, unary_constant};
pub use rows::{result_type, unary_type};
pub use values::{result, unary_result};
