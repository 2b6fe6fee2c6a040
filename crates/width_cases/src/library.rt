// What the crates answer for the same operands.

mod constants;
mod expression;
mod words;

pub use constants::{constant, seen};
pub use expression::{Expression, cast_answer};
pub use words::{has_cast, result_type, unary_type, unary_word, word_cast, word_result};
