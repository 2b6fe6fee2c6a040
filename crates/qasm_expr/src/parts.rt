//! What a parser of statements calls: expressions, types, index brackets and lists, the tests of single
//! tokens, and new nodes and names. Each stops at the token that does not go on, as `Stop` says.

pub use crate::add::{add, intern, name};
pub use crate::parse::{between, expr, indexes, list, scalar};
pub use crate::refusal::{is_left_out, place_at};
pub use crate::sees::{
    begins_expr, begins_type, expect, is_expr_kind, is_type_kind, keyword_number, kind_at,
    mark_number, open, sees, sees_word,
};
pub use crate::stop::Stop;
