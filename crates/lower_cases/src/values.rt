//! The values of expressions.

use crate::apply::apply;
use core_ir::{Core, CoreExpr};
use qq_base::NoMemory;
use std::alloc::Global;

/// A word, or 0 where there is none.
pub fn word_at(words: &[i64], place: u32) -> i64 {
    words.get(place as usize).copied().unwrap_or(0)
}

/// The values of all expressions of a core, in their order; a truth value is 0 or 1.
pub fn values(alloc: Global, core: &Core, cells: &[i64]) -> Result<Vec<i64>, NoMemory> {
    let mut words = Vec::new(alloc);
    for expr in &core.exprs {
        let word = value(*expr, cells, &words);
        words.push(word)?;
    }
    Ok(words)
}

/// The value of an expression, where those before it have these.
fn value(expr: CoreExpr, cells: &[i64], words: &[i64]) -> i64 {
    match expr {
        CoreExpr::Cell(cell) => word_at(cells, cell),
        CoreExpr::Truth(true) => 1,
        CoreExpr::Truth(false) => 0,
        CoreExpr::Number(word) => word,
        CoreExpr::Op(op, left, right) => apply(op, word_at(words, left), word_at(words, right)),
        CoreExpr::Widen(from) => word_at(words, from),
        CoreExpr::Narrow(from) => word_at(words, from) & 1,
        CoreExpr::Choose(test, first, second) => {
            if word_at(words, test) == 1 {
                word_at(words, first)
            } else {
                word_at(words, second)
            }
        }
    }
}
