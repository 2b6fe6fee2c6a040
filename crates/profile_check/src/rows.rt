//! Tables with rows that grow.

ghost use Rattle.std.specs.Prelude.{◌≡◌, ℕ, [], OnOk, IfOk, Some, length};
ghost use Rattle.profile_check.specs.Names.{is_at};
ghost use Rattle.profile_check.specs.Ways.{row as row_of, Adds};

use qq_base::NoMemory;
use std::alloc::Global;

/// As many empty rows.
#[tactic(auto, using(crate::proofs::WaysLemmas::row_pushed))]
pub(crate) fn empty_rows<T: Drop>(alloc: Global, count: usize) -> Result<Vec<Vec<T>>, NoMemory>
    ensures long { IfOk result (λ rows. length rows.items ≡ count) }
    ensures empty { IfOk result (λ rows. (b : ℕ) → row_of rows.items b ≡ []) }
{
    let mut rows = Vec::new(alloc);
    for _ in 0..count {
        rows.push(Vec::new(alloc))?;
    }
    Ok(rows)
}

/// Appends to a row, if it is there.
pub(crate) fn push_in_row<T: Copy>(
    rows: &mut Vec<Vec<T>>,
    to: usize,
    one: T,
) -> Result<(), NoMemory>
    ensures { OnOk result (Adds rows.old.items rows.new.items (λ b. is_at b (Some to)) one) }
{
    if to < rows.len() {
        rows[to].push(one)?;
    }
    Ok(())
}
