//! The expressions that are reached.

ghost use Rattle.std.specs.Prelude.{◌≡◌, ◌<◌, length, slice_get, Some, All, IfOk, OnOk};
ghost use Rattle.std.specs.Ordering.{nat_cmp};
ghost use Rattle.std.specs.BTreeSet.{insert_key};
ghost use Rattle.core_ir.specs.Laws.{NameEarlier};
ghost use Rattle.core_ir.specs.Size.{operands_of};
ghost use Rattle.expr_lower.specs.Order.{IsOrder, put_all};

use core_ir::CoreExpr;
use qq_base::NoMemory;
use std::alloc::Global;
use std::collections::BTreeSet;

/// The numbers of all expressions that the given ones reach, ascending, each once.
pub fn reached(alloc: Global, exprs: &[CoreExpr], roots: &[u32]) -> Result<Vec<u32>, NoMemory>
    requires earlier { NameEarlier exprs.now (length exprs.now) }
    requires within { All (λ e. e < length exprs.now) roots.now }
    ensures { IfOk result (λ order. IsOrder exprs.now roots.now order.items) }
{
    let mut pending = BTreeSet::new(alloc);
    for root in roots {
        put(&mut pending, *root)?;
    }
    let mut order = Vec::new(alloc);
    while let Some(k) = pending.pop_last() {
        order.push(k)?;
        put_operands(&mut pending, exprs[k as usize])?;
    }
    order.reverse();
    Ok(order)
}

fn put(pending: &mut BTreeSet<u32>, k: u32) -> Result<(), NoMemory>
    ensures { OnOk result (pending.new.keys ≡ insert_key nat_cmp pending.old.keys k) }
{
    pending.insert(k)?;
    Ok(())
}

/// Puts in the expressions that an expression names.
fn put_operands(pending: &mut BTreeSet<u32>, expr: CoreExpr) -> Result<(), NoMemory>
    ensures { OnOk result (pending.new.keys ≡ put_all pending.old.keys (operands_of (Some expr))) }
{
    match expr {
        CoreExpr::Cell(_) | CoreExpr::Truth(_) | CoreExpr::Number(_) => {}
        CoreExpr::Op(_, a, b) => {
            put(pending, a)?;
            put(pending, b)?;
        }
        CoreExpr::Widen(a) | CoreExpr::Narrow(a) => put(pending, a)?,
        CoreExpr::Choose(test, a, b) => {
            put(pending, test)?;
            put(pending, a)?;
            put(pending, b)?;
        }
    }
    Ok(())
}
