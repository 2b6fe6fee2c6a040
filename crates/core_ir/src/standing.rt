//! How often statements stand in bodies, counted for many statements at once.

ghost use Rattle.std.specs.Prelude.{◌≡◌, ◌+◌, ◌<◌, ◌↔◌, [], ◌∷◌, min, Some, IsTrue, EachIndex, length, slice_index};
ghost use Rattle.core_ir.specs.Once.{AreFew, StandFrom};
ghost use Rattle.core_ir.specs.WellFormed.{inner_of, bodies_in, times, StandOnce};

use crate::statement::CoreStmt;

/// Whether each statement stands once in the given body and in those of the statements. As many are counted at once as
/// there are places.
pub fn stand_once(body: &[u32], stmts: &[CoreStmt], seen: &mut [u8]) -> bool
    requires { 0 < length seen.old }
    ensures { IsTrue result ↔ StandOnce body.now stmts.now }
{
    let count = stmts.len();
    let mut start = 0;
    while start < count {
        let size = seen.len().min(count - start);
        if !stand_from(start, body, stmts, &mut seen[..size]) {
            return false;
        }
        start += size;
    }
    true
}

/// Whether the statements from `start` on, one for each place, stand once.
#[tactic(auto, using(crate::proofs::Counting::one_counted))]
fn stand_from(start: usize, body: &[u32], stmts: &[CoreStmt], seen: &mut [u8]) -> bool
    ensures { IsTrue result ↔ StandFrom start (length seen.old) body.now stmts.now }
{
    clear(seen);
    count_in(start, body, seen);
    count_all(start, stmts, seen);
    are_one(seen)
}

fn clear(seen: &mut [u8])
    ensures { EachIndex seen.new (λ i. slice_index seen.new i ≡ 0) }
{
    for n in seen.iter_mut() {
        *n = 0;
    }
}

fn are_one(seen: &[u8]) -> bool
    ensures { IsTrue result ↔ EachIndex seen.now (λ i. slice_index seen.now i ≡ 1) }
{
    seen.iter().all(|n| *n == 1)
}

/// Counts the statements from `start` on that stand in a body, up to two of each.
fn count_in(start: usize, body: &[u32], seen: &mut [u8])
    requires { AreFew seen.old }
    ensures few { AreFew seen.new }
    ensures counts { EachIndex seen.new (λ i. slice_index seen.new i ≡ min 2 (slice_index seen.old i + times (start + i) body.now)) }
{
    for j in body {
        count_one(start, *j as usize, seen);
    }
}

/// Counts a statement, if it has a place.
#[tactic(auto, using(crate::proofs::Counting::counted_other))]
fn count_one(start: usize, number: usize, seen: &mut [u8])
    requires { AreFew seen.old }
    ensures few { AreFew seen.new }
    ensures counts { EachIndex seen.new (λ i. slice_index seen.new i ≡ min 2 (slice_index seen.old i + times (start + i) (number ∷ []))) }
{
    if number < start {
        return;
    }
    let place = number - start;
    if place >= seen.len() {
        return;
    }
    seen[place] = if seen[place] == 0 { 1 } else { 2 };
}

/// Counts those that stand in the bodies of a statement.
#[tactic(auto, using(crate::proofs::Bodies::times_append))]
fn count_inner(start: usize, stmt: &CoreStmt, seen: &mut [u8])
    requires { AreFew seen.old }
    ensures few { AreFew seen.new }
    ensures counts { EachIndex seen.new (λ i. slice_index seen.new i ≡ min 2 (slice_index seen.old i + times (start + i) (inner_of (Some stmt.now)))) }
{
    match stmt {
        CoreStmt::If(_, first, second) => {
            count_in(start, &first.items, seen);
            count_in(start, &second.items, seen);
        }
        CoreStmt::Block(body) | CoreStmt::Loop(body) => count_in(start, &body.items, seen),
        _ => {}
    }
}

/// Counts those that stand in the bodies of the statements.
fn count_all(start: usize, stmts: &[CoreStmt], seen: &mut [u8])
    requires { AreFew seen.old }
    ensures few { AreFew seen.new }
    ensures counts { EachIndex seen.new (λ i. slice_index seen.new i ≡ min 2 (slice_index seen.old i + times (start + i) (bodies_in stmts.now))) }
{
    for stmt in stmts {
        count_inner(start, stmt, seen);
    }
}
