//! Whether a case meets what the calls ask of their callers.

ghost use Rattle.std.specs.Prelude.{◌+◌, ◌<◌, ◌↔◌, ◌^◌, IsTrue, All, length};
ghost use Rattle.std.specs.List.Sorted.{IsStrictlyIncreasing};
ghost use Rattle.phi_place.specs.Phis.{first_values};
ghost use Rattle.core_cases.specs.Tested.{IsBelowFirst, Ascends};

use phi_place::CellState;

pub fn are_within(numbers: &[u32], count: usize) -> bool
    ensures { IsTrue result ↔ All (λ k. k < count) numbers.now }
{
    numbers.iter().all(|k| (*k as usize) < count)
}

/// Whether there are registers for so many more.
pub fn has_room(next: u32, count: usize) -> bool
    ensures { IsTrue result → next + count < 2 ^ 32 }
{
    next < 1_000_000 && count < 1_000_000
}

/// Whether there is a way, and there are registers for so many more as it has cells.
pub fn can_join(next: u32, ways: &[CellState]) -> bool
    ensures some { IsTrue result → 0 < length ways.now }
    ensures room { IsTrue result → next + length (first_values ways.now) < 2 ^ 32 }
{
    match ways {
        [first, ..] => has_room(next, first.values.len()),
        [] => false,
    }
}

fn is_below_first(number: u32, numbers: &[u32]) -> bool
    ensures { IsTrue result ↔ IsBelowFirst number numbers.now }
{
    match numbers {
        [] => true,
        [first, ..] => number < *first,
    }
}

fn is_ascending(numbers: &[u32]) -> bool
    ensures { IsTrue result ↔ Ascends numbers.now }
{
    match numbers {
        [] => true,
        [first, rest @ ..] => is_below_first(*first, rest) && is_ascending(rest),
    }
}

#[tactic(auto, using(crate::proofs::Conditions::increasing))]
pub fn ascend(numbers: &[u32]) -> bool
    ensures { IsTrue result → IsStrictlyIncreasing numbers.now }
{
    is_ascending(numbers)
}
