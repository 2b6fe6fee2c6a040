//! Many numbers.

ghost use Rattle.std.specs.Prelude.{◌≡◌, ◌≢◌, ◌<◌, ◌^◌, pos, nat_lt, length, map, IfOk, IfErr, Ok, Err};
ghost use Rattle.alias_resolve.specs.Numbers.{numbers_from, from_start, how_many};
ghost use Rattle.alias_resolve.specs.Places.{places_in};

use crate::number::{from_start, has_passed, place_of};
use crate::select::SelectFault;
use std::alloc::Global;

/// The places of a range whose ends count from the start of the register.
pub(crate) fn range_places(
    alloc: Global,
    index: u32,
    size: u32,
    start: i128,
    step: i128,
    stop: i128,
) -> Result<Vec<u32>, SelectFault>
    requires { step ≢ pos 0 }
    ensures ok { IfOk result (λ places. places_in (λ _. SelectFault.IndexRange index 0) size 0 (numbers_from start step stop) ≡ Ok places.items) }
    ensures err { IfErr result (λ fault. fault ≢ SelectFault.Memory → places_in (λ _. SelectFault.IndexRange index 0) size 0 (numbers_from start step stop) ≡ Err fault) }
{
    if is_longer(size, start, step, stop) {
        return Err(SelectFault::IndexRange { index, member: 0 });
    }
    let mut places = Vec::new(alloc);
    let mut number = start;
    while !has_passed(step, stop, number) {
        let Some(place) = place_of(size, number) else {
            return Err(SelectFault::IndexRange { index, member: 0 });
        };
        places.push(place)?;
        let Some(next) = number.checked_add(step) else {
            return Ok(places);
        };
        number = next;
    }
    Ok(places)
}

/// Whether a range has more numbers than the register has positions, so that one of them is none.
fn is_longer(size: u32, start: i128, step: i128, stop: i128) -> bool
    requires { step ≢ pos 0 }
    ensures { result ≡ nat_lt size (how_many start step stop) }
{
    !has_passed(step, stop, start) && start.abs_diff(stop) / step.unsigned_abs() >= u128::from(size)
}

/// The places of the members of a set.
pub(crate) fn set_places(
    alloc: Global,
    index: u32,
    size: u32,
    members: &[i128],
) -> Result<Vec<u32>, SelectFault>
    requires { length members.now < 2 ^ 32 }
    ensures ok { IfOk result (λ places. places_in (λ member. SelectFault.IndexRange index member) size 0 (map (from_start size) members.now) ≡ Ok places.items) }
    ensures err { IfErr result (λ fault. fault ≢ SelectFault.Memory → places_in (λ member. SelectFault.IndexRange index member) size 0 (map (from_start size) members.now) ≡ Err fault) }
{
    let mut places = Vec::new(alloc);
    for (member, number) in members.iter().enumerate() {
        let Some(place) = place_of(size, from_start(size, *number)) else {
            return Err(SelectFault::IndexRange {
                index,
                member: member as u32,
            });
        };
        places.push(place)?;
    }
    Ok(places)
}
