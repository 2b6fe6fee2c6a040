//! One bracket.

ghost use Rattle.std.specs.Prelude.{◌≡◌, ◌≢◌, ◌<◌, ◌^◌, length, IfOk, IfErr, Ok, Err, slice_get};
ghost use Rattle.alias_resolve.specs.Places.{places_of_range, selected_by, narrowed, items_at, HasFewMembers};
ghost use Rattle.alias_resolve.specs.Seen.{seen_places};

use crate::index::IndexValue;
use crate::number::{end_or, from_start, place_of};
use crate::range::{range_places, set_places};
use crate::select::{SelectFault, Selection};
use std::alloc::{AllocError, Global};

/// The places of a written range.
fn written_range(
    alloc: Global,
    index: u32,
    size: u32,
    start: Option<i128>,
    step: i128,
    stop: Option<i128>,
) -> Result<Vec<u32>, SelectFault>
    ensures ok { IfOk result (λ places. places_of_range index size start step stop ≡ Ok places.items) }
    ensures err { IfErr result (λ fault. fault ≢ SelectFault.Memory → places_of_range index size start step stop ≡ Err fault) }
{
    if step == 0 {
        return Err(SelectFault::StepZero { index });
    }
    let down = step < 0;
    let start = end_or(size, down, start);
    let stop = end_or(size, !down, stop);
    range_places(alloc, index, size, start, step, stop)
}

/// What a bracket selects of a register.
pub(crate) fn bracket_places(
    alloc: Global,
    index: u32,
    size: u32,
    bracket: &IndexValue,
) -> Result<Selection, SelectFault>
    requires { HasFewMembers bracket.now }
    ensures ok { IfOk result (λ selection. selected_by index size bracket.now ≡ Ok (seen_places selection)) }
    ensures err { IfErr result (λ fault. fault ≢ SelectFault.Memory → selected_by index size bracket.now ≡ Err fault) }
{
    match bracket {
        IndexValue::At(position) => match place_of(size, from_start(size, *position)) {
            Some(place) => Ok(Selection {
                places: Vec::from_slice(alloc, &[place])?,
                single: true,
            }),
            None => Err(SelectFault::IndexRange { index, member: 0 }),
        },
        IndexValue::Range { start, step, stop } => Ok(Selection {
            places: written_range(alloc, index, size, *start, step.unwrap_or(1), *stop)?,
            single: false,
        }),
        IndexValue::Set(members) => Ok(Selection {
            places: set_places(alloc, index, size, &members.items)?,
            single: false,
        }),
    }
}

/// The items at the places.
pub(crate) fn items_at<T: Copy>(
    alloc: Global,
    items: &[T],
    places: &[u32],
) -> Result<Vec<T>, AllocError>
    ensures { IfOk result (λ found. found.items ≡ items_at items.now places.now) }
{
    places
        .iter()
        .filter_map(
            |place: &u32| -> Option<T>
                ensures { result ≡ slice_get items.entry.now place.now }
            { items.get(*place as usize).copied() },
        )
        .collect(alloc)
}

/// What a bracket leaves of what those before it have selected.
pub(crate) fn narrowed(
    alloc: Global,
    index: u32,
    selection: Selection,
    bracket: &IndexValue,
) -> Result<Selection, SelectFault>
    requires few { length selection.places.items < 2 ^ 32 }
    requires small { HasFewMembers bracket.now }
    ensures ok { IfOk result (λ later. narrowed index (seen_places selection) bracket.now ≡ Ok (seen_places later)) }
    ensures err { IfErr result (λ fault. fault ≢ SelectFault.Memory → narrowed index (seen_places selection) bracket.now ≡ Err fault) }
{
    if selection.single {
        return Err(SelectFault::NotRegister { index });
    }
    let size = selection.places.len() as u32;
    let inner = bracket_places(alloc, index, size, bracket)?;
    Ok(Selection {
        places: items_at(alloc, &selection.places, &inner.places)?,
        single: inner.single,
    })
}
