//! Brackets one behind another.

ghost use Rattle.std.specs.Prelude.{◌≡◌, ◌≢◌, ◌<◌, ◌^◌, length as count, All, IfOk, IfErr, Ok, Err};
ghost use Rattle.std.specs.List.{range_with_len};
ghost use Rattle.alias_resolve.specs.Places.{positions_of, selected_of, AreFew};
ghost use Rattle.alias_resolve.specs.Seen.{seen_places, seen_qubits};

use crate::bracket::{bracket_places, items_at, narrowed};
use crate::index::IndexValue;
use crate::select::{QubitList, SelectFault, Selection};
use qq_base::QubitId;
use std::alloc::{AllocError, Global};

/// The places that brackets select of a register of so many positions.
///
/// The first fault is answered: `NotRegister` at a bracket behind a single position, `StepZero` at a range whose
/// step is 0, `IndexRange` at a bracket or a member of a set that is outside what stands before it.
pub fn positions(alloc: Global, length: u32, index: &[IndexValue]) -> Result<Selection, SelectFault>
    requires { AreFew index.now }
    ensures ok { IfOk result (λ selection. positions_of length index.now ≡ Ok (seen_places selection)) }
    ensures err { IfErr result (λ fault. fault ≢ SelectFault.Memory → positions_of length index.now ≡ Err fault) }
    ensures within { IfOk result (λ selection. All (λ place. place < length) selection.places.items) }
    ensures few { IfOk result (λ selection. count selection.places.items < 2 ^ 32) }
{
    let Some((first, later)) = index.split_first() else {
        return Ok(Selection {
            places: all_places(alloc, length)?,
            single: false,
        });
    };
    let mut selection = bracket_places(alloc, 0, length, first)?;
    for (k, bracket) in later.iter().enumerate() {
        selection = narrowed(alloc, k as u32 + 1, selection, bracket)?;
    }
    Ok(selection)
}

/// All places of a register.
fn all_places(alloc: Global, size: u32) -> Result<Vec<u32>, AllocError>
    ensures { IfOk result (λ places. places.items ≡ range_with_len 0 size) }
{
    let mut places = Vec::new(alloc);
    for place in 0..size {
        places.push(place)?;
    }
    Ok(places)
}

/// The qubits that brackets select of a register, with the faults of `positions`.
pub fn qubits_of(
    alloc: Global,
    register: &[QubitId],
    index: &[IndexValue],
) -> Result<QubitList, SelectFault>
    requires ids { count register.now < 2 ^ 32 }
    requires index { AreFew index.now }
    ensures ok { IfOk result (λ list. selected_of register.now index.now ≡ Ok (seen_qubits list)) }
    ensures err { IfErr result (λ fault. fault ≢ SelectFault.Memory → selected_of register.now index.now ≡ Err fault) }
{
    let selection = positions(alloc, register.len() as u32, index)?;
    Ok(QubitList {
        ids: items_at(alloc, register, &selection.places)?,
        single: selection.single,
    })
}
