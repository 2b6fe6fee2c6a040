//! The rules that are asked of each call alone, and those on the whole module.

ghost use Rattle.std.specs.Prelude.{◌≡◌, map};
ghost use Rattle.qir_module.specs.declared.function.Function.{Function as FunctionValue};
ghost use Rattle.qir_module.specs.Passes.{flags_kept, entry_kept, qubit_ids_kept, result_ids_kept, declarations_kept, calls_kept, initialize_kept, constants_kept, distinct_qubits_kept, label_texts_kept, are_distinct};
ghost use Rattle.qir_module.specs.Broken.{first_breach};
ghost use Rattle.profile_check.specs.Walk.{seen};

use crate::calls::{
    CallsFit, Declared, DistinctQubits, Ids, IdsBelow, InitializedFirst, LabelsExist, has_function,
};
use crate::constants::ConstantsFit;
use crate::place::Place;
use crate::walk::first_refused;
use qir_module::{Function, Module, Profile};

#[tactic(auto, using(crate::proofs::Heads::flags_at))]
pub(crate) fn flags(module: &Module) -> Option<Place>
    ensures { seen result ≡ first_breach «module».now flags_kept }
{
    if module.major == 2 && module.minor == 0 && !module.dynamic_qubits && !module.dynamic_results {
        None
    } else {
        Some(Place::FIRST)
    }
}

#[tactic(auto, using(crate::proofs::Heads::entry_at))]
pub(crate) fn entry(module: &Module) -> Option<Place>
    ensures { seen result ≡ first_breach «module».now entry_kept }
{
    match module.profile {
        Profile::Adaptive => None,
        Profile::Base => Some(Place::FIRST),
    }
}

#[tactic(auto, using(crate::proofs::Heads::qubit_ids_at))]
pub(crate) fn qubit_ids(module: &Module) -> Option<Place>
    ensures { seen result ≡ first_breach «module».now qubit_ids_kept }
{
    let rule = IdsBelow {
        ids: Ids::Qubits,
        limit: module.qubits,
    };
    first_refused(&rule, &module.blocks.items)
}

#[tactic(auto, using(crate::proofs::Heads::result_ids_at))]
pub(crate) fn result_ids(module: &Module) -> Option<Place>
    ensures { seen result ≡ first_breach «module».now result_ids_kept }
{
    let rule = IdsBelow {
        ids: Ids::Results,
        limit: module.results,
    };
    first_refused(&rule, &module.blocks.items)
}

/// Whether no function stands twice.
fn are_different(functions: &[Function]) -> bool
    ensures { result ≡ are_distinct (map (λ (f : FunctionValue). f.0) functions.now) }
{
    for (i, function) in functions.iter().enumerate() {
        if has_function(&functions[i + 1..], *function) {
            return false;
        }
    }
    true
}

#[tactic(auto, using(crate::proofs::Heads::declared_twice_at, crate::proofs::Heads::declared_once_at))]
pub(crate) fn declarations(module: &Module) -> Option<Place>
    ensures { seen result ≡ first_breach «module».now declarations_kept }
{
    if !are_different(&module.declarations.items) {
        return Some(Place::FIRST);
    }
    let rule = Declared {
        declarations: &module.declarations.items,
    };
    first_refused(&rule, &module.blocks.items)
}

#[tactic(auto, using(crate::proofs::Heads::calls_at))]
pub(crate) fn calls(module: &Module) -> Option<Place>
    ensures { seen result ≡ first_breach «module».now calls_kept }
{
    first_refused(&CallsFit, &module.blocks.items)
}

#[tactic(auto, using(crate::proofs::Heads::initialize_at))]
pub(crate) fn initialize(module: &Module) -> Option<Place>
    ensures { seen result ≡ first_breach «module».now initialize_kept }
{
    first_refused(&InitializedFirst, &module.blocks.items)
}

#[tactic(auto, using(crate::proofs::Heads::constants_at))]
pub(crate) fn constants(module: &Module) -> Option<Place>
    ensures { seen result ≡ first_breach «module».now constants_kept }
{
    first_refused(&ConstantsFit, &module.blocks.items)
}

#[tactic(auto, using(crate::proofs::Heads::distinct_qubits_at))]
pub(crate) fn distinct_qubits(module: &Module) -> Option<Place>
    ensures { seen result ≡ first_breach «module».now distinct_qubits_kept }
{
    first_refused(&DistinctQubits, &module.blocks.items)
}

#[tactic(auto, using(crate::proofs::Heads::label_texts_at))]
pub(crate) fn label_texts(module: &Module) -> Option<Place>
    ensures { seen result ≡ first_breach «module».now label_texts_kept }
{
    let rule = LabelsExist {
        count: module.labels.items.len(),
    };
    first_refused(&rule, &module.blocks.items)
}
