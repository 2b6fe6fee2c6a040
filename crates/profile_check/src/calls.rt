//! The rules on calls, one call at a time.

ghost use Rattle.std.specs.Prelude.{◌≡◌, ℕ, Bool, ◌&&◌, not, nat_lt, nat_eq, length, map, if◌then◌else◌};
ghost use Rattle.std.specs.List.{list_all};
ghost use Rattle.qir_module.specs.Functions.{row_of};
ghost use Rattle.qir_module.specs.Numbered.{is_among, functions_of};
ghost use Rattle.qir_module.specs.Passes.{is_qubit, ids_where, instr_ids, item_ids, takes as kind_takes, takes_all, takes_of, call_fits, instr_fits, item_fits, are_distinct, item_labels, instr_labels, label_in, item_functions, initializes, is_only_zero, is_null};
ghost use Rattle.std.specs.List.{flat_map};
ghost use Rattle.qir_module.specs.declared.function.Function.{Function as FunctionValue};
ghost use Rattle.qir_module.specs.Kinds.{kind_of};
ghost use Rattle.profile_check.specs.Calls.{wanted, ids_below, labels_below, called_among};

use crate::item::Item;
use crate::table::{is_initialize, kinds};
use crate::walk::Rule;
use qir_module::{Arg, Function, Instr, Kind};

/// Which ids of a call.
#[derive(Clone, Copy, Debug, PartialEq, Eq)]
pub(crate) enum Ids {
    Qubits,
    Results,
}

/// Whether a function takes such ids where it takes something of a kind.
fn are_wanted(ids: Ids, kind: Kind) -> bool
    ensures { result ≡ wanted ids (kind_of kind) }
{
    match (ids, kind) {
        (Ids::Qubits, Kind::Qubit) | (Ids::Results, Kind::Result) => true,
        _ => false,
    }
}

/// Whether all ids among some arguments are below a number.
fn are_below(ids: Ids, limit: u32, kinds: &[Kind], args: &[Arg]) -> bool
    ensures { result ≡ list_all (λ n. nat_lt n limit) (ids_where (wanted ids) (map kind_of kinds.now) args.now) }
{
    match (kinds.split_first(), args.split_first()) {
        (Some((kind, kinds)), Some((arg, args))) => {
            let fits = match *arg {
                Arg::Id(id) => !are_wanted(ids, *kind) || id < limit,
                _ => true,
            };
            fits && are_below(ids, limit, kinds, args)
        }
        _ => true,
    }
}

/// Ids are below a number.
#[derive(Clone, Copy)]
pub(crate) struct IdsBelow {
    pub ids: Ids,
    pub limit: u32,
}

impl Rule for IdsBelow {
    ghost keeps = { λ r. ids_below (wanted r.ids) r.limit };

    #[tactic(auto, unfolding(crate::specs::Calls::ids_below))]
    fn is_kept(&self, _block: usize, _item: usize, it: Item<'_>) -> bool {
        match it {
            Item::Instr(Instr::Call { function, args, .. }) => {
                are_below(self.ids, self.limit, kinds(*function), &args.items)
            }
            _ => true,
        }
    }
}

/// Whether an argument is of a kind.
fn is_of(kind: Kind, arg: Arg) -> bool
    ensures { result ≡ kind_takes (kind_of kind) arg }
{
    match (kind, arg) {
        (Kind::Number, Arg::Number(_)) | (Kind::Truth, Arg::Truth(_)) => true,
        (Kind::Null | Kind::Qubit | Kind::Result, Arg::Id(_)) => true,
        (Kind::Label, Arg::Text(_)) => true,
        _ => false,
    }
}

/// Whether arguments have the number and the kinds that are taken.
fn are_of(kinds: &[Kind], args: &[Arg]) -> bool
    ensures { result ≡ takes_all (map kind_of kinds.now) args.now }
{
    match (kinds.split_first(), args.split_first()) {
        (Some((kind, kinds)), Some((arg, args))) => is_of(*kind, *arg) && are_of(kinds, args),
        (None, None) => true,
        _ => false,
    }
}

/// Whether a call is one that the table allows.
fn is_allowed(register: Option<u32>, function: Function, args: &[Arg]) -> bool
    ensures { result ≡ call_fits (row_of function.0) register args.now }
{
    match function.row() {
        None => false,
        Some(row) => are_of(row.takes, args) && row.gives == register.is_some(),
    }
}

/// Arguments have the number and kinds of the table, and a register takes what the function gives.
#[derive(Clone, Copy)]
pub(crate) struct CallsFit;

impl Rule for CallsFit {
    ghost keeps = { λ r b i item. item_fits item };

    fn is_kept(&self, _block: usize, _item: usize, it: Item<'_>) -> bool {
        match it {
            Item::Instr(
                Instr::Call {
                    register,
                    function,
                    args,
                },
            ) => { is_allowed(*register, *function, &args.items) }
            _ => true,
        }
    }
}

/// Whether an id is among the qubits of some arguments.
fn has_qubit(id: u32, kinds: &[Kind], args: &[Arg]) -> bool
    ensures { result ≡ is_among (ids_where is_qubit (map kind_of kinds.now) args.now) id }
{
    match (kinds.split_first(), args.split_first()) {
        (Some((Kind::Qubit, kinds)), Some((Arg::Id(other), args))) => {
            *other == id || has_qubit(id, kinds, args)
        }
        (Some((_, kinds)), Some((_, args))) => has_qubit(id, kinds, args),
        _ => false,
    }
}

/// Whether the qubits of some arguments differ.
fn qubits_differ(kinds: &[Kind], args: &[Arg]) -> bool
    ensures { result ≡ are_distinct (ids_where is_qubit (map kind_of kinds.now) args.now) }
{
    match (kinds.split_first(), args.split_first()) {
        (Some((Kind::Qubit, kinds)), Some((Arg::Id(id), args))) => {
            !has_qubit(*id, kinds, args) && qubits_differ(kinds, args)
        }
        (Some((_, kinds)), Some((_, args))) => qubits_differ(kinds, args),
        _ => true,
    }
}

/// The qubits of one call differ.
#[derive(Clone, Copy)]
pub(crate) struct DistinctQubits;

impl Rule for DistinctQubits {
    ghost keeps = { λ r b i item. are_distinct (item_ids is_qubit item) };

    fn is_kept(&self, _block: usize, _item: usize, it: Item<'_>) -> bool {
        match it {
            Item::Instr(Instr::Call { function, args, .. }) => {
                qubits_differ(kinds(*function), &args.items)
            }
            _ => true,
        }
    }
}

/// Whether all labels among some arguments are below a number.
fn labels_are_below(count: usize, args: &[Arg]) -> bool
    ensures { result ≡ list_all (λ k. nat_lt k count) (flat_map label_in args.now) }
{
    for arg in args {
        if let Arg::Text(label) = *arg {
            if label as usize >= count {
                return false;
            }
        }
    }
    true
}

/// Labels that are used exist.
#[derive(Clone, Copy)]
pub(crate) struct LabelsExist {
    pub count: usize,
}

impl Rule for LabelsExist {
    ghost keeps = { λ r. labels_below r.count };

    #[tactic(auto, unfolding(crate::specs::Calls::labels_below))]
    fn is_kept(&self, _block: usize, _item: usize, it: Item<'_>) -> bool {
        match it {
            Item::Instr(Instr::Call { args, .. }) => labels_are_below(self.count, &args.items),
            _ => true,
        }
    }
}

/// Whether a function is among some.
pub(crate) fn has_function(functions: &[Function], function: Function) -> bool
    ensures { result ≡ is_among (map (λ (f : FunctionValue). f.0) functions.now) function.0 }
{
    for other in functions {
        if other.0 == function.0 {
            return true;
        }
    }
    false
}

/// Called functions are declared.
#[derive(Clone, Copy)]
pub(crate) struct Declared<'a> {
    pub declarations: &'a [Function],
}

impl Rule for Declared<'_> {
    ghost keeps = { λ r. called_among (map (λ (f : FunctionValue). f.0) r.declarations.now) };

    #[tactic(auto, unfolding(crate::specs::Calls::called_among))]
    fn is_kept(&self, _block: usize, _item: usize, it: Item<'_>) -> bool {
        match it {
            Item::Instr(Instr::Call { function, .. }) => has_function(self.declarations, *function),
            _ => true,
        }
    }
}

/// Whether the call that initializes names the id 0.
#[tactic(auto, using(crate::proofs::TaskLemmas::null_id))]
fn names_zero(function: Function, args: &[Arg]) -> bool
    requires { function.0 ≡ 0 }
    ensures { result ≡ is_only_zero (ids_where is_null (takes_of (row_of function.0)) args.now) }
{
    match args.first() {
        Some(Arg::Id(id)) => *id == 0,
        _ => false,
    }
}

/// The call that initializes is the first item, with id 0, and stands nowhere else.
#[derive(Clone, Copy)]
pub(crate) struct InitializedFirst;

impl Rule for InitializedFirst {
    ghost keeps = { λ r b i item. if nat_eq b 0 && nat_eq i 0 then initializes item && is_only_zero (item_ids is_null item) else not (initializes item) };

    fn is_kept(&self, block: usize, item: usize, it: Item<'_>) -> bool {
        let is_first = block == 0 && item == 0;
        match it {
            Item::Instr(Instr::Call { function, args, .. }) => {
                if is_initialize(*function) {
                    is_first && names_zero(*function, &args.items)
                } else {
                    !is_first
                }
            }
            _ => !is_first,
        }
    }
}
