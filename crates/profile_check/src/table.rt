//! What the functions of the table take, and which calls the rules tell apart.

ghost use Rattle.std.specs.Prelude.{◌≡◌, nat_eq, map};
ghost use Rattle.qir_module.specs.Functions.{row_of};
ghost use Rattle.qir_module.specs.Kinds.{kind_of};
ghost use Rattle.qir_module.specs.Numbered.{task_of};
ghost use Rattle.qir_module.specs.Passes.{takes_of, is_initialize as initializes_task, is_record_task};
ghost use Rattle.profile_check.specs.Calls.{is_reading_task, is_measuring_task};

use qir_module::{Function, Kind};

/// What a function takes; nothing where it is not in the table.
pub(crate) fn kinds(function: Function) -> &'static [Kind]
    ensures { map kind_of result.now ≡ takes_of (row_of function.0) }
{
    match function.row() {
        Some(row) => row.takes,
        None => &[],
    }
}

/// Whether a call of the function initializes.
#[tactic(auto, using(crate::proofs::TaskLemmas::initializes_at))]
pub(crate) fn is_initialize(function: Function) -> bool
    ensures task { result ≡ initializes_task (task_of (row_of function.0)) }
    ensures place { result ≡ nat_eq function.0 0 }
{
    function.0 == Function::INITIALIZE.0
}

/// Whether a call of the function is a record.
#[tactic(auto, using(crate::proofs::TaskLemmas::records_at))]
pub(crate) fn is_record(function: Function) -> bool
    ensures { result ≡ is_record_task (task_of (row_of function.0)) }
{
    if function.0 == Function::ARRAY_RECORD_OUTPUT.0 {
        return true;
    }
    if function.0 == Function::BOOL_RECORD_OUTPUT.0 {
        return true;
    }
    function.0 == Function::INT_RECORD_OUTPUT.0
}

/// Whether a call of the function reads a result.
#[tactic(auto, using(crate::proofs::TaskLemmas::reads_at))]
pub(crate) fn is_reading(function: Function) -> bool
    ensures { result ≡ is_reading_task (task_of (row_of function.0)) }
{
    function.0 == Function::READ_RESULT.0
}

/// Whether a call of the function measures a qubit.
#[tactic(auto, using(crate::proofs::TaskLemmas::measures_at))]
pub(crate) fn is_measuring(function: Function) -> bool
    ensures { result ≡ is_measuring_task (task_of (row_of function.0)) }
{
    function.0 == Function::MZ.0
}
