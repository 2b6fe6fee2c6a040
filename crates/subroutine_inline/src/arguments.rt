//! The arguments of a call, up to the values of the classical ones.
ghost use Rattle.std.specs.Prelude.{◌≡◌, ◌-◌, ◌<◌, All, length, map, slice_get, IfOk, OnOk, Ok};
ghost use Rattle.qasm_ast.specs.View.{tree_in, trees_in};
ghost use Rattle.qasm_ast.specs.Whole.{AllOf, IsExpr, ParamFits};
ghost use Rattle.const_eval.specs.Answers.{Answers};
ghost use Rattle.const_eval.specs.Binding.{bound_argument_walk, bound_arguments_walk};
ghost use Rattle.const_eval.specs.Meaning.{meaning_in};
ghost use Rattle.const_eval.specs.Refusing.{go_on};
ghost use Rattle.const_eval.specs.Seen.{HasNames};
ghost use Rattle.gate_arguments.specs.Environment.{operand_in};
ghost use Rattle.subroutine_inline.specs.Seen.{NameFits, TakenFits, ValueFits, given_seen, shared, taken_seen, with_bound};
ghost use Rattle.subroutine_inline.specs.Serves.{HasArgument, HasArguments};

use crate::operand::argument_qubits;
use crate::parameters::Taken;
use alias_resolve::QubitList;
use const_eval::GateEnv;
use gate_lists::push;
use qasm_ast::{Declared, ExprId, Items, Program, TypeRef};
use qasm_types::Ty;
use qq_base::Fault;
use std::alloc::Global;

/// What parameters are given, by the numbers of their names.
#[derive(Debug, Drop)]
pub(crate) struct Given {
    /// Those that take values, with their types and arguments.
    pub(crate) classical: Vec<(u32, Ty, ExprId)>,
    /// Those that take qubits.
    pub(crate) qubits: Vec<(u32, QubitList)>,
}

/// What the arguments of a call give its parameters. A classical argument is walked later.
pub(crate) fn given_by<E: GateEnv>(
    alloc: Global,
    program: &Program,
    params: &Items<(TypeRef, Declared)>,
    ids: &Items<ExprId>,
    taken: &[Taken],
    env: &E,
    left: &mut u64,
) -> Result<Given, Fault>
    requires params_fit { AllOf (ParamFits (length program.now.names) (length program.now.exprs)) params.now }
    requires in_range { AllOf (IsExpr (length program.now.exprs)) ids.now }
    requires types { All TakenFits taken.now }
    requires params { length params.now ≡ length ids.now }
    requires taken { length taken.now ≡ length ids.now }
    requires names { HasNames program.now (E.names env.now) }
    requires answered { HasArguments program.now (E.operands env.now) ids.now }
    ensures answer { Answers given_seen result (go_on (bound_arguments_walk (meaning_in program.now (E.names env.now)) (operand_in program.now (E.operands env.now)) (trees_in program.now ids.now) (map taken_seen taken.now)).answer (λ bs. Ok (shared params.now ids.now bs))) }
    ensures cost { OnOk result (left.new ≡ left.old - (bound_arguments_walk (meaning_in program.now (E.names env.now)) (operand_in program.now (E.operands env.now)) (trees_in program.now ids.now) (map taken_seen taken.now)).cost) }
    ensures classical { IfOk result (λ given. All (ValueFits program.now) given.classical.items) }
    ensures qubits { IfOk result (λ given. All (NameFits program.now) given.qubits.items) }
{
    let mut given = Given {
        classical: Vec::new(alloc),
        qubits: Vec::new(alloc),
    };
    for (k, id) in ids.items.iter().enumerate() {
        let name = params.items[k].1.name;
        give(alloc, program, name, *id, taken[k], env, &mut given, left)?;
    }
    Ok(given)
}

// Gives a parameter what its argument is.
fn give<E: GateEnv>(
    alloc: Global,
    program: &Program,
    name: u32,
    id: ExprId,
    taken: Taken,
    env: &E,
    given: &mut Given,
    left: &mut u64,
) -> Result<(), Fault>
    requires name { name < length program.now.names }
    requires in_range { id.0 < length program.now.exprs }
    requires fits { TakenFits taken }
    requires names { HasNames program.now (E.names env.now) }
    requires answered { HasArgument (E.operands env.now) (slice_get program.now.exprs id.0) }
    ensures answer { Answers (λ _. given_seen given.new) result (go_on (bound_argument_walk (meaning_in program.now (E.names env.now)) (operand_in program.now (E.operands env.now)) (tree_in program.now id.0) (taken_seen taken)).answer (λ b. Ok (with_bound (given_seen given.old) name id b))) }
    ensures cost { OnOk result (left.new ≡ left.old - (bound_argument_walk (meaning_in program.now (E.names env.now)) (operand_in program.now (E.operands env.now)) (tree_in program.now id.0) (taken_seen taken)).cost) }
    ensures classical { All (ValueFits program.now) given.old.classical.items → OnOk result (All (ValueFits program.now) given.new.classical.items) }
    ensures qubits { All (NameFits program.now) given.old.qubits.items → OnOk result (All (NameFits program.now) given.new.qubits.items) }
{
    match taken {
        Taken::Value(ty) => push(&mut given.classical, (name, ty, id))?,
        Taken::Qubits { count, single } => {
            let list = argument_qubits(alloc, program, id, count, single, env, left)?;
            push(&mut given.qubits, (name, list))?;
        }
    }
    Ok(())
}
