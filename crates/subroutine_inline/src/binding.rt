//! The call of the crate.
ghost use Rattle.std.specs.Prelude.{◌<◌, length, slice_get, IfOk};
ghost use Rattle.qasm_ast.specs.Whole.{IsCall};
ghost use Rattle.const_eval.specs.Answers.{Answers};
ghost use Rattle.subroutine_inline.specs.Bound.{due_binding};
ghost use Rattle.subroutine_inline.specs.Seen.{BindingFits, seen_binding};
ghost use Rattle.subroutine_inline.specs.Serves.{Serves};

use crate::arguments::given_by;
use crate::called::{Called, called_subroutine, definition_scope};
use crate::parameters::{all_taken, result_type};
use alias_resolve::QubitList;
use const_eval::GateEnv;
use gate_lists::refused;
use qasm_ast::{ExprId, ExprKind, Program, StmtId};
use qasm_types::Ty;
use qq_base::{Fault, Rule};
use std::alloc::Global;

/// A greater cost is given as this, which is over the cost of any program.
const MOST_COUNTED: u64 = 250_001;

/// What a call of a subroutine binds. Parameters are given by the numbers of their names, in the order of the text.
#[derive(Debug, Drop)]
pub struct Binding {
    /// The statement that defines the subroutine.
    pub def: StmtId,
    /// The parameters that take values, with their types and arguments. An argument is cast to the type, and is not walked yet.
    pub classical: Vec<(u32, Ty, ExprId)>,
    /// The parameters that take qubits, and which those are. They are a qubit alone where the parameter is one.
    pub qubits: Vec<(u32, QubitList)>,
    /// The type of the value that is returned, if one is.
    pub result: Option<Ty>,
    /// What the call costs before its classical arguments: the nodes of the types of parameters and result, and of the indexes of
    /// qubit arguments. A cost above 250,001 is given as 250,001.
    pub cost: u64,
}

/// What a call of a subroutine binds, or the first rule that its walk breaks: its name (Q13, Q15, Q33, Q41), the number of its
/// arguments (Q29), the types of its parameters and its result, and its qubit arguments. `active` are the definitions of the
/// subroutines whose calls are open. The classical arguments and the body are walked by the caller, and a value that is taken from
/// a subroutine without one is refused by the caller, before the call.
pub fn bind_call<E: GateEnv>(
    alloc: Global,
    program: &Program,
    call: ExprId,
    env: &E,
    active: &[StmtId],
) -> Result<Binding, Fault>
    requires in_range { call.0 < length program.now.exprs }
    requires is_call { IsCall (slice_get program.now.exprs call.0) }
    requires serves { Serves program.now call.0 (E.names env.now) (E.callables env.now) (E.operands env.now) (E.inside env.now) }
    ensures answer { Answers seen_binding result (due_binding program.now call.0 (E.names env.now) (E.callables env.now) (E.operands env.now) (E.inside env.now) active.now) }
    ensures fits { IfOk result (BindingFits program.now) }
{
    let node = program.expr(call);
    let ExprKind::Call(name, ids) = &node.kind else {
        unreachable!()
    };
    let Called {
        def,
        params,
        result,
    } = called_subroutine(program, *name, node.at, env, active)?;
    if ids.items.len() != params.items.len() {
        return Err(refused(Rule::ArgumentCount, node.at));
    }
    let inside = definition_scope(alloc, program, env, def)?;
    let mut left = MOST_COUNTED;
    let taken = all_taken(alloc, program, params, &inside, &mut left)?;
    let result = result_type(alloc, program, result, &inside, &mut left)?;
    let given = given_by(alloc, program, params, ids, &taken, env, &mut left)?;
    Ok(Binding {
        def,
        classical: given.classical,
        qubits: given.qubits,
        result,
        cost: MOST_COUNTED - left,
    })
}
