//! The gate that a name calls.
ghost use Rattle.std.specs.Prelude.{◌<◌, length, slice_get, IfOk};
ghost use Rattle.qasm_ast.specs.View.{statement_in, text_in};
ghost use Rattle.const_eval.specs.Answers.{Answers};
ghost use Rattle.gate_arguments.specs.Answering.{IsDefinition};
ghost use Rattle.gate_arguments.specs.Environment.{called_in, declarations_in};
ghost use Rattle.gate_arguments.specs.Seen.{scope_callables, open_in};
ghost use Rattle.gate_flatten.specs.Expand.{gate_called as spec_gate_called, of_program};
ghost use Rattle.gate_flatten.specs.Served.{GateFits, Served, gate_seen};

use crate::gate::{Defined, Gate};
use const_eval::{Callable, GateEnv};
use gate_arguments::Scope;
use gate_lists::refused;
use gate_table::target;
use qasm_ast::{Declared, Program, StmtId, StmtKind};
use qq_base::{Fault, Rule};

/// The gate that a name calls. A subroutine is no gate, and a gate does not call itself.
#[tactic(auto, using(crate::proofs::Naming::calls_row, crate::proofs::Naming::calls_defined, crate::proofs::Naming::calls_other, crate::proofs::Naming::calls_unknown, crate::proofs::Naming::table_row))]
pub(crate) fn gate_called<'a, E: GateEnv>(
    program: &'a Program,
    name: Declared,
    scope: &Scope<'_, E>,
) -> Result<Gate<'a>, Fault>
    requires in_range { name.name < length program.now.names }
    requires served { Served program.now (E.names scope.now.env.now) (E.callables scope.now.env.now) (E.operands scope.now.env.now) (E.inside scope.now.env.now) scope.now.body }
    ensures answer { Answers (λ g. gate_seen program.now g) result (spec_gate_called (declarations_in program.now (E.inside scope.now.env.now)) (open_in scope.now.body) name.at (called_in program.now (scope_callables (E.callables scope.now.env.now) (E.inside scope.now.env.now) scope.now.body) (text_in program.now name.name))) }
    ensures fits { IfOk result (GateFits program.now) }
{
    match scope.callable(program, name.name) {
        Callable::Row(gate) => Ok(Gate::Table(gate, target().row(gate))),
        Callable::Defined(def) => defined_gate(program, name, def, scope),
        Callable::Other => Err(refused(Rule::WrongKind, name.at)),
        Callable::Unknown => Err(refused(Rule::Unknown, name.at)),
    }
}

// A gate or a subroutine that the program defines.
#[tactic(auto, using(crate::proofs::Naming::defines_gate, crate::proofs::Naming::calls_itself, crate::proofs::Naming::defines_other, crate::proofs::Naming::members_fit))]
fn defined_gate<'a, E: GateEnv>(
    program: &'a Program,
    name: Declared,
    def: StmtId,
    scope: &Scope<'_, E>,
) -> Result<Gate<'a>, Fault>
    requires { IsDefinition (slice_get program.now.stmts def.0) }
    ensures answer { Answers (λ g. gate_seen program.now g) result (of_program name.at def (statement_in program.now def.0) (open_in scope.now.body)) }
    ensures fits { IfOk result (GateFits program.now) }
{
    let StmtKind::Gate {
        params,
        qubits,
        body,
        ..
    } = &program.stmt(def).kind
    else {
        return Err(refused(Rule::WrongKind, name.at));
    };
    if scope.is_open(def) {
        return Err(refused(Rule::Recursion, name.at));
    }
    Ok(Gate::Defined(Defined {
        def,
        params,
        qubits,
        body,
    }))
}
