//! The subroutine that a name calls, and what names mean in its definition.
ghost use Rattle.std.specs.Prelude.{◌≡◌, ◌<◌, length, map, slice_get, IfOk, Ok};
ghost use Rattle.qasm_ast.specs.Tree.{if_some};
ghost use Rattle.qasm_ast.specs.View.{parameter_in, scalar_in, statement_in, text_in};
ghost use Rattle.qasm_ast.specs.Whole.{AllOf, IfThere, ParamFits, TypeFits};
ghost use Rattle.const_eval.specs.Answers.{Answers};
ghost use Rattle.const_eval.specs.Meaning.{meaning_in};
ghost use Rattle.const_eval.specs.Seen.{HasNames};
ghost use Rattle.gate_arguments.specs.Answering.{HasCallables, HasInside, IsDefinition};
ghost use Rattle.gate_arguments.specs.Environment.{called_in, declarations_in};
ghost use Rattle.gate_arguments.specs.Scope.{is_open as is_open_in};
ghost use Rattle.gate_arguments.specs.Seen.{scope_names};
ghost use Rattle.subroutine_inline.specs.Bound.{means_inside, parameters_of};
ghost use Rattle.subroutine_inline.specs.Called.{Definition, opened_call, subroutine_called, subroutine_of};
ghost use Rattle.subroutine_inline.specs.Seen.{IsSubroutine, subroutine_in};

use const_eval::{Callable, GateEnv};
use gate_arguments::{Scope, Signature, body_scope};
use gate_lists::refused;
use qasm_ast::{Declared, Items, Program, StmtId, StmtKind, TypeRef};
use qq_base::{Fault, Rule, Span};
use std::alloc::Global;

/// How many calls of subroutines may be open.
const MOST_OPEN: usize = 16;

/// A subroutine that is called.
#[derive(Clone, Copy)]
pub(crate) struct Called<'a> {
    pub(crate) def: StmtId,
    pub(crate) params: &'a Items<(TypeRef, Declared)>,
    pub(crate) result: Option<TypeRef>,
}

/// The subroutine that a name calls, where the calls of `active` are open.
pub(crate) fn called_subroutine<'a, E: GateEnv>(
    program: &'a Program,
    name: u32,
    place: Span,
    env: &E,
    active: &[StmtId],
) -> Result<Called<'a>, Fault>
    requires in_range { name < length program.now.names }
    requires served { HasCallables program.now (E.callables env.now) }
    ensures answer { Answers (λ c. record { id = c.def; subroutine = subroutine_in program.now c.def }) result (subroutine_called (declarations_in program.now (E.inside env.now)).definition active.now place (called_in program.now (E.callables env.now) (text_in program.now name))) }
    ensures defined { IfOk result (λ c. IsSubroutine (slice_get program.now.stmts c.def.0)) }
    ensures written { IfOk result (λ c. parameters_of (slice_get program.now.stmts c.def.0) ≡ c.params.now) }
    ensures params { IfOk result (λ c. (subroutine_in program.now c.def).params ≡ map (parameter_in program.now) c.params.now) }
    ensures result { IfOk result (λ c. (subroutine_in program.now c.def).result ≡ if_some (scalar_in program.now) c.result) }
    ensures params_fit { IfOk result (λ c. AllOf (ParamFits (length program.now.names) (length program.now.exprs)) c.params.now) }
    ensures result_fits { IfOk result (λ c. IfThere (TypeFits (length program.now.exprs)) c.result) }
{
    let scope = Scope { env, body: None };
    match scope.callable(program, name) {
        Callable::Defined(def) => defined_subroutine(program, def, place, active),
        Callable::Row(_) | Callable::Other => Err(refused(Rule::WrongKind, place)),
        Callable::Unknown => Err(refused(Rule::Unknown, place)),
    }
}

// A definition that is called: it is a subroutine, it does not call itself, and not too many calls are open.
fn defined_subroutine<'a>(
    program: &'a Program,
    def: StmtId,
    place: Span,
    active: &[StmtId],
) -> Result<Called<'a>, Fault>
    requires { IsDefinition (slice_get program.now.stmts def.0) }
    ensures answer { Answers (λ c. record { id = c.def; subroutine = subroutine_in program.now c.def }) result (opened_call active.now place def (subroutine_of (statement_in program.now def.0))) }
    ensures defined { IfOk result (λ c. IsSubroutine (slice_get program.now.stmts c.def.0)) }
    ensures written { IfOk result (λ c. parameters_of (slice_get program.now.stmts c.def.0) ≡ c.params.now) }
    ensures params { IfOk result (λ c. (subroutine_in program.now c.def).params ≡ map (parameter_in program.now) c.params.now) }
    ensures result { IfOk result (λ c. (subroutine_in program.now c.def).result ≡ if_some (scalar_in program.now) c.result) }
    ensures params_fit { IfOk result (λ c. AllOf (ParamFits (length program.now.names) (length program.now.exprs)) c.params.now) }
    ensures result_fits { IfOk result (λ c. IfThere (TypeFits (length program.now.exprs)) c.result) }
{
    let StmtKind::Def { params, result, .. } = &program.stmt(def).kind else {
        return Err(refused(Rule::WrongKind, place));
    };
    if is_open(def, active) {
        return Err(refused(Rule::Recursion, place));
    }
    if active.len() >= MOST_OPEN {
        return Err(refused(Rule::CallDepth, place));
    }
    Ok(Called {
        def,
        params,
        result: *result,
    })
}

// Whether a call of this subroutine is open.
fn is_open(def: StmtId, active: &[StmtId]) -> bool
    ensures { result ≡ is_open_in def active.now }
{
    active.iter().any(|other| other.0 == def.0)
}

/// What names mean in the types of a definition: the scope of a body without parameters.
pub(crate) fn definition_scope<'a, E: GateEnv>(
    alloc: Global,
    program: &Program,
    env: &'a E,
    def: StmtId,
) -> Result<Scope<'a, E>, Fault>
    requires inside { HasInside program.now (E.inside env.now) }
    requires definition { IsDefinition (slice_get program.now.stmts def.0) }
    ensures answer { Answers (λ s. meaning_in program.now (scope_names (E.names s.env.now) (E.inside s.env.now) s.body)) result (Ok (means_inside (declarations_in program.now (E.inside env.now)) def)) }
    ensures names { IfOk result (λ s. HasNames program.now (scope_names (E.names s.env.now) (E.inside s.env.now) s.body)) }
{
    let outer = Scope { env, body: None };
    let params = Items {
        items: Vec::new(alloc),
    };
    let signature = Signature {
        def,
        params: &params,
        qubits: &params,
    };
    body_scope(alloc, program, &outer, signature, &[], &[])
}
