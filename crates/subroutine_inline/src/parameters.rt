//! What the parameters of a subroutine take, and the type of its result.
ghost use Rattle.std.specs.Prelude.{◌≡◌, ◌≢◌, ◌-◌, ◌<◌, All, false, length, map, IfOk, OnOk};
ghost use Rattle.qasm_ast.specs.Tree.{if_some};
ghost use Rattle.qasm_ast.specs.View.{maybe_in, parameter_in, scalar_in};
ghost use Rattle.qasm_ast.specs.Whole.{AllOf, AnyTypeFits, IfThere, IsExpr, ParamFits, TypeFits};
ghost use Rattle.qasm_types.specs.Types.{IsType};
ghost use Rattle.const_eval.specs.Answers.{Answers};
ghost use Rattle.const_eval.specs.Binding.{TakesQubits, all_taken_walk, result_walk, taken_walk};
ghost use Rattle.const_eval.specs.ConstantWalk.{qubits_walk, type_walk};
ghost use Rattle.const_eval.specs.Meaning.{meaning_in};
ghost use Rattle.const_eval.specs.Seen.{HasNames};
ghost use Rattle.const_eval.specs.Walk.{done, then_walk};
ghost use Rattle.subroutine_inline.specs.Seen.{ResultFits, TakenFits, taken_seen};

use crate::counted::constant_counted;
use crate::widths::{plain_type, type_of_width, width_of};
use const_eval::Constants;
use gate_lists::push;
use qasm_ast::{Base, Declared, ExprId, Items, Program, TypeRef};
use qasm_types::Ty;
use qq_base::Fault;
use std::alloc::Global;

/// What a parameter takes.
#[derive(Clone, Copy, Debug, PartialEq, Eq)]
pub(crate) enum Taken {
    /// A value of a type.
    Value(Ty),
    /// So many qubits, which in the body are a qubit alone or a register.
    Qubits { count: u32, single: bool },
}

/// What each parameter takes, in order. `inside` says what names mean in the definition.
pub(crate) fn all_taken<S: Constants>(
    alloc: Global,
    program: &Program,
    params: &Items<(TypeRef, Declared)>,
    inside: &S,
    left: &mut u64,
) -> Result<Vec<Taken>, Fault>
    requires in_range { AllOf (ParamFits (length program.now.names) (length program.now.exprs)) params.now }
    requires names { HasNames program.now (S.names inside.now) }
    ensures answer { Answers (λ v. map taken_seen v.items) result (all_taken_walk (meaning_in program.now (S.names inside.now)) (map (parameter_in program.now) params.now)).answer }
    ensures cost { OnOk result (left.new ≡ left.old - (all_taken_walk (meaning_in program.now (S.names inside.now)) (map (parameter_in program.now) params.now)).cost) }
    ensures fit { IfOk result (λ v. All TakenFits v.items) }
    ensures count { IfOk result (λ v. length v.items ≡ length params.now) }
{
    let mut all = Vec::new(alloc);
    for (ty, _) in &params.items {
        let taken = taken_by(alloc, program, ty, inside, left)?;
        push(&mut all, taken)?;
    }
    Ok(all)
}

// What a parameter of this type takes.
fn taken_by<S: Constants>(
    alloc: Global,
    program: &Program,
    ty: &TypeRef,
    inside: &S,
    left: &mut u64,
) -> Result<Taken, Fault>
    requires in_range { AnyTypeFits (length program.now.exprs) ty.now }
    requires names { HasNames program.now (S.names inside.now) }
    ensures answer { Answers taken_seen result (taken_walk (meaning_in program.now (S.names inside.now)) (scalar_in program.now ty.now)).answer }
    ensures cost { OnOk result (left.new ≡ left.old - (taken_walk (meaning_in program.now (S.names inside.now)) (scalar_in program.now ty.now)).cost) }
    ensures fits { IfOk result TakenFits }
{
    match ty.base {
        Base::Qubit => qubits_taken(alloc, program, ty.width, inside, left),
        _ => Ok(Taken::Value(written_type(alloc, program, ty, inside, left)?)),
    }
}

// So many qubits as a width says, or one alone where there is none.
fn qubits_taken<S: Constants>(
    alloc: Global,
    program: &Program,
    width: Option<ExprId>,
    inside: &S,
    left: &mut u64,
) -> Result<Taken, Fault>
    requires in_range { IfThere (IsExpr (length program.now.exprs)) width }
    requires names { HasNames program.now (S.names inside.now) }
    ensures answer { Answers taken_seen result (then_walk (qubits_walk (meaning_in program.now (S.names inside.now)) false (maybe_in program.now width)) (λ q. done (TakesQubits q.0 q.1))).answer }
    ensures cost { OnOk result (left.new ≡ left.old - (qubits_walk (meaning_in program.now (S.names inside.now)) false (maybe_in program.now width)).cost) }
    ensures fits { IfOk result TakenFits }
{
    let Some(width) = width else {
        return Ok(Taken::Qubits {
            count: 1,
            single: true,
        });
    };
    let value = constant_counted(alloc, program, width, inside, left)?;
    Ok(Taken::Qubits {
        count: width_of(Base::Qubit, &value, program.expr(width).at)?,
        single: false,
    })
}

// A type of values, with the width that is written, if one is.
fn written_type<S: Constants>(
    alloc: Global,
    program: &Program,
    ty: &TypeRef,
    inside: &S,
    left: &mut u64,
) -> Result<Ty, Fault>
    requires classical { ty.now.base ≢ Base.Qubit }
    requires in_range { IfThere (IsExpr (length program.now.exprs)) ty.now.width }
    requires names { HasNames program.now (S.names inside.now) }
    ensures answer { Answers (λ to. to) result (type_walk (meaning_in program.now (S.names inside.now)) false ty.now.base ty.now.at (maybe_in program.now ty.now.width)).answer }
    ensures cost { OnOk result (left.new ≡ left.old - (type_walk (meaning_in program.now (S.names inside.now)) false ty.now.base ty.now.at (maybe_in program.now ty.now.width)).cost) }
    ensures is_type { IfOk result IsType }
{
    let Some(width) = ty.width else {
        return Ok(plain_type(ty.base));
    };
    let value = constant_counted(alloc, program, width, inside, left)?;
    let bits = width_of(ty.base, &value, program.expr(width).at)?;
    Ok(type_of_width(ty.base, bits))
}

/// The type of a result, if there is one.
pub(crate) fn result_type<S: Constants>(
    alloc: Global,
    program: &Program,
    ty: Option<TypeRef>,
    inside: &S,
    left: &mut u64,
) -> Result<Option<Ty>, Fault>
    requires in_range { IfThere (TypeFits (length program.now.exprs)) ty }
    requires names { HasNames program.now (S.names inside.now) }
    ensures answer { Answers (λ to. to) result (result_walk (meaning_in program.now (S.names inside.now)) (if_some (scalar_in program.now) ty)).answer }
    ensures cost { OnOk result (left.new ≡ left.old - (result_walk (meaning_in program.now (S.names inside.now)) (if_some (scalar_in program.now) ty)).cost) }
    ensures fits { IfOk result ResultFits }
{
    match ty {
        None => Ok(None),
        Some(ty) => Ok(Some(written_type(alloc, program, &ty, inside, left)?)),
    }
}
