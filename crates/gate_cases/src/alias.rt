//! The registers that a `let` joins, and the constants of declarations.

use crate::declared::Declared;
use anyhow::{Context, Result, bail};
use const_eval::{Const, const_value};
use qasm_ast::{ExprId, IndexRef, Items, OperandRef, Program};
use qq_base::QubitId;
use std::alloc::Global;

/// The joined list.
pub fn joined(
    alloc: Global,
    program: &Program,
    operands: &Items<OperandRef>,
    declared: &Declared,
) -> Result<Vec<QubitId>> {
    let mut ids = Vec::new(alloc);
    for operand in &operands.items {
        let register = declared.register(operand)?;
        match operand.index.items.as_slice() {
            [] => ids.extend_from_slice(register)?,
            [IndexRef::Set(members)] => {
                push_members(alloc, program, register, members, declared, &mut ids)?
            }
            _ => bail!("brackets that are no set"),
        }
    }
    Ok(ids)
}

/// Adds the qubits at these places of a register.
fn push_members(
    alloc: Global,
    program: &Program,
    register: &[QubitId],
    members: &Items<ExprId>,
    declared: &Declared,
    ids: &mut Vec<QubitId>,
) -> Result<()> {
    for id in &members.items {
        let place = whole(alloc, program, *id, declared)?;
        let qubit = register.get(place as usize).context("no such place")?;
        ids.push(*qubit)?;
    }
    Ok(())
}

/// A constant.
pub fn constant(
    alloc: Global,
    program: &Program,
    id: ExprId,
    declared: &Declared,
) -> Result<Const> {
    let env = &declared.env;
    if !env.serves_expr(program, id) {
        bail!("an expression of another program");
    }
    const_value(alloc, program, id, env, false)
        .ok()
        .context("no constant")
}

/// A whole number that is a width or a place.
pub fn whole(alloc: Global, program: &Program, id: ExprId, declared: &Declared) -> Result<u32> {
    match constant(alloc, program, id, declared)? {
        Const::Whole(whole) => u32::try_from(whole.number)
            .ok()
            .context("no width and no place"),
        _ => bail!("no whole number"),
    }
}
