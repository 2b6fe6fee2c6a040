//! Calls as they are written.

use qasm_ast::{Declared, ExprId, Items, Modifier, OperandRef, Program};
use std::alloc::Global;

/// What stands around all calls.
#[derive(Clone, Copy)]
pub(crate) struct Around<'a> {
    pub alloc: Global,
    pub program: &'a Program,
}

/// A call as it is written.
#[derive(Clone, Copy)]
pub(crate) struct Call<'a> {
    pub mods: &'a Items<Modifier>,
    pub gate: Declared,
    pub args: &'a Items<ExprId>,
    pub operands: &'a Items<OperandRef>,
}
