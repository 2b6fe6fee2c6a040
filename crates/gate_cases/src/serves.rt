//! Whether an environment answers what is asked of it for a program and a call.

ghost use Rattle.std.specs.Prelude.{◌≡◌, ◌<◌, length, slice_get, map, All, IsTrue, IsSomeAnd};
ghost use Rattle.std.specs.Map.{lookup as found};
ghost use Rattle.const_eval.specs.Seen.{HasNames, is_same_operand};
ghost use Rattle.gate_arguments.specs.Answering.{IsDefinition, CallableFits, QubitsFit};
ghost use Rattle.gate_flatten.specs.Serves.{HasOperands, HasParts, Serves, IsGateCall};
ghost use Rattle.gate_cases.specs.Told.{callable_told, operand_told, outer_told};

use crate::answers::{OperandAnswer, answer_fits, answer_of};
use crate::env::{Entry, Env, called};
use const_eval::{Callable, Constants, GateEnv};
use gate_flatten::CallEnv;
use qasm_ast::{ExprId, OperandRef, Program, StmtId, StmtKind};

/// Whether a number is that of a gate or a subroutine.
fn is_definition(program: &Program, id: StmtId) -> bool
    ensures { IsTrue result → IsDefinition (slice_get program.now.stmts id.0) }
{
    if (id.0 as usize) < program.stmts.len() {
        match &program.stmt(id).kind {
            StmtKind::Gate { .. } => true,
            StmtKind::Def { .. } => true,
            _ => false,
        }
    } else {
        false
    }
}

/// Whether what is called is a row of the target table or is defined by the program.
fn callable_fits(program: &Program, callable: Callable) -> bool
    ensures { IsTrue result → CallableFits program.now callable }
{
    match callable {
        Callable::Row(gate) => gate.0 < 31,
        Callable::Defined(id) => is_definition(program, id),
        Callable::Other => true,
        Callable::Unknown => true,
    }
}

/// Whether that holds of each entry.
fn entries_fit(program: &Program, entries: &[Entry]) -> bool
    ensures { IsTrue result → All (λ (e : Entry). CallableFits program.now (callable_told e)) entries.now }
{
    for entry in entries {
        if !callable_fits(program, called(entry)) {
            return false;
        }
    }
    true
}

/// Whether an operand is answered.
fn is_answered(answers: &[OperandAnswer], operand: &OperandRef) -> bool
    ensures { IsTrue result → IsSomeAnd (found (is_same_operand operand.now.name) (map operand_told answers.now)) QubitsFit }
{
    match answer_of(answers, operand.name) {
        Some(answer) => answer_fits(answer),
        None => false,
    }
}

/// Whether each operand is answered.
fn are_answered(answers: &[OperandAnswer], operands: &[OperandRef]) -> bool
    ensures { IsTrue result → HasOperands (map operand_told answers.now) operands.now }
{
    for operand in operands {
        if !is_answered(answers, operand) {
            return false;
        }
    }
    true
}

impl Env {
    /// Whether each operand and each argument of a call is answered.
    fn serves_call(&self, program: &Program, call: StmtId) -> bool
        requires { call.0 < length program.now.stmts }
        ensures call { IsTrue result → IsGateCall (slice_get program.now.stmts call.0) }
        ensures parts { IsTrue result → HasParts (map operand_told self.now.operands.items) (map outer_told self.now.outers.items) (slice_get program.now.stmts call.0) }
    {
        match &program.stmt(call).kind {
            StmtKind::GateCall { args, operands, .. } => {
                are_answered(&self.operands, &operands.items)
                    && self.outers.len() == args.items.len()
            }
            _ => false,
        }
    }

    /// Whether an expression is one of the program, and there is an entry for each name of the program.
    pub fn serves_expr(&self, program: &Program, expr: ExprId) -> bool
        ensures in_range { IsTrue result → expr.0 < length program.now.exprs }
        ensures names { IsTrue result → HasNames program.now (⟦<Env as Constants>⟧.names self.now) }
    {
        (expr.0 as usize) < program.exprs.len() && self.entries.len() == program.names.len()
    }

    /// Whether there is an entry for each name of the program and an order for each of its statements, and what is called fits.
    fn fits(&self, program: &Program) -> bool
        ensures entries { IsTrue result → length self.now.entries.items ≡ length program.now.names }
        ensures orders { IsTrue result → length self.now.orders.items ≡ length program.now.stmts }
        ensures callables { IsTrue result → All (λ (e : Entry). CallableFits program.now (callable_told e)) self.now.entries.items }
    {
        self.entries.len() == program.names.len()
            && self.orders.len() == program.stmts.len()
            && entries_fit(program, &self.entries)
    }

    /// Whether all is answered that the expansion of a call asks for.
    pub fn serves(&self, program: &Program, call: StmtId) -> bool
        ensures in_range { IsTrue result → call.0 < length program.now.stmts }
        ensures call { IsTrue result → IsGateCall (slice_get program.now.stmts call.0) }
        ensures serves { IsTrue result → Serves program.now call.0 (⟦<Env as Constants>⟧.names self.now) (⟦<Env as GateEnv>⟧.callables self.now) (⟦<Env as GateEnv>⟧.operands self.now) (⟦<Env as GateEnv>⟧.inside self.now) (⟦<Env as CallEnv>⟧.outers self.now) }
    {
        if !self.fits(program) {
            return false;
        }
        (call.0 as usize) < program.stmts.len() && self.serves_call(program, call)
    }
}
