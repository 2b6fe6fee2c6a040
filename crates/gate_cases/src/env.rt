//! What names mean in the cases: the environment of a call.

ghost use Rattle.std.specs.Prelude.{◌≡◌, ◌<◌, length, slice_get, map, Some, IsTrue};
ghost use Rattle.const_eval.specs.Seen.{HasNames, meaning_of, meaning_inside};
ghost use Rattle.gate_cases.specs.Told.{numbered, rows, meaning_told, callable_told, inside_told, operand_told, outer_told};

use crate::answers::{Answer, OperandAnswer, answer_of, qubits_told};
use const_eval::{Callable, Const, Constants, GateEnv, Lookup, Qubits, Visible};
use gate_flatten::{CallEnv, OuterArg};
use qasm_ast::{ExprId, OperandRef, Program, StmtId};
use qq_base::{GateId, QubitId, Rule};

/// What a name means.
#[derive(Drop)]
pub enum Named {
    /// A constant.
    Held(Const),
    /// A run-time value.
    Running,
    Qubits { ids: Vec<QubitId>, single: bool },
    /// A gate of the target table.
    Row(GateId),
    Gate(StmtId),
    Subroutine(StmtId),
    /// Nothing.
    Unknown,
}

/// What a name means, and how many names were declared up to it.
#[derive(Drop)]
pub struct Entry {
    pub named: Named,
    pub order: u32,
}

/// An argument of the outermost call.
#[derive(Drop)]
pub enum Outer {
    Fixed(Const),
    Running,
}

/// What each name of a program means, by the numbers of the names, and what else a call asks for.
#[derive(Drop)]
pub struct Env {
    pub entries: Vec<Entry>,
    /// How many names were declared up to each statement, by the numbers of the statements.
    pub orders: Vec<u32>,
    /// The qubits of the operands of the call.
    pub operands: Vec<OperandAnswer>,
    /// The arguments of the call.
    pub outers: Vec<Outer>,
}

impl Constants for Env {
    ghost names = { λ env. numbered meaning_told 0 env.entries.items };

    fn lookup(&self, name: u32) -> Lookup<'_> {
        looked_up(self.entry(name))
    }
}

impl GateEnv for Env {
    ghost callables = { λ env. numbered callable_told 0 env.entries.items };

    ghost operands = { λ env. map operand_told env.operands.items };

    ghost inside = { λ env. rows 0 env.orders.items env.entries.items };

    fn callable(&self, name: u32) -> Callable {
        called(self.entry(name))
    }

    fn qubits(&self, operand: &OperandRef) -> Result<Qubits<'_>, Rule> {
        match answer_of(&self.operands, operand.name) {
            Some(answer) => qubits_told(answer),
            None => Err(Rule::Unknown),
        }
    }

    fn visible(&self, def: StmtId, name: u32) -> Visible<'_> {
        visible_at(self.order(def), self.entry(name))
    }
}

impl CallEnv for Env {
    ghost outers = { λ env. map outer_told env.outers.items };

    fn outer(&self, k: u32) -> OuterArg<'_> {
        match &self.outers[k as usize] {
            Outer::Fixed(value) => OuterArg::Fixed(value),
            Outer::Running => OuterArg::Running,
        }
    }
}

impl Env {
    /// What a name means, by its number.
    fn entry(&self, name: u32) -> &Entry
        requires { name < length self.now.entries.items }
        ensures { slice_get self.now.entries.items name ≡ Some result.now }
    {
        &self.entries[name as usize]
    }

    /// How many names were declared up to a statement, by its number.
    fn order(&self, def: StmtId) -> u32
        requires { def.0 < length self.now.orders.items }
        ensures { slice_get self.now.orders.items def.0 ≡ Some result }
    {
        self.orders[def.0 as usize]
    }
}

/// The answer to a look-up.
fn looked_up(entry: &Entry) -> Lookup<'_>
    ensures { meaning_of result ≡ meaning_told entry.now }
{
    match &entry.named {
        Named::Held(value) => Lookup::Value(value),
        Named::Running => Lookup::Variable,
        Named::Qubits { .. } => Lookup::Other,
        Named::Row(_) => Lookup::Other,
        Named::Gate(_) => Lookup::Other,
        Named::Subroutine(_) => Lookup::Other,
        Named::Unknown => Lookup::Unknown,
    }
}

/// What may be called by a name.
pub fn called(entry: &Entry) -> Callable
    ensures { result ≡ callable_told entry.now }
{
    match &entry.named {
        Named::Row(gate) => Callable::Row(*gate),
        Named::Gate(def) => Callable::Defined(*def),
        Named::Subroutine(def) => Callable::Defined(*def),
        Named::Unknown => Callable::Unknown,
        Named::Held(_) => Callable::Other,
        Named::Running => Callable::Other,
        Named::Qubits { .. } => Callable::Other,
    }
}

/// What a name means in a definition up to which so many names were declared.
fn visible_at(order: u32, entry: &Entry) -> Visible<'_>
    ensures { meaning_inside result ≡ inside_told order entry.now }
{
    if order < entry.order {
        return Visible::Unknown;
    }
    match &entry.named {
        Named::Held(value) => Visible::Value(value),
        Named::Row(gate) => Visible::Called(Callable::Row(*gate)),
        Named::Gate(def) => Visible::Called(Callable::Defined(*def)),
        Named::Subroutine(_) => Visible::Unknown,
        Named::Running => Visible::Unknown,
        Named::Qubits { .. } => Visible::Unknown,
        Named::Unknown => Visible::Unknown,
    }
}
