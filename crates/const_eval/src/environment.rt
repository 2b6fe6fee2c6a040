// What a constant expression and a call of a gate ask of the place where they stand: what names mean there.
ghost use Rattle.std.specs.Prelude.{◌≡◌, ℕ, List, Result, Some, IsSome, nat_eq};
ghost use Rattle.std.specs.Map.{lookup as found};
ghost use Rattle.qq_base.specs.declared.run.QubitId.{QubitId};
ghost use Rattle.qq_base.specs.declared.rule.Rule.{Rule};
ghost use Rattle.qasm_ast.specs.declared.expr.OperandName.{OperandName};
ghost use Rattle.alias_resolve.specs.Places.{Selected};
ghost use Rattle.const_eval.specs.declared.environment.Callable.{Callable};
ghost use Rattle.const_eval.specs.Meaning.{Meaning};
ghost use Rattle.const_eval.specs.Seen.{MeaningInside, meaning_of, qubits_of, meaning_inside, is_same_operand, is_same_place};

use crate::constant::Const;
use qasm_ast::{OperandRef, StmtId};
use qq_base::{GateId, QubitId, Rule};

/// What a name means.
#[derive(Debug, Drop)]
pub enum Lookup<'a> {
    /// A constant, or a predefined number.
    Value(&'a Const),
    /// A run-time value.
    Variable,
    /// Any other visible thing.
    Other,
    /// Nothing: the name is not visible.
    Unknown,
}

/// What a name is where it is called.
#[derive(Clone, Copy, Debug, PartialEq, Eq)]
pub enum Callable {
    /// A row of the target table.
    Row(GateId),
    /// A gate or a subroutine, with the statement that defines it.
    Defined(StmtId),
    /// Any other visible thing.
    Other,
    /// Nothing: the name is not visible.
    Unknown,
}

/// The qubits of an operand before its brackets.
#[derive(Debug, Drop)]
pub struct Qubits<'a> {
    pub ids: &'a [QubitId],
    /// Whether this is one qubit alone and no register.
    pub single: bool,
}

/// What a name means in the body and in the types of a definition, its parameters and local names aside.
#[derive(Debug, Drop)]
pub enum Visible<'a> {
    /// A constant, or a predefined number.
    Value(&'a Const),
    /// What may be called.
    Called(Callable),
    /// Nothing: the name is not visible there.
    Unknown,
}

/// The names that are visible. Its meaning is a finite map from the numbers of names to what they mean.
pub trait Constants {
    ghost names: { Self → List (ℕ × Meaning) };

    /// What the name with this number means. It is asked for the names of the map alone.
    fn lookup(&self, name: u32) -> Lookup<'_>
        requires { IsSome (found (nat_eq name) (names self.now)) }
        ensures { found (nat_eq name) (names self.now) ≡ Some (meaning_of result) };
}

/// The names that calls of gates and subroutines ask for. Its meaning is three more finite maps: from the numbers of
/// names to what may be called, from the names of operands to their qubits or the rule that they break, and from
/// definitions and names to what the names mean there.
pub trait GateEnv: Constants {
    ghost callables: { Self → List (ℕ × Callable) };

    ghost operands: { Self → List (OperandName × Result (Selected QubitId) Rule) };

    ghost inside: { Self → List ((ℕ × ℕ) × MeaningInside) };

    /// What the name with this number is where it is called.
    fn callable(&self, name: u32) -> Callable
        requires { IsSome (found (nat_eq name) (callables self.now)) }
        ensures { found (nat_eq name) (callables self.now) ≡ Some result };

    /// The qubits of an operand before its brackets, or the rule that its name breaks: it is not visible, it names no
    /// qubits, `$n` and declared qubits are mixed, or there are too many qubits.
    fn qubits(&self, operand: &OperandRef) -> Result<Qubits<'_>, Rule>
        requires { IsSome (found (is_same_operand operand.now.name) (operands self.now)) }
        ensures { found (is_same_operand operand.now.name) (operands self.now) ≡ Some (qubits_of result) };

    /// What the name with this number means in the body and the types of a definition.
    fn visible(&self, def: StmtId, name: u32) -> Visible<'_>
        requires { IsSome (found (is_same_place (def.0, name)) (inside self.now)) }
        ensures { found (is_same_place (def.0, name)) (inside self.now) ≡ Some (meaning_inside result) };
}
