//! What an expression asks of the place where it stands.
ghost use Rattle.std.specs.Prelude.{◌≡◌, ℕ, List, IsSome, nat_eq};
ghost use Rattle.std.specs.Map.{lookup as found};
ghost use Rattle.expr_parts.specs.declared.environment.Variable.{Variable};

use const_eval::Constants;
use qasm_types::Ty;

/// A variable: its type, and the first of its cells. A `bit[n]` has n cells, index 0 first, and every other type has one.
#[derive(Clone, Copy, Debug, PartialEq, Eq)]
pub struct Variable {
    pub ty: Ty,
    pub first: u32,
}

/// The names that are visible, and the variables among them. Its meaning is one more finite map: from the numbers of the names of
/// run-time values to the variables that they mean.
pub trait ExprEnv: Constants {
    ghost variables: { Self → List (ℕ × Variable) };

    /// The variable that the name with this number means, if it means one.
    fn variable(&self, name: u32) -> Option<Variable>
        ensures { result ≡ found (nat_eq name) (variables self.now) };
}
