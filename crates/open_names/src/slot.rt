//! What a name stands for.
ghost use Rattle.std.specs.Prelude.{◌≡◌};
ghost use Rattle.open_names.specs.Slots.{cells_of_slot, qubits_of_slot};

use const_eval::Const;
use qasm_ast::StmtId;
use qasm_types::{Ty, cells};
use qq_base::{GateId, QubitId};

/// Qubits, in order.
#[derive(Debug, Drop)]
pub struct Register {
    pub ids: Vec<QubitId>,
    /// Whether this is one qubit alone and no register.
    pub single: bool,
}

/// What a name stands for. A variable has a content, whose type differs with the use of the scopes.
#[derive(Debug, Drop)]
pub enum Slot<A> {
    /// A constant: a `const` name, the variable of a static `for`, or a predefined number.
    Fixed(Const),
    Variable(Ty, A),
    /// The variable of a running `for`, which is never assigned.
    Counter(Ty, A),
    /// A qubit, or a register of qubits, that is declared.
    Qubits(Register),
    /// Another name for qubits: that of a `let`, or a parameter.
    Alias(Register),
    /// A row of the target table.
    Row(GateId),
    /// A gate, with the statement that defines it.
    Gate(StmtId),
    /// A subroutine, with the statement that defines it.
    Subroutine(StmtId),
}

impl<A> Slot<A> {
    /// The cells of a variable, and three of a running `for`.
    pub(crate) fn cells(&self) -> u64
        ensures { result ≡ cells_of_slot self.now }
    {
        match self {
            Slot::Variable(ty, _) => u64::from(cells(*ty)),
            Slot::Counter(_, _) => 3,
            _ => 0,
        }
    }

    /// The qubits that are declared with the name.
    pub(crate) fn qubits(&self) -> u64
        ensures { result ≡ qubits_of_slot self.now }
    {
        match self {
            Slot::Qubits(register) => register.ids.len() as u64,
            _ => 0,
        }
    }
}
