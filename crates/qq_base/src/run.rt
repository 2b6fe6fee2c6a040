//! What a run of a program shows, of a source text and of a module alike.

/// A qubit, by its number from 0.
#[derive(Clone, Copy, Debug, PartialEq, Eq)]
pub struct QubitId(pub u32);

/// A gate, by its row in the target table, from 0.
#[derive(Clone, Copy, Debug, PartialEq, Eq)]
pub struct GateId(pub u8);

/// What a run does to its qubits.
#[derive(Clone, Copy, Debug, PartialEq, Eq)]
pub enum Event {
    /// A gate with its arguments, in units of 2^-32 turn, and its qubits. Places behind those of the
    /// gate's row hold 0.
    Gate {
        gate: GateId,
        args: [i64; 4],
        qubits: [QubitId; 3],
    },
    /// A qubit is set to its ground state.
    Reset {
        qubit: QubitId,
    },
    /// A qubit is measured, with this outcome.
    Measure {
        qubit: QubitId,
        outcome: bool,
    },
}

/// One output record. A label is named by its number.
#[derive(Clone, Copy, Debug, PartialEq, Eq)]
pub enum Record {
    /// An array of so many records, which follow.
    Array { label: u32, size: u32 },
    /// A truth value.
    Bool { label: u32, value: bool },
    /// A whole number.
    Int { label: u32, value: i64 },
}

/// What one step of a run gives.
#[derive(Clone, Copy, Debug, PartialEq, Eq)]
pub enum Step {
    /// Something is done to a qubit.
    Event(Event),
    /// Something is recorded.
    Record(Record),
    /// A measurement is next, and no outcome was given.
    Ask,
    /// A loop's body has ended or continued, and a turn is spent.
    Turn,
    /// The run has ended.
    Done,
}

/// How far a run came.
#[derive(Clone, Copy, Debug, PartialEq, Eq)]
pub enum Fate {
    /// It ended, and its records are complete.
    Ended,
    /// It stands before a measurement for which no outcome is left.
    Asked,
    /// It stands at the end of a loop's body, with no turn left.
    Turning,
}
