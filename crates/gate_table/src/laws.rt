//! Laws of the target table. No program calls these functions; each has an empty body, and its contract is the
//! law.

ghost use Rattle.gate_table.specs.Table.{names};
ghost use Rattle.gate_table.specs.Laws.{Differ, all_source_names, InversesReturn, InversesTakeTheSame, InversesAreGates, ControlsAddAQubit, NamesAreGates};

/// Names differ: no two rows have one name, and no source name stands for two gates.
pub fn names_differ()
    ensures rows { Differ names }
    ensures sources { Differ all_source_names }
{}

/// Where the inverse of a gate has an inverse, that is the gate, with its arguments at their places.
pub fn inverses_return()
    ensures { InversesReturn }
{}

/// The inverse of a gate is a gate of the table that takes as many arguments and qubits.
pub fn inverses_take_the_same()
    ensures takes { InversesTakeTheSame }
    ensures gates { InversesAreGates }
{}

/// A gate under a control is a gate of the table with exactly one qubit more. It takes the arguments of the gate,
/// or one where the gate takes none.
pub fn controls_add_a_qubit()
    ensures { ControlsAddAQubit }
{}

/// Each source name stands for a gate of the table.
pub fn names_are_gates()
    ensures { NamesAreGates }
{}
