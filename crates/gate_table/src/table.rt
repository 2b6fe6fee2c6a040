//! The target table and its columns.

ghost use Rattle.std.specs.Prelude.{◌≡◌, ◌<◌, ◌≤◌, slice_get, Some};
ghost use Rattle.gate_table.specs.Table.{rows, inverses, controls, names, gate_named};

use qq_base::GateId;

/// What a gate takes.
#[derive(Clone, Copy, Debug, PartialEq, Eq)]
pub struct Row {
    /// The number of arguments, each an angle in units of 2^-32 turn.
    pub params: u8,
    pub qubits: u8,
}

/// The inverse of a gate.
#[derive(Clone, Copy, Debug, PartialEq, Eq)]
pub struct InvRow {
    pub gate: GateId,
    /// Argument i of the inverse is minus argument `order[i]` of the gate.
    pub order: [u8; 4],
}

/// A gate under one control, which is the first qubit.
#[derive(Clone, Copy, Debug, PartialEq, Eq)]
pub struct CtlRow {
    pub gate: GateId,
    /// The one argument, in units of 2^-32 turn, where the arguments are not those of the gate.
    pub turn: Option<i64>,
}

/// A table of gates, each known by its row from 0.
#[derive(Debug, Drop)]
pub struct Table<const N: usize> {
    pub rows: [Row; N],
    pub inverses: [Option<InvRow>; N],
    pub controls: [Option<CtlRow>; N],
    pub ghost small: { N ≤ 256 },
}

/// The gates by their rows: the name, arguments, qubits, the inverse, and the gate under a control.
macro_rules! gates {
    ($make:ident) => {
        $make! {
            0 x: 0 1 (by 0) (by 15);
            1 y: 0 1 (by 1) (by 16);
            2 z: 0 1 (by 2) (by 17);
            3 h: 0 1 (by 3) (by 18);
            4 s: 0 1 (by 5) (by 19 at 0x4000_0000);
            5 sdg: 0 1 (by 4) (by 19 at -0x4000_0000);
            6 t: 0 1 (by 7) (by 19 at 0x2000_0000);
            7 tdg: 0 1 (by 6) (by 19 at -0x2000_0000);
            8 sx: 0 1 (by 9) (none);
            9 sxdg: 0 1 (by 8) (none);
            10 id: 0 1 (by 10) (none);
            11 p: 1 1 (by 11) (by 19);
            12 rx: 1 1 (by 12) (by 20);
            13 ry: 1 1 (by 13) (by 21);
            14 rz: 1 1 (by 14) (by 22);
            15 cx: 0 2 (by 15) (by 24);
            16 cy: 0 2 (by 16) (none);
            17 cz: 0 2 (by 17) (none);
            18 ch: 0 2 (by 18) (none);
            19 cp: 1 2 (by 19) (none);
            20 crx: 1 2 (by 20) (none);
            21 cry: 1 2 (by 21) (none);
            22 crz: 1 2 (by 22) (none);
            23 swap: 0 2 (by 23) (by 25);
            24 ccx: 0 3 (by 24) (none);
            25 cswap: 0 3 (by 25) (none);
            26 U: 3 1 (exchanged 26) (none);
            27 u3: 3 1 (exchanged 27) (none);
            28 u2: 2 1 (none) (none);
            29 cu: 4 2 (exchanged 29) (none);
            30 gphase: 1 0 (by 30) (by 11);
        }
    };
}

/// Writes what each gate takes.
macro_rules! rows {
    ($($gate:literal $name:ident: $params:literal $qubits:literal $inverse:tt $control:tt;)*) => {
        [$(Row { params: $params, qubits: $qubits }),*]
    };
}

/// Writes the inverse of each gate.
macro_rules! inverses {
    ($($gate:literal $name:ident: $params:literal $qubits:literal $inverse:tt $control:tt;)*) => {
        [$(inverse!($inverse)),*]
    };
}

macro_rules! inverse {
    ((none)) => { None };
    ((by $gate:literal)) => { Some(InvRow { gate: GateId($gate), order: [0, 1, 2, 3] }) };
    ((exchanged $gate:literal)) => { Some(InvRow { gate: GateId($gate), order: [0, 2, 1, 3] }) };
}

/// Writes each gate under a control.
macro_rules! controls {
    ($($gate:literal $name:ident: $params:literal $qubits:literal $inverse:tt $control:tt;)*) => {
        [$(control!($control)),*]
    };
}

macro_rules! control {
    ((none)) => { None };
    ((by $gate:literal)) => { Some(CtlRow { gate: GateId($gate), turn: None }) };
    ((by $gate:literal at $turn:literal)) => { Some(CtlRow { gate: GateId($gate), turn: Some($turn) }) };
}

const ROWS: [Row; 31] = gates!(rows);

const INVERSES: [Option<InvRow>; 31] = gates!(inverses);

const CONTROLS: [Option<CtlRow>; 31] = gates!(controls);

/// The target table.
pub fn target() -> Table<31>
    ensures rows { result.rows ≡ rows }
    ensures inverses { result.inverses ≡ inverses }
    ensures controls { result.controls ≡ controls }
{
    Table {
        rows: ROWS,
        inverses: INVERSES,
        controls: CONTROLS,
    }
}

impl<const N: usize> Table<N> {
    /// What a gate of the table takes.
    pub fn row(&self, gate: GateId) -> Row
        requires { gate.0 < N }
        ensures { slice_get self.now.rows gate.0 ≡ Some result }
    {
        self.rows[gate.0 as usize]
    }

    /// The inverse of a gate of the table; None exactly where the table has none.
    pub fn inverse(&self, gate: GateId) -> Option<InvRow>
        requires { gate.0 < N }
        ensures { slice_get self.now.inverses gate.0 ≡ Some result }
    {
        self.inverses[gate.0 as usize]
    }

    /// A gate of the table under a control; None exactly where the table has none.
    pub fn controlled(&self, gate: GateId) -> Option<CtlRow>
        requires { gate.0 < N }
        ensures { slice_get self.now.controls gate.0 ≡ Some result }
    {
        self.controls[gate.0 as usize]
    }
}

impl Table<31> {
    /// The name of a gate, as runs show it.
    pub fn name(&self, gate: GateId) -> &'static str
        requires { gate.0 < 31 }
        ensures { slice_get names gate.0 ≡ Some result.now }
    {
        macro_rules! name_of {
            ($($gate:literal $name:ident: $params:literal $qubits:literal $inverse:tt $control:tt;)*) => {
                match gate.0 {
                    $($gate => stringify!($name),)*
                    _ => unreachable!(),
                }
            };
        }
        gates!(name_of)
    }

    /// The gate that a source text calls by a name; None exactly where the name is no source name.
    pub fn by_name(&self, name: &[u8]) -> Option<GateId>
        ensures { result ≡ gate_named name.now }
    {
        macro_rules! gate_of {
            ($($name:literal $gate:literal;)*) => {
                match name {
                    $($name => Some(GateId($gate)),)*
                    _ => None,
                }
            };
        }
        gate_of! {
            b"x" 0;
            b"y" 1;
            b"z" 2;
            b"h" 3;
            b"s" 4;
            b"sdg" 5;
            b"t" 6;
            b"tdg" 7;
            b"sx" 8;
            b"id" 10;
            b"p" 11;
            b"rx" 12;
            b"ry" 13;
            b"rz" 14;
            b"cx" 15;
            b"cy" 16;
            b"cz" 17;
            b"ch" 18;
            b"cp" 19;
            b"crx" 20;
            b"cry" 21;
            b"crz" 22;
            b"swap" 23;
            b"ccx" 24;
            b"cswap" 25;
            b"U" 26;
            b"u3" 27;
            b"u2" 28;
            b"cu" 29;
            b"gphase" 30;
            b"CX" 15;
            b"phase" 11;
            b"u1" 11;
            b"cphase" 19;
        }
    }
}
