//! The functions that a module may call.

ghost use Rattle.std.specs.Prelude.{◌≡◌, ℕ, ◌+◌, ◌<◌, IfSome, IfNone, map};
ghost use Rattle.std.specs.Option.{option_map};
ghost use Rattle.qir_module.specs.Functions.{row_of, IsNameOf};
ghost use Rattle.qir_module.specs.Kinds.{kind_of};

use qq_base::GateId;

/// A function of the target, by its place in the function table, from 0: the seven functions of the
/// run-time system and of measuring and resetting, and then the gates, so that gate g is function 7 + g.
#[derive(Clone, Copy, Debug, PartialEq, Eq)]
pub struct Function(pub u8);

/// What an argument of a function is.
#[derive(Clone, Copy, Debug, PartialEq, Eq)]
pub enum Kind {
    /// A word of 64 bits.
    Number,
    /// A truth value.
    Truth,
    /// The null pointer.
    Null,
    Qubit,
    Result,
    Label,
}

/// What a module's text says of a function.
#[derive(Clone, Copy, Debug)]
pub struct FunctionRow {
    pub name: &'static str,
    pub takes: &'static [Kind],
    /// Whether a call gives a truth value.
    pub gives: bool,
    /// Whether its declaration says that it cannot be undone.
    pub irreversible: bool,
}

impl Function {
    /// The number of functions in the table.
    pub const COUNT: u8 = 37;

    pub const INITIALIZE: Function = Function(0);

    pub const READ_RESULT: Function = Function(1);

    pub const ARRAY_RECORD_OUTPUT: Function = Function(2);

    pub const BOOL_RECORD_OUTPUT: Function = Function(3);

    pub const INT_RECORD_OUTPUT: Function = Function(4);

    pub const RESET: Function = Function(5);

    pub const MZ: Function = Function(6);

    pub const X: Function = Function(7);

    pub const H: Function = Function(10);

    pub const CX: Function = Function(22);

    /// The function of a gate, of which it is called with the arguments in units and then the qubits. The gate
    /// `gphase` has none.
    pub fn of_gate(gate: GateId) -> Function
        requires { gate.0 < 30 }
        ensures { result.0 ≡ 7 + gate.0 }
    {
        Function(7 + gate.0)
    }

    /// What a text says of the function; None exactly where its place is not in the table.
    pub fn row(self) -> Option<FunctionRow>
        ensures name { option_map (λ row. row.name.now) result
            ≡ option_map (λ row. row.name) (row_of self.0) }
        ensures takes { option_map (λ row. map kind_of row.takes.now) result
            ≡ option_map (λ row. row.takes) (row_of self.0) }
        ensures gives { option_map (λ row. row.gives) result
            ≡ option_map (λ row. row.gives) (row_of self.0) }
        ensures irreversible { option_map (λ row. row.irreversible) result
            ≡ option_map (λ row. row.irreversible) (row_of self.0) }
    {
        macro_rules! rows {
            ($($place:literal $name:literal ($($kind:ident),*) $gives:literal $irreversible:literal;)*) => {
                match self.0 {
                    $($place => Some(FunctionRow {
                        name: $name,
                        takes: &[$(Kind::$kind),*],
                        gives: $gives,
                        irreversible: $irreversible,
                    }),)*
                    Function::COUNT..=255 => None,
                }
            };
        }
        // The place, the name, what it takes, whether it gives a truth value, and whether it is irreversible.
        rows! {
            0 "__quantum__rt__initialize" (Null) false false;
            1 "__quantum__rt__read_result" (Result) true false;
            2 "__quantum__rt__array_record_output" (Number, Label) false false;
            3 "__quantum__rt__bool_record_output" (Truth, Label) false false;
            4 "__quantum__rt__int_record_output" (Number, Label) false false;
            5 "__quantum__qis__reset__body" (Qubit) false true;
            6 "__quantum__qis__mz__body" (Qubit, Result) false true;
            7 "__quantum__qis__x__body" (Qubit) false false;
            8 "__quantum__qis__y__body" (Qubit) false false;
            9 "__quantum__qis__z__body" (Qubit) false false;
            10 "__quantum__qis__h__body" (Qubit) false false;
            11 "__quantum__qis__s__body" (Qubit) false false;
            12 "__quantum__qis__sdg__body" (Qubit) false false;
            13 "__quantum__qis__t__body" (Qubit) false false;
            14 "__quantum__qis__tdg__body" (Qubit) false false;
            15 "__quantum__qis__sx__body" (Qubit) false false;
            16 "__quantum__qis__sxdg__body" (Qubit) false false;
            17 "__quantum__qis__id__body" (Qubit) false false;
            18 "__quantum__qis__p_turn__body" (Number, Qubit) false false;
            19 "__quantum__qis__rx_turn__body" (Number, Qubit) false false;
            20 "__quantum__qis__ry_turn__body" (Number, Qubit) false false;
            21 "__quantum__qis__rz_turn__body" (Number, Qubit) false false;
            22 "__quantum__qis__cx__body" (Qubit, Qubit) false false;
            23 "__quantum__qis__cy__body" (Qubit, Qubit) false false;
            24 "__quantum__qis__cz__body" (Qubit, Qubit) false false;
            25 "__quantum__qis__ch__body" (Qubit, Qubit) false false;
            26 "__quantum__qis__cp_turn__body" (Number, Qubit, Qubit) false false;
            27 "__quantum__qis__crx_turn__body" (Number, Qubit, Qubit) false false;
            28 "__quantum__qis__cry_turn__body" (Number, Qubit, Qubit) false false;
            29 "__quantum__qis__crz_turn__body" (Number, Qubit, Qubit) false false;
            30 "__quantum__qis__swap__body" (Qubit, Qubit) false false;
            31 "__quantum__qis__ccx__body" (Qubit, Qubit, Qubit) false false;
            32 "__quantum__qis__cswap__body" (Qubit, Qubit, Qubit) false false;
            33 "__quantum__qis__u_turn__body" (Number, Number, Number, Qubit) false false;
            34 "__quantum__qis__u3_turn__body" (Number, Number, Number, Qubit) false false;
            35 "__quantum__qis__u2_turn__body" (Number, Number, Qubit) false false;
            36 "__quantum__qis__cu_turn__body" (Number, Number, Number, Number, Qubit, Qubit) false false;
        }
    }

    /// The function of a name, without the `@` in front; None exactly where no function has the name.
    pub fn by_name(name: &[u8]) -> Option<Function>
        ensures found { IfSome result (λ function. IsNameOf function.0 name.now) }
        ensures none { IfNone result ((place : ℕ) → ¬ IsNameOf place name.now) }
    {
        for place in 0..Function::COUNT {
            if let Some(row) = Function(place).row() {
                if row.name.as_bytes() == name {
                    return Some(Function(place));
                }
            }
        }
        None
    }
}
