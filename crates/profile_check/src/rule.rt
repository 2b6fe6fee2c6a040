//! The rules of the profile, by their numbers and names.

ghost use Rattle.std.specs.Prelude.{◌≡◌};
ghost use Rattle.profile_check.specs.Rule.{number_of, name_of};

/// Why a module is refused. The least rule that is broken is reported, at its first place.
#[derive(Clone, Copy, Debug, PartialEq, Eq)]
pub enum CheckRule {
    /// A version other than 2.0, or qubits or results that are managed dynamically.
    Flags = 1,
    /// The profile is not the adaptive one.
    Entry = 2,
    /// A qubit's id is not below the stated number.
    QubitIds = 3,
    /// A result's id is not below the stated number.
    ResultIds = 4,
    /// A called function is not declared, or one is declared twice.
    Declarations = 5,
    /// A call's arguments are not those of its function, or it lacks a register or has one too many.
    Calls = 6,
    /// The call that initializes is not the first instruction of the first block, or stands elsewhere too.
    Initialize = 7,
    /// Two blocks have one name.
    Labels = 8,
    /// A register is assigned twice.
    AssignedOnce = 9,
    /// A target is no block, or the first one, or the two targets of a branch are one.
    Targets = 10,
    /// A phi stands in the first block, or its entries are not one for each predecessor.
    Phis = 11,
    /// A register is never assigned with the type of its use, or a fixed truth value is neither 0 nor 1.
    OperandTypes = 12,
    /// A divisor or the amount of a shift is not fixed, or out of range.
    Constants = 13,
    /// A register is read that is not assigned on every way, or a jump back loses one.
    CarriedRegister = 14,
    /// A result is read that is not measured on every way, or a jump back loses one.
    CarriedResult = 15,
    /// A call names one qubit twice.
    DistinctQubits = 16,
    /// Not exactly one block returns, with 0, or a record stands elsewhere or with something behind it.
    Records = 17,
    /// A label is used that is not there.
    LabelTexts = 18,
    /// A block other than the first has no predecessor that stands earlier.
    EarlierWay = 19,
    /// There are too many blocks, labels, qubits or results, or a register's number is too large.
    Limits = 20,
}

impl CheckRule {
    /// The rule's number, from 1 to 20, as users see it behind `P`.
    pub fn number(self) -> u8
        ensures { result ≡ number_of self }
    {
        self as u8
    }

    /// The rule's name, as users see it behind the number.
    pub fn name(self) -> &'static str
        ensures { result.now ≡ name_of self }
    {
        match self {
            CheckRule::Flags => "Flags",
            CheckRule::Entry => "Entry",
            CheckRule::QubitIds => "QubitIds",
            CheckRule::ResultIds => "ResultIds",
            CheckRule::Declarations => "Declarations",
            CheckRule::Calls => "Calls",
            CheckRule::Initialize => "Initialize",
            CheckRule::Labels => "Labels",
            CheckRule::AssignedOnce => "AssignedOnce",
            CheckRule::Targets => "Targets",
            CheckRule::Phis => "Phis",
            CheckRule::OperandTypes => "OperandTypes",
            CheckRule::Constants => "Constants",
            CheckRule::CarriedRegister => "CarriedRegister",
            CheckRule::CarriedResult => "CarriedResult",
            CheckRule::DistinctQubits => "DistinctQubits",
            CheckRule::Records => "Records",
            CheckRule::LabelTexts => "LabelTexts",
            CheckRule::EarlierWay => "EarlierWay",
            CheckRule::Limits => "Limits",
        }
    }
}
