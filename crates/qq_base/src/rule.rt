//! The rules of the language profile, by their numbers and names.

ghost use Rattle.std.specs.Prelude.{◌≡◌};
ghost use Rattle.qq_base.specs.Rule.{number_of, name_of};

/// Why a source text is refused. `docs/RULES.md` says of each rule where it comes; the first that is
/// broken, in the order given there, is the one that is reported.
#[derive(Clone, Copy, Debug, PartialEq, Eq)]
pub enum Rule {
    /// The form of the text is not built yet.
    NotBuilt,
    /// There are more than 4,194,304 bytes.
    InputTooLong,
    /// The bytes are not UTF-8.
    NotUtf8,
    /// A character begins no token.
    BadCharacter,
    /// A `/*` has no `*/`.
    OpenComment,
    /// A quote has no equal quote on its line.
    OpenString,
    /// A whole literal, a `$` or version number, a name or a bit string is too large.
    LiteralRange,
    /// A decimal literal stands.
    FloatLiteral,
    /// There are over 64 levels, or over 64 binary operators in one chain.
    NestingDeep,
    /// No program goes on so.
    Syntax,
    /// A version other than 3.0, or `OPENQASM` behind the first token, where a statement might begin.
    Version,
    /// A word that the profile leaves out, the mark `#`, or `@` where a statement might begin.
    LeftOut,
    /// The included file is not `stdgates.inc`.
    Include,
    /// A name is not visible.
    Unknown,
    /// The name stands in this scope already.
    Redeclared,
    /// What stands is no thing that may stand there.
    WrongKind,
    /// A width is out of the range of its type.
    WidthRange,
    /// An operator, a loop's type, a gate's argument, a measurement's target or a call has the wrong type.
    TypeMismatch,
    /// The cast table has no row.
    NoCast,
    /// An expression is not constant where it must be.
    NotConstant,
    /// A constant result is out of range.
    ConstRange,
    /// A constant divisor is 0, or a remainder is left where none may be.
    ConstDivide,
    /// A constant angle is a whole number other than 0, or pi stands under an operator that does not take it.
    NotPiMultiple,
    /// An angle is no whole number of its units.
    NotDyadic,
    /// An angle is over 2^40 units in size.
    TurnRange,
    /// A position is not in the register.
    IndexRange,
    /// A step is 0.
    StepZero,
    /// Sizes of registers differ.
    SizeMismatch,
    /// A qubit stands twice in one application or one alias.
    RepeatedQubit,
    /// The number of arguments or operands is wrong.
    ArgumentCount,
    /// An exponent or a number of controls is out of range.
    PowRange,
    /// A gate has no inverse in the target table.
    InverseOutsideTable,
    /// A gate has no controlled gate in the target table.
    ControlOutsideTable,
    /// A gate or subroutine calls itself.
    Recursion,
    /// A subroutine with a return type does not return on every way.
    ReturnMissing,
    /// A `return` stands in the wrong place, or with the wrong value.
    ReturnPlace,
    /// A `break` or `continue` stands in no loop.
    LoopPlace,
    /// A constant or a loop's variable is assigned.
    AssignConst,
    /// The divisor of a run-time division is no constant from 1 to 2^63 - 1.
    DivisorRange,
    /// A run-time shift's amount is no constant from 0 below the width, or a constant one is negative.
    ShiftRange,
    /// A call stands where none may.
    CallPlace,
    /// Calls are nested too deep.
    CallDepth,
    /// Both hardware qubits and declared qubits occur.
    MixedQubits,
    /// There are over 1,024 qubits.
    QubitRange,
    /// There are over 4,096 cells in scope.
    CellRange,
    /// An `output` stands below the top level.
    OutputPlace,
    /// The cost passes 250,000.
    TooLarge,
    /// The joints pass 4,000.
    TooManyJoints,
    /// A top-level declaration stands below the top level.
    DeclarationPlace,
    /// A running `for` has a variable over 32 bits or a step over 2^31 in size.
    LoopWidth,
}

impl Rule {
    /// The rule's number, from 0 to 49, as users see it behind `Q`.
    pub fn number(self) -> u8
        ensures { result ≡ number_of self }
    {
        self as u8
    }

    /// The rule's name, as users see it behind the number.
    pub fn name(self) -> &'static str
        ensures { result.now ≡ name_of self }
    {
        match self {
            Rule::NotBuilt => "NotBuilt",
            Rule::InputTooLong => "InputTooLong",
            Rule::NotUtf8 => "NotUtf8",
            Rule::BadCharacter => "BadCharacter",
            Rule::OpenComment => "OpenComment",
            Rule::OpenString => "OpenString",
            Rule::LiteralRange => "LiteralRange",
            Rule::FloatLiteral => "FloatLiteral",
            Rule::NestingDeep => "NestingDeep",
            Rule::Syntax => "Syntax",
            Rule::Version => "Version",
            Rule::LeftOut => "LeftOut",
            Rule::Include => "Include",
            Rule::Unknown => "Unknown",
            Rule::Redeclared => "Redeclared",
            Rule::WrongKind => "WrongKind",
            Rule::WidthRange => "WidthRange",
            Rule::TypeMismatch => "TypeMismatch",
            Rule::NoCast => "NoCast",
            Rule::NotConstant => "NotConstant",
            Rule::ConstRange => "ConstRange",
            Rule::ConstDivide => "ConstDivide",
            Rule::NotPiMultiple => "NotPiMultiple",
            Rule::NotDyadic => "NotDyadic",
            Rule::TurnRange => "TurnRange",
            Rule::IndexRange => "IndexRange",
            Rule::StepZero => "StepZero",
            Rule::SizeMismatch => "SizeMismatch",
            Rule::RepeatedQubit => "RepeatedQubit",
            Rule::ArgumentCount => "ArgumentCount",
            Rule::PowRange => "PowRange",
            Rule::InverseOutsideTable => "InverseOutsideTable",
            Rule::ControlOutsideTable => "ControlOutsideTable",
            Rule::Recursion => "Recursion",
            Rule::ReturnMissing => "ReturnMissing",
            Rule::ReturnPlace => "ReturnPlace",
            Rule::LoopPlace => "LoopPlace",
            Rule::AssignConst => "AssignConst",
            Rule::DivisorRange => "DivisorRange",
            Rule::ShiftRange => "ShiftRange",
            Rule::CallPlace => "CallPlace",
            Rule::CallDepth => "CallDepth",
            Rule::MixedQubits => "MixedQubits",
            Rule::QubitRange => "QubitRange",
            Rule::CellRange => "CellRange",
            Rule::OutputPlace => "OutputPlace",
            Rule::TooLarge => "TooLarge",
            Rule::TooManyJoints => "TooManyJoints",
            Rule::DeclarationPlace => "DeclarationPlace",
            Rule::LoopWidth => "LoopWidth",
        }
    }
}
