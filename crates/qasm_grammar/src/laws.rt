//! The laws of programs. They have no code: each contract is a law.

ghost use Rattle.std.specs.Prelude.{◌≡◌, ℕ, suc, ◌*◌, ◌≤◌, Option, Some, List};
ghost use Rattle.qq_base.specs.declared.refusal.Refusal.{Refusal};
ghost use Rattle.qasm_lexer.specs.declared.token.Token.{Token};
ghost use Rattle.qasm_ast.specs.Tree.{Statements};
ghost use Rattle.qasm_ast.specs.Level.{stmts_level};
ghost use Rattle.qasm_grammar.specs.Height.{height_of, Every};
ghost use Rattle.qasm_grammar.specs.Reader.{read_program};
ghost use Rattle.qasm_grammar.specs.Whole.{IsProgramOf, ProgramExact, finish};
ghost use Rattle.qasm_grammar.specs.Stops.{IsRefused};
ghost use Rattle.qasm_grammar.specs.Answer.{answer, IsAnswer};
ghost use Rattle.qasm_grammar.specs.Rows.{EmptyProgram, VersionAlone, VersionWithMinor, OtherVersion, VersionBehind, IncludeDouble, IncludeSingle, IncludeOther, QubitWithWidth, QregWithWidth, CregAlone, VariableMeasured, ConstantOfOne, ConstantMeasured, OutputOfBit, JoinedOperands, JoinedWithComma, GateWithCommas, GateEmptyNames, GateMeasures, GateNoQubit, DefEmptyParameters, DefParameters, CallWithModifiers, CallWithPower, PhaseAlone, PhaseComma, CallWithArguments, CallNoOperand, SubroutineCalled, BarrierOfNone, ResetOfIndex, MeasuredAlone, MeasuredInto, MeasuredIntoHardware, AssignMeasured, AssignToIndex, AddMeasured, IndexAlone, DanglingElse, TwoElses, ElseBehindBraces, ElseWithBraces, ElseOfLoop, ElseAlone, RangeOfThree, RangeOfTwo, SetOfTurns, ReturnMeasured, ThirdModifier, BracketOfModifier, ArgumentsOfModified, OperandsOfModified, ModifierInBodies, ConditionInBodies, WidthInBodies, SetInBodies, RangeInBodies, GateNamesInBodies, GateInBodies, ParametersInBodies, CallInBodies, IndexInBodies, ThirdSign, ThirdGroup, ThirdOperator, AtTheEnd, OpenBody, AnnotationAlone};
ghost use Rattle.qasm_grammar.specs.RuleRows.{RuleOfVersion, RuleOfVersionWord, RuleOfSecondVersion, RuleOfVersionInBody, RuleOfVersionInGate, RuleOfVersionInValue, RuleOfInclude, RuleOfText, RuleOfWord, RuleOfModifier, RuleOfHash, RuleOfAnnotation, RuleOfAnnotationInGate, RuleOfAnnotationInValue, RuleOfDepth, RuleOfChain, RuleOfNumber, RuleOfEnd};

/// The reader of programs answers the statements where the tokens are a program. Else it stops behind the
/// longest list of tokens that begins one, and tells whether only a limit forbids the token there. This
/// holds for every limit on chains and for every number of levels that may be opened.
pub fn programs_are_read_exactly()
    ensures { (text : List ℕ) (limit : Option ℕ) (room : ℕ) (tokens : List Token) →
        ProgramExact text limit room tokens (finish (read_program text limit room tokens)) }
{}

/// Tokens are a program of one list of statements at most.
pub fn programs_have_one_tree()
    ensures { (text : List ℕ) (limit : Option ℕ) (room : ℕ) (tokens : List Token) (a b : Statements) →
        IsProgramOf text limit room tokens a → IsProgramOf text limit room tokens b → a ≡ b }
{}

/// What is answered of tokens is right: they are a program of these statements, or are refused so.
pub fn answers_are_right()
    ensures { (text : List ℕ) (limit : Option ℕ) (room : ℕ) (tokens : List Token) →
        IsAnswer text limit room tokens (answer text limit room tokens) }
{}

/// Tokens are refused by one rule and at one place at most.
pub fn refusals_are_one()
    ensures { (text : List ℕ) (limit : Option ℕ) (room : ℕ) (tokens : List Token) (a b : Refusal) →
        IsRefused text limit room tokens a → IsRefused text limit room tokens b → a ≡ b }
{}

/// No tokens are a program and refused.
pub fn programs_are_not_refused()
    ensures { (text : List ℕ) (limit : Option ℕ) (room : ℕ) (tokens : List Token) (statements : Statements) (refusal : Refusal) →
        IsProgramOf text limit room tokens statements → IsRefused text limit room tokens refusal → ⊥ }
{}

/// The levels of a program, as its tree has them, are no more than those that may be opened.
pub fn programs_fit_their_room()
    ensures { (text : List ℕ) (limit : Option ℕ) (room : ℕ) (tokens : List Token) (statements : Statements) →
        IsProgramOf text limit room tokens statements → stmts_level statements ≤ room }
{}

/// Expressions of a program are bounded in height by the limit on chains and the levels that may be opened: with the limits
/// of the profile, 64 of each, by 65 * 65. So a walk down an expression needs so many steps at most.
pub fn expressions_are_low()
    ensures { (text : List ℕ) (limit room : ℕ) (tokens : List Token) (statements : Statements) →
        IsProgramOf text (Some limit) room tokens statements → Every (λ e. height_of e ≤ suc limit * suc room) statements }
{}

/// Worked rows: what is read of some short lists of tokens, and where reading stops.
pub fn worked_rows()
    ensures empty_program { EmptyProgram }
    ensures version_alone { VersionAlone }
    ensures version_with_minor { VersionWithMinor }
    ensures other_version { OtherVersion }
    ensures version_behind { VersionBehind }
    ensures include_double { IncludeDouble }
    ensures include_single { IncludeSingle }
    ensures include_other { IncludeOther }
    ensures qubit_with_width { QubitWithWidth }
    ensures qreg_with_width { QregWithWidth }
    ensures creg_alone { CregAlone }
    ensures variable_measured { VariableMeasured }
    ensures constant_of_one { ConstantOfOne }
    ensures constant_measured { ConstantMeasured }
    ensures output_of_bit { OutputOfBit }
    ensures joined_operands { JoinedOperands }
    ensures joined_with_comma { JoinedWithComma }
    ensures gate_with_commas { GateWithCommas }
    ensures gate_empty_names { GateEmptyNames }
    ensures gate_measures { GateMeasures }
    ensures gate_no_qubit { GateNoQubit }
    ensures def_empty_parameters { DefEmptyParameters }
    ensures def_parameters { DefParameters }
    ensures call_with_modifiers { CallWithModifiers }
    ensures call_with_power { CallWithPower }
    ensures phase_alone { PhaseAlone }
    ensures phase_comma { PhaseComma }
    ensures call_with_arguments { CallWithArguments }
    ensures call_no_operand { CallNoOperand }
    ensures subroutine_called { SubroutineCalled }
    ensures barrier_of_none { BarrierOfNone }
    ensures reset_of_index { ResetOfIndex }
    ensures measured_alone { MeasuredAlone }
    ensures measured_into { MeasuredInto }
    ensures measured_into_hardware { MeasuredIntoHardware }
    ensures assign_measured { AssignMeasured }
    ensures assign_to_index { AssignToIndex }
    ensures add_measured { AddMeasured }
    ensures index_alone { IndexAlone }
    ensures dangling_else { DanglingElse }
    ensures two_elses { TwoElses }
    ensures else_behind_braces { ElseBehindBraces }
    ensures else_with_braces { ElseWithBraces }
    ensures else_of_loop { ElseOfLoop }
    ensures else_alone { ElseAlone }
    ensures range_of_three { RangeOfThree }
    ensures range_of_two { RangeOfTwo }
    ensures set_of_turns { SetOfTurns }
    ensures return_measured { ReturnMeasured }
    ensures third_modifier { ThirdModifier }
    ensures bracket_of_modifier { BracketOfModifier }
    ensures arguments_of_modified { ArgumentsOfModified }
    ensures operands_of_modified { OperandsOfModified }
    ensures modifier_in_bodies { ModifierInBodies }
    ensures condition_in_bodies { ConditionInBodies }
    ensures width_in_bodies { WidthInBodies }
    ensures set_in_bodies { SetInBodies }
    ensures range_in_bodies { RangeInBodies }
    ensures gate_names_in_bodies { GateNamesInBodies }
    ensures gate_in_bodies { GateInBodies }
    ensures parameters_in_bodies { ParametersInBodies }
    ensures call_in_bodies { CallInBodies }
    ensures index_in_bodies { IndexInBodies }
    ensures third_sign { ThirdSign }
    ensures third_group { ThirdGroup }
    ensures third_operator { ThirdOperator }
    ensures at_the_end { AtTheEnd }
    ensures open_body { OpenBody }
    ensures annotation_alone { AnnotationAlone }
{}

/// Worked rows: by which rule some short lists of tokens are refused, and where.
pub fn worked_refusals()
    ensures rule_of_version { RuleOfVersion }
    ensures rule_of_version_word { RuleOfVersionWord }
    ensures rule_of_second_version { RuleOfSecondVersion }
    ensures rule_of_version_in_body { RuleOfVersionInBody }
    ensures rule_of_version_in_gate { RuleOfVersionInGate }
    ensures rule_of_version_in_value { RuleOfVersionInValue }
    ensures rule_of_include { RuleOfInclude }
    ensures rule_of_text { RuleOfText }
    ensures rule_of_word { RuleOfWord }
    ensures rule_of_modifier { RuleOfModifier }
    ensures rule_of_hash { RuleOfHash }
    ensures rule_of_annotation { RuleOfAnnotation }
    ensures rule_of_annotation_in_gate { RuleOfAnnotationInGate }
    ensures rule_of_annotation_in_value { RuleOfAnnotationInValue }
    ensures rule_of_depth { RuleOfDepth }
    ensures rule_of_chain { RuleOfChain }
    ensures rule_of_number { RuleOfNumber }
    ensures rule_of_end { RuleOfEnd }
{}
