//! The laws by which the layers above take a core apart. They have no code: each contract is a law.

ghost use Rattle.core_ir.specs.Laws.{ExprsUnfold, ExprsStay, StmtsUnfold, StmtsStay, ValuesHaveKinds};

/// An expression's tree is made of the trees of the expressions that it names.
pub fn expressions_unfold()
    ensures { ExprsUnfold }
{}

/// An expression's tree stays where more expressions are put behind.
pub fn expressions_stay()
    ensures { ExprsStay }
{}

/// A statement's tree is made of the trees of the statements of its bodies.
pub fn statements_unfold()
    ensures { StmtsUnfold }
{}

/// A statement's tree stays where only earlier statements change, or more are put behind.
pub fn statements_stay()
    ensures { StmtsStay }
{}

/// A value is of its expression's kind.
pub fn values_have_kinds()
    ensures { ValuesHaveKinds }
{}
