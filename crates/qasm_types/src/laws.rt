// Laws of the two tables, and what the definitions of values give, worked by hand.
ghost use Rattle.qasm_types.specs.Laws.{CastsGiveValues, OperandsAreTakenAsValues, OperatorsGiveValues, PlansAreRows, ResultsAreValues, UnaryOperatorsGiveValues, UnaryPlansAreRows};
ghost use Rattle.qasm_types.specs.ValueRows.{WorkedCasts, WorkedOperators};

use angle_arith::{fractions_have_lowest_terms, negatives_keep_lowest_terms};

/// Worked rows: the values of some casts and operators.
pub fn worked_values()
    ensures casts { WorkedCasts }
    ensures operators { WorkedOperators }
{}

/// What is planned for the types of operands is a row of the table of operators.
pub fn plans_are_rows()
    ensures operators { PlansAreRows }
    ensures unary_operators { UnaryPlansAreRows }
{}

/// A cast gives a value of its type, and so does what an operator takes.
pub fn casts_give_values()
    ensures casts { CastsGiveValues }
    ensures taken { OperandsAreTakenAsValues }
{}

/// An operator gives a value of the type that its row has as the result, on values that it takes and on operands.
pub fn operators_give_values()
    ensures applied { OperatorsGiveValues }
    ensures results { ResultsAreValues }
{
    fractions_have_lowest_terms();
}

/// A unary operator gives a value of the type that its row has as the result.
pub fn unary_operators_give_values()
    ensures { UnaryOperatorsGiveValues }
{
    negatives_keep_lowest_terms();
}
