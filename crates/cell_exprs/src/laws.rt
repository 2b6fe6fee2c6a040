//! Laws.
ghost use Rattle.cell_exprs.specs.Laws.{FixedPartsHaveValues, CastPartsHaveValues, OperatorPartsHaveValues, RowsTakeCasts, ScaledPartsHaveValues, ShiftedPartsHaveValues, UnaryPartsHaveValues};

use machine_words::{numbers_are_kept, ranges_are_exact, words_are_exact, words_are_reduced};

/// The parts of a constant have its value.
pub fn fixed_parts_have_values()
    ensures { FixedPartsHaveValues }
{}

/// The parts of what is cast have the value of the cast.
pub fn cast_parts_have_values()
    ensures { CastPartsHaveValues }
{
    numbers_are_kept();
    words_are_exact();
    ranges_are_exact();
    words_are_reduced();
}

/// The parts of an operator on two operands have the value of the operator.
pub fn operator_parts_have_values()
    ensures { OperatorPartsHaveValues }
{
    numbers_are_kept();
    words_are_exact();
    ranges_are_exact();
    words_are_reduced();
}

/// The parts of a unary operator have the value of the operator.
pub fn unary_parts_have_values()
    ensures { UnaryPartsHaveValues }
{
    numbers_are_kept();
    words_are_exact();
    ranges_are_exact();
    words_are_reduced();
}

/// The parts of a register by an amount have the value of the operator.
pub fn shifted_parts_have_values()
    ensures { ShiftedPartsHaveValues }
{}

/// The parts of a word or an angle by a divisor or an amount have the value of the operator.
pub fn scaled_parts_have_values()
    ensures { ScaledPartsHaveValues }
{
    numbers_are_kept();
    words_are_exact();
    ranges_are_exact();
    words_are_reduced();
}

/// What the rows of the table take are types to which their operands cast.
pub fn rows_take_casts()
    ensures { RowsTakeCasts }
{}
