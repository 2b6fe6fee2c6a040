//! The laws of straight instructions. They have no code: each contract is a law.

ghost use Rattle.expr_lower.specs.Coded.{CodesExpressions};
ghost use Rattle.expr_lower.specs.Lowered.{StraightRuns};
ghost use Rattle.expr_lower.specs.Reached.{FewAreReached};

use core_ir::laws::expressions_unfold;

/// The code of expressions leaves their values in the operands, and constants are fixed operands.
pub fn codes_expressions()
    ensures { CodesExpressions }
{
    expressions_unfold();
}

/// Behind straight instructions the machine runs what is left of the block.
pub fn straight_runs()
    ensures { StraightRuns }
{}

/// No more expressions are reached than there are.
pub fn few_are_reached()
    ensures { FewAreReached }
{}
