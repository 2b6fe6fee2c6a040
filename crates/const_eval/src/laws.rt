// What the definitions of constants and of expressions give, worked by hand.
ghost use Rattle.const_eval.specs.ExpressionRows.{WorkedWalks, WorkedRefusals, WorkedStores, WorkedOperands, WorkedPlaces, WorkedResults, WorkedCalls};
ghost use Rattle.const_eval.specs.WalkLaws.{BudgetsAreKept, WalksAreJoined, ConstantsAreConstant};
ghost use Rattle.const_eval.specs.Rows.{WorkedNumbers, WorkedRanges, WorkedBits, WorkedNames, WorkedCasts};

/// Worked rows: the values of some constant expressions, and the rules that others break.
pub fn worked_constants()
    ensures numbers { WorkedNumbers }
    ensures ranges { WorkedRanges }
    ensures bits { WorkedBits }
    ensures names { WorkedNames }
    ensures casts { WorkedCasts }
{}

/// Worked rows: what is known of some expressions before the run with what they cost, the rules that others break and
/// where, constant places, values in a run, and calls of subroutines up to their classical arguments.
pub fn worked_expressions()
    ensures walks { WorkedWalks }
    ensures refusals { WorkedRefusals }
    ensures stores { WorkedStores }
    ensures operands { WorkedOperands }
    ensures places { WorkedPlaces }
    ensures results { WorkedResults }
    ensures calls { WorkedCalls }
{}

/// A walk is refused for its cost exactly where that passes the budget.
pub fn budgets_are_kept<T>()
    ensures { BudgetsAreKept T }
{}

/// Walks one behind another cost what each of them costs.
pub fn walks_are_joined<T, U, V>()
    ensures { WalksAreJoined T U V }
{}

/// A constant expression is worth its constant, in a walk and in a run.
pub fn constants_are_constant()
    ensures { ConstantsAreConstant }
{}
