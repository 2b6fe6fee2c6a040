//! Laws of calls of subroutines. No program calls these functions; each has an empty body, and its contract is the law.
ghost use Rattle.subroutine_inline.specs.Rows.{WorkedCalls};

/// Calls worked by hand: what they bind and what they cost, or the rule that they break.
pub fn worked_calls()
    ensures { WorkedCalls }
{}
